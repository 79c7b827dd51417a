// A body's dictionary, of either version: its fields and entries checked in byte order, and a cursor over the entries.
#![tactic(auto)]

ghost use Rattle.std.specs.Prelude.{◌≡◌, ◌+◌, ◌≤◌, true, false, cond, List, eqb, leb, length, drop, IsTrue};
ghost use Rattle.dictionary.specs.Layout.{Entry, most_values1, most_blocks};
ghost use Rattle.dictionary.specs.Reading.{Listing, past, is_value_due};
ghost use Rattle.dictionary.specs.Promises.{is_two, tail, stored_extent_at, no_entry_there, entry_in_block, NextAt, ReadsDictionary, SpanIn, cell_at, bytes_at};
ghost use Rattle.dictionary.specs.Promises.{StandsAt, EndsAt, ValueAt, OnesFrom, HasValueAt, CountAt, OffsetAt, NullAt, value_limit, FixedOf};
ghost use Rattle.dictionary.specs.Promises.{ListingFrom, DirectoryFrom, DirectoryAt, BlockEntriesAt, BlockAt, BlocksAt, AllEntriesAt, Tabling};

use numbers::Position;
use refusal::Refusal;
use std::fmt;

// How many values a body of version 1 may have.
const MOST_VALUES_1: u64 = 4_096;

/// How many values a body of version 2 may have.
pub const MOST_VALUES_2: u64 = 65_536;

/// How many blocks a body of version 2 may have.
pub const MOST_BLOCKS: u64 = 65_536;

// Up to so many values each is compared with those before it: zeroing a table would take longer.
const FEW_VALUES: u64 = 32;

// The numbers of a hash table with room for as many values as version 1 may have.
const TABLE: usize = hash_table::CHAINS + hash_table::NUMBERS * MOST_VALUES_1 as usize;

// Where has-null stands, and null's entry or what follows where it has none.
const HAS_NULL_AT: usize = 9;

const NULL_AT: usize = 10;

// Counts, offsets and extents have so many bytes.
const NUMBER: usize = 4;

/// The two layouts of a body: in version 1 the values' entries stand one after another, in version 2 in blocks behind a directory.
#[derive(Clone, Copy, Debug, PartialEq, Eq)]
pub enum Version {
    One,
    Two,
}

impl TryFrom<u8> for Version {
    type Error = Refusal;

    ghost use Rattle.dictionary.specs.Promises.{IsVersion};

    ghost try_from_gives = { IsVersion };

    fn try_from(byte: u8) -> Result<Self, Refusal> {
        match byte {
            1 => Ok(Version::One),
            2 => Ok(Version::Two),
            _ => Err(Refusal::Version),
        }
    }
}

impl Version {
    // How many values there may be.
    fn most_values(self) -> u64
        ensures { result ≡ value_limit (is_two self) }
    {
        match self {
            Version::One => MOST_VALUES_1,
            Version::Two => MOST_VALUES_2,
        }
    }

    // How many bytes an entry has behind its value: its offset, and in version 2 its extent.
    fn behind_value(self) -> usize
        ensures { (result ≡ tail (is_two self)) × (4 ≤ result) × (result ≤ 8) }
    {
        match self {
            Version::One => NUMBER,
            Version::Two => 2 * NUMBER,
        }
    }
}

/// Where a walk over the values' entries stands: a position, and the number of entries left in the block that is open there, 0 where a block's number is
/// due. Version 1 has no blocks: all its entries are left from the start.
#[derive(Clone, Copy, Debug, PartialEq, Eq)]
pub struct Cursor {
    pub at: Position,
    pub left: u64,
}

/// Null's entry: its offset and extent.
#[derive(Clone, Copy, Debug, PartialEq, Eq)]
pub struct NullEntry {
    pub offset: i32,
    pub extent: u64,
}

/// What a sound dictionary says: the row count, the number of values, the version, null's entry if it has one; the cursor before the values' first entry,
/// and where the region of bitmaps begins.
#[derive(Clone, Copy, Debug, PartialEq, Eq)]
pub struct Summary {
    pub rows: u64,
    pub values: u64,
    pub version: Version,
    pub null: Option<NullEntry>,
    pub first: Cursor,
    pub region: Position,
}

/// The entry at a cursor: where its value stands, its offset and extent; and the cursor behind it.
#[derive(Clone, Copy, Debug, PartialEq, Eq)]
pub struct EntryAt {
    pub start: Position,
    pub end: Position,
    pub offset: i32,
    pub extent: u64,
    pub next: Cursor,
}

// The fields that every dictionary begins with.
#[derive(Clone, Copy, Debug, PartialEq, Eq)]
struct Front {
    version: Version,
    has_null: bool,
    rows: u64,
    values: u64,
}

// A value's place.
#[derive(Clone, Copy, Debug, PartialEq, Eq)]
struct Span {
    start: Position,
    end: Position,
}

impl Span {
    fn bytes(self, body: &[u8]) -> &[u8]
        requires { (self.start.0 ≤ self.end.0) × (self.end.0 ≤ length body.now) }
        ensures { result.now ≡ bytes_at body.now self }
    {
        &body[self.start.0..self.end.0]
    }
}

// Where entries of a block end, and the last one's value.
#[derive(Clone, Copy, Debug, PartialEq, Eq)]
struct BlockEntries {
    next: Position,
    last: Option<Span>,
}

// Where a block's listing ends, and its entries; and the number of these.
#[derive(Clone, Copy, Debug, PartialEq, Eq)]
struct Block {
    listing: Position,
    entries: BlockEntries,
    number: u64,
}

// Where the last block ends, and the number of entries of all.
#[derive(Clone, Copy, Debug, PartialEq, Eq)]
struct Blocks {
    next: Position,
    sum: u64,
}

// The cursor before the first entry, and where the region of bitmaps begins.
#[derive(Clone, Copy, Debug, PartialEq, Eq)]
struct AllEntries {
    first: Cursor,
    region: Position,
}

/// A count of four bytes: one that is cut is SHORT, a negative one DICT, and one above `most` LIMIT.
pub fn count_at(body: &[u8], at: Position, most: u64) -> Result<u64, Refusal>
    requires { at.0 ≤ length body.now }
    ensures { CountAt most body.now at.0 result }
{
    if body.len() - at.0 < NUMBER {
        return Err(Refusal::Short);
    }
    let n = numbers::be::<4>(body, at);
    if numbers::SIGN_BIT <= n {
        return Err(Refusal::Dict);
    }
    if most < n {
        return Err(Refusal::Limit);
    }
    Ok(n)
}

// The version, the row count, the value number and has-null.
fn fixed_fields(body: &[u8]) -> Result<Front, Refusal>
    ensures { FixedOf body.now result }
{
    if body.is_empty() {
        return Err(Refusal::Short);
    }
    let version = Version::try_from(body[0])?;
    let rows = count_at(body, Position(1), refusal::LIMIT)?;
    let values = count_at(body, Position(5), version.most_values())?;
    if body.len() < NULL_AT {
        return Err(Refusal::Short);
    }
    let has = body[HAS_NULL_AT];
    if 1 < has {
        return Err(Refusal::Dict);
    }
    Ok(Front {
        version,
        has_null: has == 1,
        rows,
        values,
    })
}

/// The offset at a position, signed.
pub fn offset_at(body: &[u8], at: Position) -> i32
    requires { at.0 + 4 ≤ length body.now }
    ensures { OffsetAt body.now at.0 result }
{
    numbers::to_signed(numbers::be::<4>(body, at) as u32)
}

/// Null's entry, if it `has` one, and where what follows begins. One that is cut is SHORT. In version 1 its extent is -1, of 32 bits.
pub fn null_entry(
    body: &[u8],
    version: Version,
    has: bool,
    at: Position,
) -> Result<(Option<NullEntry>, Position), Refusal>
    requires { at.0 ≤ length body.now }
    ensures { NullAt (is_two version) has body.now at.0 result }
{
    if !has {
        return Ok((None, at));
    }
    if body.len() - at.0 < NUMBER {
        return Err(Refusal::Short);
    }
    let offset = offset_at(body, at);
    let behind = at.0 + NUMBER;
    match version {
        Version::One => {
            let extent = numbers::MINUS_ONE;
            Ok((Some(NullEntry { offset, extent }), Position(behind)))
        }
        Version::Two => {
            if body.len() - behind < NUMBER {
                return Err(Refusal::Short);
            }
            let extent = numbers::be::<4>(body, Position(behind));
            Ok((
                Some(NullEntry { offset, extent }),
                Position(behind + NUMBER),
            ))
        }
    }
}

/// Where the value of type `t` at `at` ends. One that is cut is SHORT, a broken one DICT.
pub fn value_end(body: &[u8], t: u32, at: Position) -> Result<Position, Refusal>
    ensures { ValueAt t body.now at.0 result }
{
    let n = stored_value::size(body, at, t, Refusal::Short, Refusal::Dict)?;
    Ok(Position(at.0 + n))
}

// Where the value at `at` ends, which was read as sound before: nothing is tested again.
fn known_end(body: &[u8], t: u32, at: Position) -> Position
    requires { StandsAt t body.now at.0 }
    ensures { EndsAt t body.now at.0 result.0 }
{
    Position(at.0 + stored_value::known_size(body, at, t))
}

// Whether one of the n entries of version 1 that stand from `at` on has the value v.
fn has_value(body: &[u8], t: u32, n: u64, at: Position, v: &[u8]) -> bool
    requires { (es : List Entry) × OnesFrom t n (drop at.0 body.now) es }
    ensures { HasValueAt t n body.now at.0 v.now result }
{
    let mut p = at.0;
    for _ in 0..n {
        let to = known_end(body, t, Position(p));
        let e = to.0;
        if numbers::same(v, &body[p..e]) {
            return true;
        }
        p = e + NUMBER;
    }
    false
}

// Version 1: the n entries from `at` on. Their values are distinct: each is looked for among those before it, in a hash table that has these by their
// positions, or, where nothing is `TABLED`, by comparing it with each of them.
fn entries_distinct<const TABLED: bool>(
    body: &[u8],
    t: u32,
    n: u64,
    at: Position,
    table: &mut [u32],
) -> Result<AllEntries, Refusal>
    requires start { at.0 ≤ length body.now }
    requires tabled { IsTrue TABLED → Tabling n body.now table.old }
    ensures { AllEntriesAt false t n body.now at.0 result }
{
    let mut p = at.0;
    for i in 0..n {
        let to = value_end(body, t, Position(p))?;
        let e = to.0;
        let twice = if TABLED {
            hash_table::insert(body, table, i, Position(p), to)
        } else {
            has_value(body, t, i, at, &body[p..e])
        };
        if twice {
            return Err(Refusal::Dict);
        }
        if body.len() - e < NUMBER {
            return Err(Refusal::Short);
        }
        p = e + NUMBER;
    }
    Ok(AllEntries {
        first: Cursor { at, left: n },
        region: Position(p),
    })
}

// Version 1: the n entries from `at` on. A table's positions are of 32 bits: no call lends a longer body, but this function may be lent one.
fn entries_one(body: &[u8], t: u32, n: u64, at: Position) -> Result<AllEntries, Refusal>
    requires { (at.0 ≤ length body.now) × (n ≤ most_values1) }
    ensures { AllEntriesAt false t n body.now at.0 result }
{
    if n <= FEW_VALUES || refusal::LIMIT < body.len() as u64 {
        return entries_distinct::<false>(body, t, n, at, &mut []);
    }
    let mut table = [0u32; TABLE];
    entries_distinct::<true>(body, t, n, at, &mut table)
}

// Version 2: the n listings of the directory from `at` on. Their values and offsets wait for the blocks.
fn directory_end(body: &[u8], t: u32, n: u64, at: Position) -> Result<Position, Refusal>
    requires { at.0 ≤ length body.now }
    ensures { DirectoryAt t n body.now at.0 result }
{
    let mut next = at;
    for _ in 0..n {
        let end = value_end(body, t, next)?;
        if body.len() - end.0 < NUMBER {
            return Err(Refusal::Short);
        }
        next = Position(end.0 + NUMBER);
    }
    Ok(next)
}

// Whether a value is past the one before, if there is one.
#[tactic(auto, unfolding(crate::specs::Reading::past))]
fn is_past(body: &[u8], t: u32, before: Option<Span>, value: Span) -> bool
    requires { SpanIn body.now before × (value.start.0 ≤ value.end.0) × (value.end.0 ≤ length body.now) }
    ensures { result ≡ past t (cell_at body.now before) (bytes_at body.now value) }
{
    match before {
        None => true,
        Some(before) => stored_value::less(t, before.bytes(body), value.bytes(body)),
    }
}

// Whether a value is the one that is due, if one is: a block begins with the value that the directory has for it.
#[tactic(auto, unfolding(crate::specs::Reading::is_value_due))]
fn is_due(body: &[u8], due: Option<Span>, value: Span) -> bool
    requires { SpanIn body.now due × (value.start.0 ≤ value.end.0) × (value.end.0 ≤ length body.now) }
    ensures { result ≡ is_value_due (cell_at body.now due) (bytes_at body.now value) }
{
    match due {
        None => true,
        Some(due) => numbers::same(due.bytes(body), value.bytes(body)),
    }
}

// Version 2: the n entries of a block from `at` on. Values rise strictly, the first from `before`, and the first is `due`, the directory's.
fn block_entries(
    body: &[u8],
    t: u32,
    n: u64,
    at: Position,
    before: Option<Span>,
    due: Option<Span>,
) -> Result<BlockEntries, Refusal>
    requires { (at.0 ≤ length body.now) × SpanIn body.now before × SpanIn body.now due }
    ensures { BlockEntriesAt t n before due body.now at.0 result }
{
    let mut next = at;
    let mut last = before;
    let mut first = due;
    for _ in 0..n {
        let end = value_end(body, t, next)?;
        let value = Span { start: next, end };
        if !is_past(body, t, last, value) {
            return Err(Refusal::Dict);
        }
        if !is_due(body, first, value) {
            return Err(Refusal::Dict);
        }
        if body.len() - end.0 < 2 * NUMBER {
            return Err(Refusal::Short);
        }
        last = Some(value);
        first = None;
        next = Position(end.0 + 2 * NUMBER);
    }
    Ok(BlockEntries { next, last })
}

// Version 2: the block at `at`, whose listing, read before, stands at `listing`. Its offset, which counts from base, is tested before its number is read.
fn one_block(
    body: &[u8],
    t: u32,
    base: Position,
    listing: Position,
    at: Position,
    before: Option<Span>,
) -> Result<Block, Refusal>
    requires { (base.0 ≤ at.0) × (at.0 ≤ length body.now) × SpanIn body.now before × ListingFrom t (drop listing.0 body.now) }
    ensures { BlockAt t before body.now base.0 listing.0 at.0 result }
{
    let end = known_end(body, t, listing);
    let offset = numbers::be::<4>(body, end);
    if offset != (at.0 - base.0) as u64 {
        return Err(Refusal::Dict);
    }
    if body.len() - at.0 < NUMBER {
        return Err(Refusal::Short);
    }
    let number = numbers::be::<4>(body, at);
    if number < 1 {
        return Err(Refusal::Dict);
    }
    if numbers::SIGN_BIT <= number {
        return Err(Refusal::Dict);
    }
    let due = Some(Span {
        start: listing,
        end,
    });
    let entries = block_entries(body, t, number, Position(at.0 + NUMBER), before, due)?;
    Ok(Block {
        listing: Position(end.0 + NUMBER),
        entries,
        number,
    })
}

// Version 2: the b blocks from base on, whose directory, read before, stands at `directory`, without gaps.
fn all_blocks(
    body: &[u8],
    t: u32,
    b: u64,
    directory: Position,
    base: Position,
) -> Result<Blocks, Refusal>
    requires { (base.0 ≤ length body.now) × (b ≤ most_blocks) × ((ds : List Listing) × DirectoryFrom t b (drop directory.0 body.now) ds) }
    ensures { BlocksAt t b body.now directory.0 base.0 result }
{
    let mut listing = directory;
    let mut next = base;
    let mut before = None;
    let mut sum: u64 = 0;
    for _ in 0..b {
        let block = one_block(body, t, base, listing, next, before)?;
        listing = block.listing;
        next = block.entries.next;
        before = block.entries.last;
        sum += block.number;
    }
    Ok(Blocks { next, sum })
}

/// No blocks exactly where there is no value.
pub fn blocks_fit(n: u64, b: u64) -> bool
    ensures { result ≡ cond (eqb n 0) (eqb b 0) (leb 1 b) }
{
    if n == 0 { b == 0 } else { 1 <= b }
}

// Version 2: directory, body offset and blocks. The body offset, then the sum of entry numbers, are tested behind the last block.
fn entries_two(body: &[u8], t: u32, n: u64, at: Position) -> Result<AllEntries, Refusal>
    requires { at.0 ≤ length body.now }
    ensures { AllEntriesAt true t n body.now at.0 result }
{
    let b = count_at(body, at, MOST_BLOCKS)?;
    if !blocks_fit(n, b) {
        return Err(Refusal::Dict);
    }
    let directory = Position(at.0 + NUMBER);
    let end = directory_end(body, t, b, directory)?;
    if body.len() - end.0 < NUMBER {
        return Err(Refusal::Short);
    }
    let offset = numbers::be::<4>(body, end);
    let base = Position(end.0 + NUMBER);
    let blocks = all_blocks(body, t, b, directory, base)?;
    if offset != (blocks.next.0 - base.0) as u64 {
        return Err(Refusal::Dict);
    }
    if blocks.sum != n {
        return Err(Refusal::Dict);
    }
    Ok(AllEntries {
        first: Cursor { at: base, left: 0 },
        region: blocks.next,
    })
}

// The entries of either version.
fn entries(
    body: &[u8],
    t: u32,
    version: Version,
    n: u64,
    at: Position,
) -> Result<AllEntries, Refusal>
    requires { (at.0 ≤ length body.now) × (n ≤ value_limit (is_two version)) }
    ensures { AllEntriesAt (is_two version) t n body.now at.0 result }
{
    match version {
        Version::One => entries_one(body, t, n, at),
        Version::Two => entries_two(body, t, n, at),
    }
}

/// A body's dictionary of either version, as a column of type `t`: an unknown type is LITERAL, then every rule is tested in byte order.
pub fn read(body: &[u8], t: u32) -> Result<Summary, Refusal>
    ensures { ReadsDictionary t body.now result }
{
    if stored_value::TYPES <= t {
        return Err(Refusal::Literal);
    }
    let front = fixed_fields(body)?;
    let (null, at) = null_entry(body, front.version, front.has_null, Position(NULL_AT))?;
    let all = entries(body, t, front.version, front.values, at)?;
    Ok(Summary {
        rows: front.rows,
        values: front.values,
        version: front.version,
        null,
        first: all.first,
        region: all.region,
    })
}

// The extent of the entry whose value ends at `end`.
fn extent_at(body: &[u8], version: Version, end: Position) -> u64
    requires { end.0 + tail (is_two version) ≤ length body.now }
    ensures { result ≡ stored_extent_at (is_two version) end.0 body.now }
{
    match version {
        Version::One => numbers::MINUS_ONE,
        Version::Two => numbers::be::<4>(body, Position(end.0 + NUMBER)),
    }
}

// What `next` answers where no entry stands. No `Option`: what `next` promises of its answer at any cursor (`next_entry`, in `NextAt`) names this value.
fn no_entry() -> EntryAt
    ensures { result ≡ no_entry_there }
{
    EntryAt {
        start: Position(0),
        end: Position(0),
        offset: 0,
        extent: 0,
        next: Cursor {
            at: Position(0),
            left: 0,
        },
    }
}

// The entry at a cursor in a block that is open, itself among those left.
fn entry_at(body: &[u8], t: u32, version: Version, cursor: Cursor) -> EntryAt
    ensures { result ≡ entry_in_block t (is_two version) body.now cursor }
{
    if cursor.left == 0 {
        return no_entry();
    }
    let Ok(end) = value_end(body, t, cursor.at) else {
        return no_entry();
    };
    let w = version.behind_value();
    if body.len() - end.0 < w {
        return no_entry();
    }
    EntryAt {
        start: cursor.at,
        end,
        offset: offset_at(body, end),
        extent: extent_at(body, version, end),
        next: Cursor {
            at: Position(end.0 + w),
            left: cursor.left - 1,
        },
    }
}

/// The entry at a cursor. Where entries stand there, it is the first of them, and the cursor behind it comes with it; where none does, all its fields are 0.
pub fn next(body: &[u8], t: u32, version: Version, cursor: Cursor) -> EntryAt
    ensures { NextAt t (is_two version) body.now cursor result }
{
    if cursor.left == 0 {
        let at = cursor.at;
        if body.len() < at.0 {
            return no_entry();
        }
        if body.len() - at.0 < NUMBER {
            return no_entry();
        }
        let opened = Cursor {
            at: Position(at.0 + NUMBER),
            left: numbers::be::<4>(body, at),
        };
        return entry_at(body, t, version, opened);
    }
    entry_at(body, t, version, cursor)
}
