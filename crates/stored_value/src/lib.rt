// Values in the stored form of their type: their size, their order, and literals.
#![tactic(auto)]

ghost use Rattle.std.specs.Prelude.{◌≡◌, ◌+◌, ◌^◌, ◌<◌, ◌≤◌, ◌⊎◌, cond, [], get_or, drop, length, slice_range};
ghost use Rattle.numbers.specs.Meaning.{be_at};
ghost use Rattle.std.specs.Int.{w64};
ghost use Rattle.std.proofs.Common.{SFits};
ghost use Rattle.stored_value.specs.Meaning.{width, signed_number, is_less_bytewise, most_literals};
ghost use Rattle.stored_value.specs.Meaning as meaning;
ghost use Rattle.refusal.specs.Reading.{numbers_of};
ghost use Rattle.stored_value.specs.Promises.{Stands, Takes, size_out, size_numbers, counted, count_out, count_numbers};
ghost use Rattle.stored_value.specs.Promises.{Standing, Accepted, Lists, Enterable, Enters};
ghost use Rattle.stored_value.specs.Reading.{value_size};
ghost use Rattle.stored_value.specs.Reading as reading;

use numbers::Position;
use refusal::Refusal;
use std::fmt;

/// From here on a type is unknown.
pub const TYPES: u32 = 12;

/// How many literals there may be.
pub const MOST_LITERALS: u64 = 1_024;

// Before a string's bytes stands their number, of so many bytes: two halves. The longest string has 65,535 bytes, the most that the lower half holds.
const LENGTH: usize = 4;

const HALF_LENGTH: usize = 2;

// The least upper half whose top bit is set, the length's sign.
const HALF_SIGN: u64 = 32_768;

// The type whose byte is 0 or 1.
const BOOLEAN: u32 = 1;

// The width of each of the twelve types: TINYINT, BOOLEAN, SMALLINT, INT, DATE, TIME, BIGINT, TIMESTAMP, LOCAL ZONED TIMESTAMP, CHAR, VARCHAR, STRING;
// 0 stands for a string, a 4-byte length and the bytes. Stored values and literals go by it.
const WIDTHS: [u8; 12] = [1, 1, 2, 4, 4, 4, 8, 8, 8, 0, 0, 0];

// The greatest numbers that 0 to 8 bytes spell.
const LASTS: [u64; 9] = [
    0,
    255,
    65_535,
    16_777_215,
    4_294_967_295,
    1_099_511_627_775,
    281_474_976_710_655,
    72_057_594_037_927_935,
    18_446_744_073_709_551_615,
];

// The width of a type's values: 0 of a string's, and of an unknown type.
fn width_of(t: u32) -> usize
    ensures { (result ≡ width t) × (result ≤ 8) }
{
    if t < TYPES {
        return usize::from(WIDTHS[t as usize]);
    }
    0
}

/// How many bytes the value of type `t` at `at` takes. An unknown type is LITERAL; bytes that end before the value does are `short`, a negative length and
/// a BOOLEAN above 1 are `broken`, and a string of more than 65,535 bytes is LIMIT, also where its bytes are cut: its length is tested before its bytes.
#[inline]
pub fn size(
    s: &[u8],
    at: Position,
    t: u32,
    short: Refusal,
    broken: Refusal,
) -> Result<usize, Refusal>
    ensures answer { result ≡ value_size short broken t (drop at.0 s.now) }
    ensures numbers { size_out result ≡ numbers_of 0 size_numbers (value_size short broken t (drop at.0 s.now)) }
{
    if TYPES <= t {
        return Err(Refusal::Literal);
    }
    if s.len() < at.0 {
        return Err(short);
    }
    let left = s.len() - at.0;
    let w = width_of(t);
    if w == 0 {
        if left < LENGTH {
            return Err(short);
        }
        // In a string that is accepted the upper half is 0, so where the next value begins waits for the lower half alone.
        let high = numbers::be::<2>(s, at);
        if 0 < high {
            if HALF_SIGN <= high {
                return Err(broken);
            }
            return Err(Refusal::Limit);
        }
        let n = numbers::be::<2>(s, Position(at.0 + HALF_LENGTH));
        if ((left - LENGTH) as u64) < n {
            return Err(short);
        }
        return Ok(LENGTH + n as usize);
    }
    if left < w {
        return Err(short);
    }
    if t == BOOLEAN && 1 < s[at.0] {
        return Err(broken);
    }
    Ok(w)
}

/// The size of a value that is known to stand at `at`: nothing is tested again.
#[inline]
pub fn known_size(s: &[u8], at: Position, t: u32) -> usize
    requires { Stands t (drop at.0 s.now) }
    ensures { Takes t (drop at.0 s.now) result }
{
    let w = width_of(t);
    if w == 0 {
        let n = numbers::be::<4>(s, at);
        return LENGTH + n as usize;
    }
    w
}

// The number that the first w bytes spell; one that is missing counts as 0.
fn spelled_short(s: &[u8], w: usize) -> u64
    requires { w ≤ 8 }
    ensures { (result ≡ be_at w s.now 0) × (result < 256 ^ w) }
{
    let mut x: u64 = 0;
    for i in 0..w {
        x = x * 256 + u64::from(s.get(i).copied().unwrap_or(0));
    }
    x
}

// The same, at once where the bytes are there: values that were accepted have them.
fn spelled(s: &[u8], w: usize) -> u64
    requires { w ≤ 8 }
    ensures { (result ≡ be_at w s.now 0) × (result < 256 ^ w) }
{
    if s.len() < w {
        return spelled_short(s, w);
    }
    match w {
        8 => numbers::be::<8>(s, Position(0)),
        4 => numbers::be::<4>(s, Position(0)),
        2 => numbers::be::<2>(s, Position(0)),
        _ => spelled_short(s, w),
    }
}

// The greatest number that w bytes spell.
fn last_of(w: usize) -> u64
    requires { w ≤ 8 }
    ensures { result + 1 ≡ 256 ^ w }
{
    LASTS[w]
}

// The signed number that the first w bytes hold, in two's complement. They spell x, and `last` is the greatest number that w bytes spell: up to its
// half x is itself, and above it -1 less what x lacks to `last`, which does not overflow at the least value either.
// One rule for every width: casts would be an arm for each of the four.
fn signed(s: &[u8], w: usize) -> i64
    requires { (0 < w) × (w ≤ 8) }
    ensures { (result ≡ signed_number w s.now) × SFits w64 result }
{
    let x = spelled(s, w);
    let last = last_of(w);
    if x <= last / 2 {
        return x as i64;
    }
    -1 - ((last - x) as i64)
}

// Whether a comes before b: by unsigned bytes, a prefix first. A loop, since slices' own `<` was seen to take more than twice the time of one.
fn bytes_less(a: &[u8], b: &[u8]) -> bool
    ensures { result ≡ is_less_bytewise a.now b.now }
{
    for i in 0..a.len().min(b.len()) {
        if a[i] != b[i] {
            return a[i] < b[i];
        }
    }
    a.len() < b.len()
}

/// Whether a comes before b among the values of type t: numbers signed, strings by unsigned bytes, a prefix first. Of an unknown type nothing does.
pub fn less(t: u32, a: &[u8], b: &[u8]) -> bool
    ensures { result ≡ meaning.less t a.now b.now }
{
    if TYPES <= t {
        return false;
    }
    let w = width_of(t);
    if w == 0 {
        return bytes_less(&a[LENGTH.min(a.len())..], &b[LENGTH.min(b.len())..]);
    }
    signed(a, w) < signed(b, w)
}

/// How many literals of type `t` stand in `s`, one after another to its end. One that is cut or broken is LITERAL, and a byte behind the 1,024th LIMIT.
pub fn literals(s: &[u8], t: u32) -> Result<u64, Refusal>
    ensures answer { result ≡ counted (reading.literals t most_literals [] s.now) }
    ensures numbers { count_out result ≡ numbers_of 0 count_numbers (reading.literals t most_literals [] s.now) }
{
    // No `for`: where the next literal begins is known from the size of this one, which may be refused.
    let mut count: u64 = 0;
    let mut at = 0;
    while at < s.len() {
        if count == MOST_LITERALS {
            return Err(Refusal::Limit);
        }
        at += size(s, Position(at), t, Refusal::Literal, Refusal::Literal)?;
        count += 1;
    }
    Ok(count)
}

// Where a literal stands.
#[derive(Clone, Copy, Debug, PartialEq, Eq)]
struct Place {
    start: Position,
    end: Position,
}

// The literals of type t that stand in `bytes` from `at` to the end, which were accepted.
#[derive(Clone, Copy, Debug)]
struct LiteralPlaces<'a> {
    bytes: &'a [u8],
    t: u32,
    at: Position,
    ghost stand: { Standing t at.0 bytes.now },
}

impl Iterator for LiteralPlaces<'_> {
    type Item = Place;

    ghost use Rattle.std.specs.Iterator.{YieldsFirst, item_count};
    ghost use Rattle.stored_value.specs.Places.{places_left};

    ghost next_gives = { YieldsFirst places_left };

    ghost remaining = { item_count places_left };

    #[inline]
    fn next(&mut self) -> Option<Place> {
        if self.bytes.len() <= self.at.0 {
            return None;
        }
        let start = self.at;
        let end = Position(start.0 + known_size(self.bytes, start, self.t));
        self.at = end;
        Some(Place { start, end })
    }
}

/// Whether v is one of the literals of type t, which were accepted: it is compared with each. For few values that takes less time than a hash table.
pub fn listed(literals: &[u8], t: u32, v: &[u8]) -> bool
    requires { Accepted t literals.now }
    ensures { Lists t literals.now v.now result }
{
    let all = LiteralPlaces {
        bytes: literals,
        t,
        at: Position(0),
    };
    for literal in all {
        if numbers::same(v, &literals[literal.start.0..literal.end.0]) {
            return true;
        }
    }
    false
}

/// Enters literals of type t that were accepted in a hash table over them, each once.
pub fn enter(literals: &[u8], t: u32, table: &mut [u32])
    requires { Enterable t literals.now table.old }
    ensures { Enters t literals.now table.new }
{
    let all = LiteralPlaces {
        bytes: literals,
        t,
        at: Position(0),
    };
    let mut n: u64 = 0;
    for literal in all {
        if !hash_table::insert(literals, table, n, literal.start, literal.end) {
            n += 1;
        }
    }
}
