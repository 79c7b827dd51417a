// The bitmap body of one column: Audit, which tests every rule of it, and Ask, which answers a question about the column.
#![tactic(auto)]

ghost use Rattle.std.specs.Prelude.{◌≡◌, IsTrue, List, [], ◌∷◌, ◌++◌, ℕ, ◌≤◌, pos, negsuc, length};
ghost use Rattle.row_field.specs.Meaning.{size, count, mark_all};
ghost use Rattle.stored_value.specs.Meaning.{null, value};
ghost use Rattle.dictionary.specs.Promises.{nulls_of, entry_at};
ghost use Rattle.bitmap_index.specs.Meaning as meaning;
ghost use Rattle.bitmap_index.specs.Names.{name_code, question_of};
ghost use Rattle.bitmap_index.specs.Reading.{extent_said, entry_placed, rows_for};
ghost use Rattle.bitmap_index.specs.Promises.{AuditPromise, AskPromise, ForEntries, ForDictionary, Prepares, Ready, Asked, TestsQuestion, TypesQuestion};
ghost use Rattle.bitmap_index.specs.Promises.{Places, PlacesNull, PlacesValues, Sets, SetsValues, AuditsZero, AuditsQuick, AuditsField};
ghost use Rattle.bitmap_index.specs.Promises.{SoundAt, SoundEntryAt, SoundNull, AllSound, MarksChosen, MarksAsked};
ghost use Rattle.bitmap_index.specs.Promises.{FindsListed, SomeLookup, ForLookup};
ghost use Rattle.bitmap_index.specs.Promises.{AuditAccepts, AnswersZero};

use dictionary::{EntryAt, Summary};
use numbers::{Position, Row};
use refusal::Refusal;
use roaring::Extent;
use subtract::{Answer, Record};

/// The name of the question which rows have the one literal.
pub const EQUAL: u32 = 0;

/// Which have another value.
pub const NOT_EQUAL: u32 = 1;

/// Which have one of the literals, of which there may be any number.
pub const IN: u32 = 2;

/// Which have none of them.
pub const NOT_IN: u32 = 3;

/// Which are null. It takes no literals.
pub const IS_NULL: u32 = 4;

/// Which have a value. It takes no literals.
pub const IS_NOT_NULL: u32 = 5;

/// The edition in which NOT EQUAL and NOT IN choose null rows too.
pub const FIRST_EDITION: u32 = 1;

/// The edition in which they don't.
pub const SECOND_EDITION: u32 = 2;

// The numbers of a hash table with room for as many literals as there may be.
const TABLE: usize = hash_table::CHAINS
    + hash_table::NUMBERS * stored_value::MOST_LITERALS as usize;

// Up to so many bytes of literals and so many values, IN and NOT IN compare each value with each literal: clearing a table would take longer.
const FEW_LITERAL_BYTES: usize = 256;

const FEW_VALUES: u64 = 4;

// So they do with up to so many values, whatever the literals: entering these takes longer than comparing each value with them.
const VERY_FEW_VALUES: u64 = 2;

// The number of null's entry, and that of the first value's.
const NULL_NUMBER: u64 = 0;

const FIRST_NUMBER: u64 = 1;

/// Null's rows are counted as ones in the field when they are placed: Ask answers how many they are, and counts what it answers.
pub const COUNT_NULLS: bool = true;

/// Null's rows are those that its bitmap says it has: Audit doesn't answer how many they are.
pub const SUM_NULLS: bool = false;

/// What is asked, by the numbers of the edition and of the name. The literals are lent beside it.
#[derive(Clone, Copy, Debug, PartialEq, Eq)]
pub struct Question {
    pub edition: u32,
    pub name: u32,
}

// The editions of questions, by number.
#[derive(Clone, Copy, Debug, PartialEq, Eq)]
enum Edition {
    First,
    Second,
}

impl TryFrom<u32> for Edition {
    type Error = Refusal;

    ghost use Rattle.bitmap_index.specs.Names.{DecodesEdition};

    ghost try_from_gives = { DecodesEdition };

    #[tactic(auto, unfolding(crate::specs::Meaning::is_known_edition))]
    fn try_from(number: u32) -> Result<Self, Refusal> {
        match number {
            FIRST_EDITION => Ok(Edition::First),
            SECOND_EDITION => Ok(Edition::Second),
            _ => Err(Refusal::Literal),
        }
    }
}

// The names of questions, by number.
#[derive(Clone, Copy, Debug, PartialEq, Eq)]
enum Name {
    Equal,
    NotEqual,
    In,
    NotIn,
    IsNull,
    IsNotNull,
}

impl TryFrom<u32> for Name {
    type Error = Refusal;

    ghost use Rattle.bitmap_index.specs.Names.{DecodesName};

    ghost try_from_gives = { DecodesName };

    fn try_from(number: u32) -> Result<Self, Refusal> {
        match number {
            EQUAL => Ok(Name::Equal),
            NOT_EQUAL => Ok(Name::NotEqual),
            IN => Ok(Name::In),
            NOT_IN => Ok(Name::NotIn),
            IS_NULL => Ok(Name::IsNull),
            IS_NOT_NULL => Ok(Name::IsNotNull),
            _ => Err(Refusal::Literal),
        }
    }
}

impl Name {
    // Whether a question of this name takes so many literals.
    #[tactic(auto, unfolding(crate::specs::Meaning::takes))]
    fn takes(self, count: u64) -> bool
        ensures { result ≡ meaning.takes (name_code self) count }
    {
        match self {
            Name::Equal | Name::NotEqual => count == 1,
            Name::In | Name::NotIn => true,
            Name::IsNull | Name::IsNotNull => count == 0,
        }
    }
}

// A question whose numbers are an edition's and a name's.
#[derive(Clone, Copy, Debug, PartialEq, Eq)]
struct TypedQuestion {
    edition: Edition,
    name: Name,
}

impl TypedQuestion {
    // Whether the question chooses null: IS NULL does, NOT EQUAL and NOT IN do in the first edition alone.
    #[tactic(auto, unfolding(crate::specs::Meaning::chosen))]
    fn chooses_null(self) -> bool
        ensures { (ls : List (List ℕ)) → result ≡ meaning.chosen (question_of self) ls null }
    {
        match self.name {
            Name::NotEqual | Name::NotIn => self.edition == Edition::First,
            Name::IsNull => true,
            _ => false,
        }
    }
}

// Where an entry says its rows are: a single row, or a bitmap at a position of the region of bitmaps.
#[derive(Clone, Copy, Debug, PartialEq, Eq)]
enum Place {
    Single(Row),
    Bitmap(Position),
}

impl From<i32> for Place {
    ghost use Rattle.bitmap_index.specs.Promises.{place_of};

    ghost from_gives = { λ offset place. place ≡ place_of offset };

    // A negative offset stands for the single row -1 - offset.
    #[inline]
    fn from(offset: i32) -> Self {
        if offset < 0 {
            return Place::Single(Row((-1 - offset) as u64));
        }
        Place::Bitmap(Position(offset as usize))
    }
}

// Places the single row of an entry in a field for `rows` rows: RANGE and, with `TELL`, TWICE.
fn place_row<const TELL: bool>(
    field: &mut [u8],
    row: Row,
    rows: u64,
    entry: u64,
) -> Result<u64, Refusal>
    requires { size rows ≤ length field.old }
    ensures placed { IsTrue TELL → Places rows (entry_placed entry (negsuc row.0) 0 rows []) field.old field.new result }
    ensures set { Sets rows (entry_placed entry (negsuc row.0) 0 rows []) field.old field.new result }
{
    if rows <= row.0 {
        return Err(Refusal::Range { entry });
    }
    let seen = row_field::mark(field, row);
    if TELL && seen {
        return Err(Refusal::Twice { entry });
    }
    Ok(1)
}

// How long a bitmap must be: -1 says as long as it is.
fn extent_of(extent: u64) -> Extent
    ensures { result ≡ extent_said extent }
{
    if extent == numbers::MINUS_ONE {
        return Extent::AsLong;
    }
    Extent::Exactly(extent as usize)
}

// Places the rows of an entry's bitmap, at a position of the region of bitmaps: BITMAP, RANGE and, with `TELL`, TWICE. The field is not touched before the
// bitmap is measured. A place behind the region is the fault of container 0.
fn place_bitmap<const TELL: bool>(
    field: &mut [u8],
    region: &[u8],
    at: Position,
    extent: u64,
    rows: u64,
    entry: u64,
) -> Result<u64, Refusal>
    requires { size rows ≤ length field.old }
    ensures placed { IsTrue TELL → Places rows (entry_placed entry (pos at.0) extent rows region.now) field.old field.new result }
    ensures set { Sets rows (entry_placed entry (pos at.0) extent rows region.now) field.old field.new result }
{
    if region.len() < at.0 {
        return Err(Refusal::Bitmap {
            entry,
            container: 0,
        });
    }
    let bytes = &region[at.0..];
    let shape = roaring::measure(bytes, extent_of(extent)).map_err(|broken| Refusal::Bitmap {
        entry,
        container: broken.container,
    })?;
    if rows < shape.end {
        return Err(Refusal::Range { entry });
    }
    if !TELL {
        roaring_mark::set(field, bytes, rows);
        return Ok(shape.rows);
    }
    if roaring_mark::mark(field, bytes, rows) {
        return Err(Refusal::Twice { entry });
    }
    Ok(shape.rows)
}

/// Places an entry's rows in a field for `rows` rows, and says how many they are: BITMAP, RANGE and, with `TELL`, TWICE. Without, a row that was set already is
/// counted again. The extent of a single row isn't looked at.
pub fn place_at<const TELL: bool>(
    field: &mut [u8],
    region: &[u8],
    offset: i32,
    extent: u64,
    rows: u64,
    entry: u64,
) -> Result<u64, Refusal>
    requires { size rows ≤ length field.old }
    ensures placed { IsTrue TELL → Places rows (entry_placed entry offset extent rows region.now) field.old field.new result }
    ensures set { Sets rows (entry_placed entry offset extent rows region.now) field.old field.new result }
{
    match Place::from(offset) {
        Place::Single(row) => place_row::<TELL>(field, row, rows, entry),
        Place::Bitmap(at) => place_bitmap::<TELL>(field, region, at, extent, rows, entry),
    }
}

/// Places null's rows, if it has an entry, in a field that is clear, and says how many they are: if `counted` by the ones in the field, else by what the bitmap
/// says of itself.
pub fn place_null(
    field: &mut [u8],
    body: &[u8],
    summary: Summary,
    counted: bool,
) -> Result<u64, Refusal>
    requires { (summary.region.0 ≤ length body.now) × (size summary.rows ≤ length field.old) × (count field.old summary.rows ≡ 0) }
    ensures { PlacesNull body.now summary field.old field.new result }
{
    let Some(null) = summary.null else {
        return Ok(0);
    };
    let region = summary.region.0;
    let placed = place_at::<true>(
        field,
        &body[region..],
        null.offset,
        null.extent,
        summary.rows,
        NULL_NUMBER,
    )?;
    if !counted {
        return Ok(placed);
    }
    Ok(row_field::count(field, summary.rows))
}

// Here and below `body`, `summary` and `t` stay three parameters: that the summary is the body's names its entries and so is no proposition, which a ghost field of
// a struct must be (tried), and without it the struct would only make each clause name its parts.

// Places the rows of the values' entries, in their order, and adds up how many they are. They are numbered from 1, with and without a null. Where they are more
// than there are rows, one is among them twice.
fn place_values<const TELL: bool>(
    field: &mut [u8],
    body: &[u8],
    summary: Summary,
    t: u32,
) -> Result<u64, Refusal>
    requires { Ready t body.now summary field.old }
    ensures placed { IsTrue TELL → PlacesValues t body.now summary field.old field.new result }
    ensures set { SetsValues t body.now summary field.old field.new result }
{
    let region = summary.region.0;
    let mut cursor = summary.first;
    let mut sum: u64 = 0;
    for i in 0..summary.values {
        let next = dictionary::next(body, t, summary.version, cursor);
        let entry = i + FIRST_NUMBER;
        let placed = place_at::<TELL>(
            field,
            &body[region..],
            next.offset,
            next.extent,
            summary.rows,
            entry,
        )?;
        if summary.rows - sum < placed {
            return Err(Refusal::Twice { entry });
        }
        sum += placed;
        cursor = next.next;
    }
    Ok(sum)
}

// Audits the bitmaps of a dictionary in a field that is clear, and says how many rows null has: null's rows are placed, then the values' in their order. With
// `TELL` none is placed twice, so none is missing exactly if the values have as many rows as null leaves. Without, nothing is known where it refuses; where the
// rows are as many as there are, and all rows are set then, none was set twice and none is missing.
fn audit_clear<const TELL: bool>(
    field: &mut [u8],
    body: &[u8],
    summary: Summary,
    t: u32,
    counted: bool,
) -> Result<u64, Refusal>
    requires { Ready t body.now summary field.old × (count field.old summary.rows ≡ 0) }
    ensures told { IsTrue TELL → ForDictionary t body.now summary (λ d. AuditsZero d field.old field.new result) }
    ensures quick { ForDictionary t body.now summary (λ d. AuditsQuick d field.old field.new result) }
{
    let rows = summary.rows;
    let nulls = place_null(field, body, summary, counted)?;
    let left = rows - nulls;
    let others = place_values::<TELL>(field, body, summary, t)?;
    if !TELL {
        if others != left || !row_field::all_set(field, rows) {
            // nothing is known where it refuses, so any refusal will do, and no pass over the field looks for the row
            return Err(Refusal::Missing { row: Row(rows) });
        }
        return Ok(nulls);
    }
    if others != left {
        return Err(Refusal::Missing {
            row: row_field::first_clear(field, rows),
        });
    }
    Ok(nulls)
}

/// Audits the bitmaps of a dictionary in a field that has room, leaves the field zero, and says how many rows null has, by `place_null`. Most bodies are sound,
/// and the whole tells it; only where it doesn't, every row is tested, to find the refusal.
pub fn audit_field(
    field: &mut [u8],
    body: &[u8],
    summary: Summary,
    t: u32,
    counted: bool,
) -> Result<u64, Refusal>
    requires { Ready t body.now summary field.old }
    ensures { ForDictionary t body.now summary (λ d. AuditsField d field.old field.new result) }
{
    let rows = summary.rows;
    row_field::clear(field, rows);
    let quick = audit_clear::<false>(field, body, summary, t, counted);
    row_field::clear(field, rows);
    if let Ok(nulls) = quick {
        return Ok(nulls);
    }
    let told = audit_clear::<true>(field, body, summary, t, counted);
    row_field::clear(field, rows);
    told
}

/// The limit, the dictionary, which tests the type first, and ROOM: all that comes before a byte of the field is written.
pub fn prepare(body: &[u8], t: u32, field: &[u8]) -> Result<Summary, Refusal>
    ensures { Prepares t body.now field.now result }
{
    if refusal::LIMIT < body.len() as u64 {
        return Err(Refusal::Limit);
    }
    let summary = dictionary::read(body, t)?;
    if !row_field::has_room(field, summary.rows) {
        return Err(Refusal::Room);
    }
    Ok(summary)
}

/// Audit: every rule of the body as a column of type t, in a field with room for its rows; the row count. A refusal up to and at ROOM leaves the buffer as it
/// was, and any other answer the field zero.
pub fn audit(body: &[u8], t: u32, field: &mut [u8]) -> Result<u64, Refusal>
    ensures { AuditPromise t body.now field.old field.new result }
{
    let summary = prepare(body, t, field)?;
    audit_field(field, body, summary, t, SUM_NULLS)?;
    Ok(summary.rows)
}

// The limits, the type, the edition and the name, then the literals and their number.
#[tactic(auto, unfolding(crate::specs::Reading::well_formed, refusal::specs::Reading::check, refusal::specs::Reading::and_then))]
fn typed_question(
    body: &[u8],
    t: u32,
    question: Question,
    literals: &[u8],
) -> Result<TypedQuestion, Refusal>
    ensures { TypesQuestion t question literals.now body.now result }
{
    if refusal::LIMIT < body.len() as u64 {
        return Err(Refusal::Limit);
    }
    if refusal::LIMIT < literals.len() as u64 {
        return Err(Refusal::Limit);
    }
    if stored_value::TYPES <= t {
        return Err(Refusal::Literal);
    }
    let edition = Edition::try_from(question.edition)?;
    let name = Name::try_from(question.name)?;
    let count = stored_value::literals(literals, t)?;
    if !name.takes(count) {
        return Err(Refusal::Literal);
    }
    Ok(TypedQuestion { edition, name })
}

/// The tests of a question: the limits, the type, the edition and the name, then the literals and their number.
pub fn test_question(
    body: &[u8],
    t: u32,
    question: Question,
    literals: &[u8],
) -> Result<(), Refusal>
    ensures { TestsQuestion t question literals.now body.now result }
{
    typed_question(body, t, question, literals)?;
    Ok(())
}

// What values are looked up by: a question, its literals of type t, and a table that holds these, or none to compare each.
#[derive(Clone, Copy)]
struct Sought<'l, 't> {
    question: TypedQuestion,
    t: u32,
    literals: &'l [u8],
    table: Option<&'t [u32]>,
}

impl Sought<'_, '_> {
    // Whether a value is one of the literals.
    #[inline]
    fn lists(&self, v: &[u8]) -> bool
        requires { SomeLookup self.now }
        ensures { FindsListed self.now v.now result }
    {
        match self.table {
            Some(table) => hash_table::find(self.literals, table, v),
            None => stored_value::listed(self.literals, self.t, v),
        }
    }

    // Whether the question chooses a value, which is the same in both editions. The one literal of EQUAL and NOT EQUAL is all of the literals' bytes.
    #[inline]
    fn chooses(&self, v: &[u8]) -> bool
        requires { SomeLookup self.now }
        ensures { ForLookup self.now (λ ls. result ≡ meaning.chosen (question_of self.now.question) ls (value v.now)) }
    {
        match self.question.name {
            Name::Equal => numbers::same(v, self.literals),
            Name::NotEqual => !numbers::same(v, self.literals),
            Name::In => self.lists(v),
            Name::NotIn => !self.lists(v),
            Name::IsNull => false,
            Name::IsNotNull => true,
        }
    }
}

// Marks the rows of an entry that an audit has placed: the single row -1 - offset, or those of the bitmap at its place, which isn't measured again.
fn mark_at(field: &mut [u8], region: &[u8], offset: i32, rows: u64)
    requires { SoundAt rows region.now offset }
    ensures { field.new ≡ mark_all field.old (rows_for offset region.now) }
{
    match Place::from(offset) {
        Place::Single(row) => {
            let _ = row_field::mark(field, row);
        }
        Place::Bitmap(at) => roaring_mark::set(field, &region[at.0..], rows),
    }
}

// Marks the rows of an entry, if the question chooses its value.
fn mark_entry(
    field: &mut [u8],
    body: &[u8],
    summary: Summary,
    entry: EntryAt,
    sought: &Sought<'_, '_>,
)
    requires { SoundEntryAt body.now summary entry × SomeLookup sought.now }
    ensures { ForLookup sought.now (λ ls. MarksChosen body.now summary (question_of sought.now.question) ls (entry_at body.now entry ∷ []) field.old field.new) }
{
    let start = entry.start.0;
    let end = entry.end.0;
    if !sought.chooses(&body[start..end]) {
        return;
    }
    let region = summary.region.0;
    mark_at(field, &body[region..], entry.offset, summary.rows);
}

// Marks null's rows, if it has an entry and the question chooses it.
fn mark_null(field: &mut [u8], body: &[u8], summary: Summary, question: TypedQuestion)
    requires { SoundNull body.now summary }
    ensures { (ls : List (List ℕ))
        → MarksChosen body.now summary (question_of question) ls (nulls_of summary) field.old field.new }
{
    let Some(null) = summary.null else {
        return;
    };
    if !question.chooses_null() {
        return;
    }
    let region = summary.region.0;
    mark_at(field, &body[region..], null.offset, summary.rows);
}

// Marks the rows of the chosen values' entries, in their order.
fn mark_values(field: &mut [u8], body: &[u8], summary: Summary, sought: &Sought<'_, '_>)
    requires { AllSound sought.now.t body.now summary × SomeLookup sought.now }
    ensures { ForEntries sought.now.t body.now summary (λ es. ForLookup sought.now
        (λ ls. MarksChosen body.now summary (question_of sought.now.question) ls es field.old field.new)) }
{
    let mut cursor = summary.first;
    for _ in 0..summary.values {
        let entry = dictionary::next(body, sought.t, summary.version, cursor);
        mark_entry(field, body, summary, entry, sought);
        cursor = entry.next;
    }
}

// Marks the rows of the chosen entries: null's, then the values'.
fn mark_chosen(field: &mut [u8], body: &[u8], summary: Summary, sought: &Sought<'_, '_>)
    requires { AllSound sought.now.t body.now summary × SomeLookup sought.now }
    ensures { ForEntries sought.now.t body.now summary (λ es. ForLookup sought.now
        (λ ls. MarksChosen body.now summary (question_of sought.now.question) ls (nulls_of summary ++ es) field.old field.new)) }
{
    mark_null(field, body, summary, sought.question);
    mark_values(field, body, summary, sought);
}

// The same by a hash table: the literals are entered there once, and each value is looked up.
fn mark_listed(
    field: &mut [u8],
    body: &[u8],
    summary: Summary,
    t: u32,
    question: TypedQuestion,
    literals: &[u8],
)
    requires { AllSound t body.now summary × Asked t (question_of question) literals.now body.now }
    ensures { MarksAsked t body.now summary (question_of question) literals.now field.old field.new }
{
    let mut table = [0u32; TABLE];
    stored_value::enter(literals, t, &mut table);
    let table = Some(&table[..]);
    let sought = Sought {
        question,
        t,
        literals,
        table,
    };
    mark_chosen(field, body, summary, &sought);
}

// Whether values are very few, or both values and literals few.
fn few(summary: Summary, literals: &[u8]) -> bool {
    if summary.values <= VERY_FEW_VALUES {
        return true;
    }
    if FEW_VALUES < summary.values {
        return false;
    }
    literals.len() <= FEW_LITERAL_BYTES
}

// Whether the question is worth a table: IN and NOT IN are, unless it is about `few`. The answer is the same with and without one.
fn worth_table(summary: Summary, name: Name, literals: &[u8]) -> bool {
    match name {
        Name::In | Name::NotIn => !few(summary, literals),
        _ => false,
    }
}

// The same for any question, with a table where it is worth one.
fn mark_asked(
    field: &mut [u8],
    body: &[u8],
    summary: Summary,
    t: u32,
    question: TypedQuestion,
    literals: &[u8],
)
    requires { AllSound t body.now summary × Asked t (question_of question) literals.now body.now }
    ensures { MarksAsked t body.now summary (question_of question) literals.now field.old field.new }
{
    if worth_table(summary, question.name, literals) {
        mark_listed(field, body, summary, t, question, literals);
        return;
    }
    let sought = Sought {
        question,
        t,
        literals,
        table: None,
    };
    mark_chosen(field, body, summary, &sought);
}

// Marks the rows of each chosen entry in a field that is clear and was audited in, and counts them. The audit has counted null's.
fn answer_zero(
    field: &mut [u8],
    body: &[u8],
    summary: Summary,
    t: u32,
    question: TypedQuestion,
    literals: &[u8],
    nulls: u64,
) -> Answer
    requires { AuditAccepts t body.now summary field.old nulls × Asked t (question_of question) literals.now body.now }
    ensures { ForDictionary t body.now summary
        (λ d. AnswersZero t (question_of question) literals.now body.now d field.old field.new result) }
{
    mark_asked(field, body, summary, t, question, literals);
    let rows = summary.rows;
    let matched = row_field::count(field, rows);
    Answer::of(Record {
        rows,
        nulls,
        deleted: 0,
        matched,
    })
}

/// Ask: tests the question and its literals, audits the whole body, then says skip where no row is chosen, and else keep, with the record of its answer. The rows
/// are then set in the field, and no others; a refusal leaves the buffer as Audit's does.
pub fn ask(
    body: &[u8],
    t: u32,
    question: Question,
    literals: &[u8],
    field: &mut [u8],
) -> Result<Answer, Refusal>
    ensures { AskPromise t question literals.now body.now field.old field.new result }
{
    let question = typed_question(body, t, question, literals)?;
    let summary = prepare(body, t, field)?;
    let nulls = audit_field(field, body, summary, t, COUNT_NULLS)?;
    Ok(answer_zero(field, body, summary, t, question, literals, nulls))
}
