// Clears in one row field the rows of another; and the record of an answer, which says how many rows it is drawn from.
#![tactic(auto, unfolding(refusal::specs::Reading::check, refusal::specs::Reading::and_then, refusal::specs::Reading::numbers_of, crate::specs::Meaning::keeps, crate::specs::Meaning::said_of, crate::specs::Meaning::skips, crate::specs::Reading::subtraction, crate::specs::Reading::buffer_by, crate::specs::Reading::subtract_out, crate::specs::Reading::record_subtraction, crate::specs::Reading::record_subtract_out))]

ghost use Rattle.std.specs.Prelude.{◌≡◌, ◌-◌, ◌*◌, ◌<◌, ◌≤◌, length, get_or, set};
ghost use Rattle.std.specs.Int.Bits.{bit_and};
ghost use Rattle.row_field.specs.Meaning.{size};
ghost use Rattle.refusal.specs.Reading.{numbers_of};
ghost use Rattle.subtract.specs.Meaning.{subtracted, numbers_of_record, no_record, record_from_numbers, answer_of, said_of, skips};
ghost use Rattle.subtract.specs.Reading.{subtraction, subtract_buffer, subtract_out, subtract_numbers};
ghost use Rattle.subtract.specs.Reading.{record_subtraction, record_subtract_out, record_subtract_numbers};

use numbers::Position;
use refusal::{LIMIT, Refusal};

/// Rows below the row count that are left in the first field, and those that were removed from it.
#[derive(Clone, Copy, Debug, PartialEq, Eq)]
pub struct Counts {
    pub left: u64,
    pub removed: u64,
}

/// What may be claimed of an accepted answer: how many rows the index has, how many of them are null, how many are deleted, and how many match. Deleted is 0
/// until deletions are subtracted.
#[derive(Clone, Copy, Debug, PartialEq, Eq)]
pub struct Record {
    pub rows: u64,
    pub nulls: u64,
    pub deleted: u64,
    pub matched: u64,
}

/// The numbers of a record where there is none.
pub const NO_RECORD: [u64; 4] = [0, 0, 0, 0];

/// A record as four numbers: rows, nulls, deleted, matched.
impl From<Record> for [u64; 4] {
    ghost from_gives = { λ given numbers. numbers ≡ numbers_of_record given };

    fn from(given: Record) -> [u64; 4] {
        [given.rows, given.nulls, given.deleted, given.matched]
    }
}

/// The record that four numbers stand for, in the order in which it gives them.
impl From<[u64; 4]> for Record {
    ghost from_gives = { λ numbers given. given ≡ record_from_numbers numbers };

    fn from(numbers: [u64; 4]) -> Record {
        Record {
            rows: numbers[0],
            nulls: numbers[1],
            deleted: numbers[2],
            matched: numbers[3],
        }
    }
}

/// What is said of an index that a question was asked of: skip what it indexes, where no row matches, else keep it.
#[derive(Clone, Copy, Debug, PartialEq, Eq)]
pub enum Answer {
    Skip(Record),
    Keep(Record),
}

impl Answer {
    /// Skip exactly where no row matches.
    pub fn of(said: Record) -> Answer
        ensures { result ≡ answer_of said }
    {
        if said.matched == 0 {
            Answer::Skip(said)
        } else {
            Answer::Keep(said)
        }
    }

    /// The record that is said either way.
    pub fn record(self) -> Record
        ensures { result ≡ said_of self }
    {
        match self {
            Answer::Skip(said) | Answer::Keep(said) => said,
        }
    }

    /// Whether skip is said.
    pub fn is_skip(self) -> bool
        ensures { result ≡ skips self }
    {
        matches!(self, Answer::Skip(_))
    }
}

/// An answer after a subtraction, and how many rows this removed.
#[derive(Clone, Copy, Debug, PartialEq, Eq)]
pub struct Subtracted {
    pub answer: Answer,
    pub removed: u64,
}

// Clears the bits of one byte that are set in `bits`.
fn clear_bits(field: &mut [u8], at: Position, bits: u8)
    requires { at.0 < length field.old }
    ensures { field.new ≡ set field.old at.0 (bit_and (get_or field.old at.0 0) (255 - bits)) }
{
    field[at.0] &= !bits;
}

// Subtracts the rows of the bytes before `end`.
fn subtract_bytes(first: &mut [u8], second: &[u8], end: Position)
    requires { (end.0 ≤ length first.old) × (end.0 ≤ length second.now) }
    ensures { first.new ≡ subtracted (end.0 * 8) first.old second.now }
{
    for i in 0..end.0 {
        clear_bits(first, Position(i), second[i]);
    }
}

// Subtracts the rows below `rows`: those of whole bytes, then those of the last one's bits that stand for rows.
fn subtract_rows(first: &mut [u8], second: &[u8], rows: u64)
    requires { (size rows ≤ length first.old) × (size rows ≤ length second.now) }
    ensures { first.new ≡ subtracted rows first.old second.now }
{
    let whole = (rows / 8) as usize;
    subtract_bytes(first, second, Position(whole));
    let more = rows % 8;
    if more != 0 {
        let bits = row_field::low_bits(second[whole], more);
        clear_bits(first, Position(whole), bits);
    }
}

/// Clears in the first field each row below `rows` that is set in the second. Refuses a row count above the limit, then a field with fewer bytes than its rows
/// take, and then changes nothing.
pub fn subtract(first: &mut [u8], second: &[u8], rows: u64) -> Result<Counts, Refusal>
    ensures answer { result ≡ subtraction rows first.old second.now }
    ensures buffer { first.new ≡ subtract_buffer rows first.old second.now }
    ensures numbers { subtract_out result ≡ numbers_of (0, 0) subtract_numbers (subtraction rows first.old second.now) }
{
    if LIMIT < rows {
        return Err(Refusal::Limit);
    }
    if !row_field::has_room(first, rows) {
        return Err(Refusal::Room);
    }
    if !row_field::has_room(second, rows) {
        return Err(Refusal::Room);
    }
    // Rows removed are those that were, less those that are left: two counts by words are faster than a count of each byte as it is cleared.
    let before = row_field::count(first, rows);
    subtract_rows(first, second, rows);
    let left = row_field::count(first, rows);
    let removed = before - left;
    Ok(Counts { left, removed })
}

/// Subtracts below a record's row count, and says the record afresh: matched are the rows left in the first field, deleted all rows below the row count that the
/// second has, whether the first had them or not; the rest stays.
pub fn subtract_record(
    first: &mut [u8],
    second: &[u8],
    given: Record,
) -> Result<Subtracted, Refusal>
    ensures answer { result ≡ record_subtraction given first.old second.now }
    ensures buffer { first.new ≡ subtract_buffer given.rows first.old second.now }
    ensures numbers { record_subtract_out result ≡ numbers_of (no_record, 0) record_subtract_numbers (record_subtraction given first.old second.now) }
{
    let counts = subtract(first, second, given.rows)?;
    let said = Record {
        deleted: row_field::count(second, given.rows),
        matched: counts.left,
        ..given
    };
    Ok(Subtracted {
        answer: Answer::of(said),
        removed: counts.removed,
    })
}
