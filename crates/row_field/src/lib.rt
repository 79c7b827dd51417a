// Row fields: the field for n rows is the first ceil(n/8) bytes of a lent buffer, row r the bit of weight 2^(r mod 8) in byte r/8.
#![tactic(auto)]

ghost use Rattle.std.specs.Prelude.{◌≡◌, ℕ, ◌+◌, ◌-◌, ◌*◌, ◌/◌, ◌%◌, ◌^◌, ◌<◌, ◌≤◌, true, not, leb, eqb, length, IsTrue};
ghost use Rattle.std.specs.List.{position};
ghost use Rattle.row_field.specs.Meaning.{size, bit, mark_all, any_set, cleared, up_to, rows_of, first_clear_row};
ghost use Rattle.row_field.specs.Meaning as meaning;
ghost use Rattle.row_field.specs.Promises.{any_seen, byte_rows, MarkedRows, MarkedInTurn};

use numbers::{Position, Row};

/// How many bytes the field for `rows` rows takes.
pub fn bytes_for(rows: u64) -> u64
    ensures { result ≡ size rows }
{
    rows.div_ceil(8)
}

/// Whether a buffer has room for the field of `rows` rows.
pub fn has_room(buffer: &[u8], rows: u64) -> bool
    ensures { result ≡ leb (size rows) (length buffer.now) }
{
    bytes_for(rows) <= buffer.len() as u64
}

/// Zeroes the field for `rows` rows at the front of a buffer, as far as it goes. Bytes behind it stay.
pub fn clear(buffer: &mut [u8], rows: u64)
    ensures { buffer.new ≡ cleared rows buffer.old }
{
    let end = bytes_for(rows).min(buffer.len() as u64) as usize;
    buffer[..end].fill(0);
}

/// Whether the bit of this number is set. One past the end is not.
pub fn bit_at(bytes: &[u8], number: u64) -> bool
    ensures { result ≡ bit bytes.now number }
{
    let at = (number / 8) as usize;
    if at < bytes.len() {
        return bytes[at] & (1u8 << (number % 8)) != 0;
    }
    false
}

/// Whether a row is set. A row past the end is not.
pub fn test(field: &[u8], row: Row) -> bool
    ensures { result ≡ bit field.now row.0 }
{
    bit_at(field, row.0)
}

// The weights of a byte's bits. Where a loop shifts a byte for each row, each row waits for the one before; a weight that is read from here doesn't.
static WEIGHTS: [u8; 8] = [1, 2, 4, 8, 16, 32, 64, 128];

/// Sets a row whose byte is there. The answer is not 0 if it was set already, and 0 if not: what many calls answer is gathered by `|`, without a test of each.
pub fn mark_within(field: &mut [u8], row: Row) -> u8
    requires { row.0 / 8 < length field.old }
    ensures { (not (eqb result 0) ≡ bit field.old row.0) × (field.new ≡ meaning.mark field.old row.0) }
{
    let at = (row.0 / 8) as usize;
    let weight = WEIGHTS[(row.0 % 8) as usize];
    let old = field[at];
    field[at] = old | weight;
    old & weight
}

/// Sets a row, and answers whether it was set already. A row past the end is not, and stays so.
pub fn mark(field: &mut [u8], row: Row) -> bool
    ensures { (result ≡ bit field.old row.0) × (field.new ≡ meaning.mark field.old row.0) }
{
    if row.0 / 8 < field.len() as u64 {
        return mark_within(field, row) != 0;
    }
    false
}

// Sets the rows that the bits of one byte stand for, and answers the bits of those that were set already: what many calls answer is gathered by `|`.
fn mark_bits(field: &mut [u8], at: Position, bits: u8) -> u8
    requires { at.0 < length field.old }
    ensures { MarkedInTurn field.old field.new (byte_rows bits (at.0 * 8) 8) (not (eqb result 0)) }
{
    let old = field[at.0];
    field[at.0] = old | bits;
    old & bits
}

/// Sets the rows that the bits of one byte stand for, and answers whether one of them was set already.
pub fn mark_byte(field: &mut [u8], at: Position, bits: u8) -> bool
    requires { at.0 < length field.old }
    ensures { MarkedInTurn field.old field.new (byte_rows bits (at.0 * 8) 8) result }
{
    mark_bits(field, at, bits) != 0
}

/// Sets every row that is set in the field `rows`, as far as `field` goes, whole bytes at a time, and answers whether one of them was set already.
pub fn merge(field: &mut [u8], rows: &[u8]) -> bool
    ensures { MarkedRows field.old field.new (rows_of rows.now) result }
{
    let mut seen: u8 = 0;
    for i in 0..field.len().min(rows.len()) {
        seen |= mark_bits(field, Position(i), rows[i]);
    }
    seen != 0
}

// The bits of a byte from weight 2^low to weight 2^high.
fn bits_between(low: u64, high: u64) -> u8
    requires { (low ≤ high) × (high < 8) }
    ensures { result ≡ 2 ^ (high + 1) - 2 ^ low }
{
    ((2u16 << high) - (1u16 << low)) as u8
}

// Sets all rows of the bytes from `from` up to `to`, as far as the field goes. With `TELL` it answers whether one of them was set already, and else reads none.
fn mark_bytes<const TELL: bool>(field: &mut [u8], from: Position, to: Position) -> bool
    ensures marked { field.new ≡ mark_all field.old (up_to (from.0 * 8) ((to.0 - from.0) * 8)) }
    ensures seen { IsTrue TELL → result ≡ any_seen field.old (up_to (from.0 * 8) ((to.0 - from.0) * 8)) }
{
    let mut seen: u8 = 0;
    for i in from.0..to.0.min(field.len()) {
        if TELL {
            seen |= field[i];
        }
        field[i] = 255;
    }
    seen != 0
}

/// Sets the rows from `first` to `last`, none if `last` is before `first`, whole bytes at a time. With `TELL` it answers whether one of them was set already; without,
/// the answer says nothing, and no whole byte is read.
pub fn mark_run<const TELL: bool>(field: &mut [u8], first: Row, last: Row) -> bool
    ensures marked { field.new ≡ mark_all field.old (up_to first.0 (last.0 + 1 - first.0)) }
    ensures seen { IsTrue TELL → result ≡ any_set field.old (up_to first.0 (last.0 + 1 - first.0)) }
{
    let a = first.0;
    let z = last.0;
    if z < a {
        return false;
    }
    let from = (a / 8) as usize;
    let to = (z / 8) as usize;
    if field.len() <= from {
        return false;
    }
    if from == to {
        return mark_byte(field, Position(from), bits_between(a % 8, z % 8));
    }
    let head = mark_byte(field, Position(from), bits_between(a % 8, 7));
    let middle = mark_bytes::<TELL>(field, Position(from + 1), Position(to));
    if field.len() <= to {
        return head | middle;
    }
    let tail = mark_byte(field, Position(to), bits_between(0, z % 8));
    head | middle | tail
}

// How many rows of the first `words` words of 8 bytes are set, by the count of ones of each.
fn count_words(field: &[u8], words: usize) -> u64
    requires { (words * 8 ≤ length field.now) × (words * 64 < 2 ^ 64) }
    ensures { result ≡ meaning.count field.now (words * 64) }
{
    let mut total = 0;
    for i in 0..words {
        total += u64::from(numbers::le::<8>(field, Position(i * 8)).count_ones());
    }
    total
}

// How many rows of the bytes before `end` are set: those of whole words, then those of each byte that is left.
fn count_bytes(field: &[u8], end: Position) -> u64
    requires { (end.0 ≤ length field.now) × (end.0 * 8 < 2 ^ 64) }
    ensures { result ≡ meaning.count field.now (end.0 * 8) }
{
    let words = end.0 / 8;
    let mut total = count_words(field, words);
    for i in words * 8..end.0 {
        total += u64::from(field[i].count_ones());
    }
    total
}

/// The lowest `count` bits of a byte, which are all of it from 8 on.
pub fn low_bits(byte: u8, count: u64) -> u8
    ensures { result ≡ byte % 2 ^ count }
{
    if count < 8 {
        return byte % (1u8 << count);
    }
    byte
}

/// How many rows below `rows` are set: those of whole bytes, then those of the last one's bits that stand for rows.
pub fn count(field: &[u8], rows: u64) -> u64
    ensures { result ≡ meaning.count field.now rows }
{
    let whole = (rows / 8).min(field.len() as u64) as usize;
    let total = count_bytes(field, Position(whole));
    if whole < field.len() {
        let last = low_bits(field[whole], rows % 8);
        return total + u64::from(last.count_ones());
    }
    total
}

// Whether all bytes before `end` are 255. They are gathered by `&`, without a test of each.
fn all_full(field: &[u8], end: Position) -> bool
    requires { end.0 ≤ length field.now }
    ensures { result ≡ eqb (meaning.count field.now (end.0 * 8)) (end.0 * 8) }
{
    let mut all: u8 = 255;
    for i in 0..end.0 {
        all &= field[i];
    }
    all == 255
}

/// Whether every row below `rows` is set: those of whole bytes, then those of the last one's bits that stand for rows. A row past the end is not.
pub fn all_set(field: &[u8], rows: u64) -> bool
    ensures { result ≡ eqb (meaning.count field.now rows) rows }
{
    let whole = (rows / 8).min(field.len() as u64) as usize;
    if !all_full(field, Position(whole)) {
        return false;
    }
    if whole < field.len() {
        return low_bits(field[whole], rows % 8) == low_bits(255, rows % 8);
    }
    whole as u64 * 8 == rows
}

// The first byte that is not full.
fn first_not_full(bytes: &[u8]) -> Option<usize>
    ensures { result ≡ position (λ b. not (eqb b 255)) bytes.now }
{
    bytes.iter().position(|byte| *byte != 255)
}

/// The lowest row below `rows` that is not set, and `rows` where all are set. Full bytes are passed over at once.
// Not an Option: `first_clear_row`, of which bitmap_index's reading and theorems speak, is `rows` where all are set, and its one caller has just found that not all are.
pub fn first_clear(field: &[u8], rows: u64) -> Row
    ensures { result.0 ≡ first_clear_row field.now 0 rows }
{
    let whole = (rows / 8).min(field.len() as u64) as usize;
    let full = first_not_full(&field[..whole]).unwrap_or(whole);
    for row in full as u64 * 8..rows {
        if !bit_at(field, row) {
            return Row(row);
        }
    }
    Row(rows)
}
