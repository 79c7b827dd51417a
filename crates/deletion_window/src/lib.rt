// A deletion file's bin, 32-bit or 64-bit, read through a window: row first + r of the bin is row r of the field.
#![tactic(auto, unfolding(refusal::specs::Reading::check, refusal::specs::Reading::and_then, deletion_file::specs::Reading::counted, deletion_file::specs::Reading::left_by, crate::specs::Reading::kind_of, crate::specs::Reading::has_magic64, crate::specs::Reading::rows_behind, crate::specs::Reading::rows_of_bin, crate::specs::Reading::rows_in, crate::specs::Reading::marked_in, crate::specs::Reading::window_ready, crate::specs::Reading::window_deletions, crate::specs::Reading::window_buffer))]

ghost use Rattle.std.specs.Prelude.{◌≡◌, ◌+◌, ◌*◌, ◌<◌, ◌≤◌, ltb, length};
ghost use Rattle.row_field.specs.Meaning.{mark_all, above};
ghost use Rattle.window.specs.Meaning.{rows_in_window};
ghost use Rattle.roaring.specs.Reading.{read, rows_read};
ghost use Rattle.roaring_mark.specs.Promises.{Accepts};
ghost use Rattle.deletion_file.specs.Layout.{number_size};
ghost use Rattle.deletion_file.specs.Reading.{left_by, counted};
ghost use Rattle.deletion_file.specs.Promises.{plain_of};
ghost use Rattle.deletion_window.specs.Layout.{index_end, index_rows, end_of_all_rows};
ghost use Rattle.deletion_window.specs.Reading.{rows32, rows64, kind_of, rows_of_bin, rows_in, marked_in, window_deletions, window_buffer};
ghost use Rattle.deletion_window.specs.Promises.{FindsIndexed, MarksEach, IsClear};

mod shown;

use deletion_file::{BIN_ENTRY, Bin, NUMBER_SIZE};
use numbers::{Position, Row};
use refusal::Refusal;
use roaring::Extent;
use shown::Shown;
use window::Window;

// The number that a 64-bit bin begins with, little-endian.
const MAGIC_64: u64 = 1_681_511_377;

// The bytes of the number of bitmaps.
const COUNT_SIZE: usize = 8;

// The bytes of an index.
const INDEX_SIZE: usize = 4;

// Indexes are below.
const INDEX_END: u64 = 2_147_483_648;

// The rows of one index.
const INDEX_ROWS: u64 = 4_294_967_296;

// The end of all rows, 2^63.
const ROWS_END: u64 = 9_223_372_036_854_775_808;

// The container that is named for whatever is wrong behind a 64-bit magic.
const ANY_CONTAINER: u64 = 0;

// What a bin is by its magic.
#[derive(Clone, Copy, Debug, PartialEq, Eq)]
enum Kind {
    Bits32,
    Bits64,
}

// A sound bitmap of a 64-bit bin: its index, the bytes from it on, and those behind it.
#[derive(Clone, Copy, Debug)]
struct Indexed<'a> {
    index: u64,
    bitmap: &'a [u8],
    behind: &'a [u8],
}

// Marks those rows of the bitmap at the front of `bytes`, of this index, that are shown. One that is wholly outside is not looked at again.
fn mark_indexed(field: &mut [u8], bytes: &[u8], index: u64, shown: Shown)
    requires { Accepts (read bytes.now) × (index < index_end) }
    ensures { field.new ≡ mark_all field.old (rows_in_window shown.first shown.rows (above (index * index_rows) (rows_read (read bytes.now)))) }
{
    let whole = Window {
        low: shown.first,
        end: shown.first + shown.rows,
        shift: 0,
    };
    let own = window::clip(whole, index * INDEX_ROWS, INDEX_ROWS);
    if own.end <= own.low {
        return;
    }
    roaring_mark::mark_window(field, bytes, own);
}

// One bitmap behind its index, which is at least `least`.
fn next_bitmap<'a>(left: &'a [u8], least: u64) -> Option<Indexed<'a>>
    ensures { FindsIndexed least left.now result }
{
    if left.len() < INDEX_SIZE {
        return None;
    }
    let index = numbers::le::<4>(left, Position(0));
    if index < least || INDEX_END <= index {
        return None;
    }
    let bitmap = &left[INDEX_SIZE..];
    let Ok(shape) = roaring::measure(bitmap, Extent::AsLong) else {
        return None;
    };
    Some(Indexed {
        index,
        bitmap,
        behind: &bitmap[shape.length..],
    })
}

// Marks the bitmaps behind a 64-bit magic one by one, each once it is measured, and answers whether all are sound and nothing is left over. Where they are not,
// the field has rows of those before, which the caller takes away.
fn mark_each(bytes: &[u8], shown: Shown, field: &mut [u8]) -> bool
    ensures { MarksEach shown.first shown.rows bytes.now field.old field.new result }
{
    if bytes.len() < COUNT_SIZE {
        return false;
    }
    let count = numbers::le::<8>(bytes, Position(0));
    let mut left = &bytes[COUNT_SIZE..];
    let mut least: u64 = 0;
    for _ in 0..count {
        let Some(next) = next_bitmap(left, least) else {
            return false;
        };
        mark_indexed(field, next.bitmap, next.index, shown);
        least = next.index + 1;
        left = next.behind;
    }
    left.is_empty()
}

// Marks the shown rows behind a 64-bit magic in a field that is clear, and counts them.
fn mark_64(bytes: &[u8], shown: Shown, field: &mut [u8]) -> Result<u64, Refusal>
    requires { IsClear shown.rows field.old }
    ensures answer { result ≡ counted shown.rows (marked_in shown.first shown.rows (rows64 bytes.now) field.old) }
    ensures field { field.new ≡ left_by (marked_in shown.first shown.rows (rows64 bytes.now) field.old) field.old }
{
    if !mark_each(bytes, shown, field) {
        row_field::clear(field, shown.rows);
        return Err(Refusal::Bitmap {
            entry: BIN_ENTRY,
            container: ANY_CONTAINER,
        });
    }
    Ok(row_field::count(field, shown.rows))
}

// The same for the one bitmap behind a 32-bit magic, which fills the bytes. It has the rows of index 0.
fn mark_32(bytes: &[u8], shown: Shown, field: &mut [u8]) -> Result<u64, Refusal>
    ensures answer { result ≡ counted shown.rows (marked_in shown.first shown.rows (rows32 bytes.now) field.old) }
    ensures field { field.new ≡ left_by (marked_in shown.first shown.rows (rows32 bytes.now) field.old) field.old }
{
    deletion_file::measure_bitmap(bytes)?;
    mark_indexed(field, bytes, 0, shown);
    Ok(row_field::count(field, shown.rows))
}

// What a bin is: the two magics differ in their first byte, so that no bin has both.
fn kind_of(bin: &[u8]) -> Result<Kind, Refusal>
    requires { number_size ≤ length bin.now }
    ensures { result ≡ kind_of bin.now }
{
    if deletion_file::has_magic(bin) {
        return Ok(Kind::Bits32);
    }
    if numbers::le::<4>(bin, Position(0)) == MAGIC_64 {
        return Ok(Kind::Bits64);
    }
    Err(Refusal::Magic)
}

// Marks the shown rows of a bin in a field that is clear, if magic and checksum are right, and counts them.
fn mark_held(bin: Bin<'_>, shown: Shown, field: &mut [u8]) -> Result<u64, Refusal>
    requires { IsClear shown.rows field.old }
    ensures answer { result ≡ counted shown.rows (marked_in shown.first shown.rows (rows_of_bin (plain_of bin.entry)) field.old) }
    ensures field { field.new ≡ left_by (marked_in shown.first shown.rows (rows_of_bin (plain_of bin.entry)) field.old) field.old }
{
    let kind = kind_of(bin.bytes)?;
    if !deletion_file::checksum_holds(bin.bytes, bin.sum) {
        return Err(Refusal::Checksum);
    }
    let behind = &bin.bytes[NUMBER_SIZE..];
    match kind {
        Kind::Bits32 => mark_32(behind, shown, field),
        Kind::Bits64 => mark_64(behind, shown, field),
    }
}

// Marks the shown rows of the asked bin in a field that is clear, and counts them.
fn mark_bin(file: &[u8], bin: u64, shown: Shown, field: &mut [u8]) -> Result<u64, Refusal>
    requires { IsClear shown.rows field.old }
    ensures answer { result ≡ counted shown.rows (marked_in shown.first shown.rows (rows_in bin file.now) field.old) }
    ensures field { field.new ≡ left_by (marked_in shown.first shown.rows (rows_in bin file.now) field.old) field.old }
{
    let bin = deletion_file::asked_bin(file, bin)?;
    mark_held(bin, shown, field)
}

// Whether a window ends past all rows, where the sum fits 64 bits or not.
fn ends_past(first: Row, rows: u64) -> bool
    ensures { result ≡ ltb end_of_all_rows (first.0 + rows) }
{
    match first.0.checked_add(rows) {
        Some(end) => ROWS_END < end,
        None => true,
    }
}

/// Read deletions through a window: of the rows of bin number `bin`, from 0, in either kind, those from `first` up to but not first + rows are set in the field for
/// `rows` rows, each counted from `first`, and no others; answers how many. Bytes behind the field stay.
pub fn read_window(
    file: &[u8],
    bin: u64,
    first: Row,
    rows: u64,
    field: &mut [u8],
) -> Result<u64, Refusal>
    ensures answer { result ≡ counted rows (window_deletions file.now bin first.0 rows field.old) }
    ensures buffer { field.new ≡ window_buffer file.now bin first.0 rows field.old }
{
    if ends_past(first, rows) {
        return Err(Refusal::Limit);
    }
    let shown = Shown {
        first: first.0,
        rows,
    };
    deletion_file::prepare(file, rows, field)?;
    mark_bin(file, bin, shown, field)
}
