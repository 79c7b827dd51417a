// Deletion files: the walk over the bins, and Read deletions. A file is a version, 1, and then bins to its end.
#![tactic(auto, unfolding(refusal::specs::Reading::check, refusal::specs::Reading::and_then, refusal::specs::Reading::refused_as, crate::specs::Promises::bitmap_shape, crate::specs::Reading::counted, crate::specs::Reading::left_by, crate::specs::Reading::begins_with_magic, crate::specs::Reading::is_true_checksum, crate::specs::Reading::after_magic, crate::specs::Reading::bin_asked_for, crate::specs::Reading::bitmap_in, crate::specs::Reading::bin_marked, crate::specs::Reading::deletions_ready, crate::specs::Reading::deletions, crate::specs::Reading::deletions_buffer))]

ghost use Rattle.std.specs.Prelude.{◌≤◌, ◌≡◌, length};
ghost use Rattle.row_field.specs.Meaning.{cleared};
ghost use Rattle.deletion_file.specs.Layout.{number_size};
ghost use Rattle.deletion_file.specs.Reading.{begins_with_magic, is_true_checksum, after_magic, bitmap_in, bin_in, bitmap_marked, bin_marked, deletions_ready, deletions, deletions_buffer, left_by, counted};
ghost use Rattle.deletion_file.specs.Promises.{FindsNext, BinAt, AsksBin, BytesAre, Prepares, plain_of, bitmap_shape};

mod bins;

pub use bins::Bin;
use numbers::Position;
use refusal::{LIMIT, Refusal};
use roaring::{Extent, Shape};

// The bytes of the version, behind which the bins stand.
const VERSION_SIZE: usize = 1;

// The number that a bin begins with.
const MAGIC: u64 = 1_581_511_376;

/// The bytes of each of the file's numbers: a size, a magic, a checksum.
pub const NUMBER_SIZE: usize = 4;

/// The entry's number in a bin's refusals.
pub const BIN_ENTRY: u64 = 0;

// One step of the walk over the bins: the bytes of the bin at the front of those that are left, and what stands behind them, its checksum first; none at their end.
// A bin's size counts its bytes alone.
#[tactic(auto, using(std::proofs::lemmas::Grind::common_steps, crate::proofs::WalkSteps::rest_of, crate::proofs::WalkSteps::number_behind), unfolding(refusal::specs::Reading::check, numbers::specs::Meaning::number, crate::specs::Reading::step_to_next_bin))]
fn next_bin<'a>(left: &'a [u8]) -> Result<Option<(&'a [u8], &'a [u8])>, Refusal>
    ensures { FindsNext left.now result }
{
    if left.is_empty() {
        return Ok(None);
    }
    if left.len() < NUMBER_SIZE {
        return Err(Refusal::Short);
    }
    let size = numbers::be::<4>(left, Position(0)) as usize;
    let left = &left[NUMBER_SIZE..];
    if size < NUMBER_SIZE || left.len() < size + NUMBER_SIZE {
        return Err(Refusal::Short);
    }
    Ok(Some((&left[..size], &left[size..])))
}

// The bin of this number, from 0. Every size to the end of the file is walked first; the checksums of the other bins are not read.
fn find_bin<'a>(file: &'a [u8], bin: u64) -> Result<Bin<'a>, Refusal>
    requires { 1 ≤ length file.now }
    ensures { BinAt (bin_in bin file.now) file.now result }
{
    let mut left = &file[VERSION_SIZE..];
    let mut number: u64 = 0;
    let mut found = None;
    while let Some((bytes, behind)) = next_bin(left)? {
        if number == bin {
            found = Some(Bin {
                at: Position(file.len() - left.len() + NUMBER_SIZE),
                bytes,
                sum: numbers::be::<4>(behind, Position(0)),
            });
        }
        left = &behind[NUMBER_SIZE..];
        number += 1;
    }
    found.ok_or(Refusal::NoBin)
}

/// Whether a bin begins with the magic.
pub fn has_magic(bin: &[u8]) -> bool
    requires { number_size ≤ length bin.now }
    ensures { result ≡ begins_with_magic bin.now }
{
    numbers::be::<4>(bin, Position(0)) == MAGIC
}

/// Whether the stored checksum is that of the whole bin, its magic too.
pub fn checksum_holds(bin: &[u8], stored: u64) -> bool
    ensures { result ≡ is_true_checksum bin.now stored }
{
    u64::from(crc32::checksum(bin)) == stored
}

// The bytes behind a bin's magic, if magic and checksum are right.
fn behind_magic<'a>(bin: Bin<'a>) -> Result<&'a [u8], Refusal>
    ensures { BytesAre (after_magic (plain_of bin.entry)) result }
{
    if !has_magic(bin.bytes) {
        return Err(Refusal::Magic);
    }
    if !checksum_holds(bin.bytes, bin.sum) {
        return Err(Refusal::Checksum);
    }
    Ok(&bin.bytes[NUMBER_SIZE..])
}

/// The bin of this number, from 0, of a file that isn't empty and has version 1, and where it stands. What the bin holds is not looked at.
pub fn asked_bin<'a>(file: &'a [u8], bin: u64) -> Result<Bin<'a>, Refusal>
    ensures { AsksBin bin file.now result }
{
    if file.is_empty() {
        return Err(Refusal::Short);
    }
    if numbers::byte(file, Position(0)) != 1 {
        return Err(Refusal::Version);
    }
    find_bin(file, bin)
}

// The bytes that are to be the bitmap of the asked bin.
fn find_bitmap<'a>(file: &'a [u8], bin: u64) -> Result<&'a [u8], Refusal>
    ensures { BytesAre (bitmap_in bin file.now) result }
{
    let bin = asked_bin(file, bin)?;
    behind_magic(bin)
}

/// Measures the bitmap that fills the bytes behind a bin's magic.
pub fn measure_bitmap(bitmap: &[u8]) -> Result<Shape, Refusal>
    ensures { result ≡ bitmap_shape bitmap.now }
{
    roaring::measure(bitmap, Extent::Exactly(bitmap.len())).map_err(|broken| Refusal::Bitmap {
        entry: BIN_ENTRY,
        container: broken.container,
    })
}

// Marks the rows of the bitmap that fills the given bytes in a field for `rows` rows that is clear, and counts them. The field is not touched before the bitmap
// is measured.
fn mark_bitmap(bitmap: &[u8], rows: u64, field: &mut [u8]) -> Result<u64, Refusal>
    ensures answer { result ≡ counted rows (bitmap_marked bitmap.now rows field.old) }
    ensures field { field.new ≡ left_by (bitmap_marked bitmap.now rows field.old) field.old }
{
    let shape = measure_bitmap(bitmap)?;
    if rows < shape.end {
        return Err(Refusal::Range { entry: BIN_ENTRY });
    }
    roaring_mark::mark(field, bitmap, rows);
    Ok(row_field::count(field, rows))
}

// Marks the rows of the asked bin in a field for `rows` rows that is clear, and counts them.
fn mark_bin(file: &[u8], bin: u64, rows: u64, field: &mut [u8]) -> Result<u64, Refusal>
    ensures answer { result ≡ counted rows (bin_marked file.now bin rows field.old) }
    ensures field { field.new ≡ left_by (bin_marked file.now bin rows field.old) field.old }
{
    let bitmap = find_bitmap(file, bin)?;
    mark_bitmap(bitmap, rows, field)
}

/// What comes before a byte of the field is written: the limit of the file's length and of the row count, and room for the rows. Then the field for `rows` rows is
/// cleared; a refusal leaves the buffer as it was.
pub fn prepare(file: &[u8], rows: u64, field: &mut [u8]) -> Result<(), Refusal>
    ensures { Prepares file.now rows field.old field.new result }
{
    if LIMIT < file.len() as u64 || LIMIT < rows {
        return Err(Refusal::Limit);
    }
    if !row_field::has_room(field, rows) {
        return Err(Refusal::Room);
    }
    row_field::clear(field, rows);
    Ok(())
}

/// Read deletions: the rows of bin number `bin`, from 0, of a deletion file are set in the field for `rows` rows, and no others; answers how many. Bytes behind the
/// field stay.
pub fn read_deletions(file: &[u8], bin: u64, rows: u64, field: &mut [u8]) -> Result<u64, Refusal>
    ensures answer { result ≡ counted rows (deletions file.now bin rows field.old) }
    ensures buffer { field.new ≡ deletions_buffer file.now bin rows field.old }
{
    prepare(file, rows, field)?;
    mark_bin(file, bin, rows, field)
}
