// The C interface (include/poddurance.h), which poddurance_c exports. Each function answers a number, 0 for accepted, 255 for a column or a kind that is not
// listed (Locate and Ask of a file) and else the refusal's, and writes counts through pointers; with 255 and a refusal the counts are 0. Where a fault is (entry,
// container, row) is written through a pointer too: 0 in each number that the refusal does not carry, and all 0 with every other answer. A record is lent as its
// four numbers, `said`: rows, nulls, deleted, matched. The numbers and the pointers are C's; within, calls answer std's Result.
#![tactic(auto, unfolding(refusal::specs::Reading::numbers_of, refusal::specs::Reading::fault_in))]

ghost use Rattle.std.specs.Prelude.{◌≡◌};
ghost use Rattle.refusal.specs.Meaning.{number_of, fault_of};
ghost use Rattle.refusal.specs.Reading.{numbers_of, fault_in};
ghost use Rattle.subtract.specs.Meaning.{numbers_of_record, no_record};
ghost use Rattle.bitmap_index.specs.Meaning.{question};
ghost use Rattle.bitmap_index.specs.Reading.{ask_out, ask_fault};
ghost use Rattle.file_to_answers.specs.Reading.{bytes_looked_at};
ghost use Rattle.file_to_answers.specs.Promises.{FileAsScan};
ghost use Rattle.poddurance.specs.Promises.{ReadDeletions, ReadWindow, Subtract, SubtractRecord, Locate, Audit, Ask, Open, LookUp, AskFile};

use bitmap_index::Question;
use numbers::Row;
use refusal::{NO_FAULT, Refusal};
use subtract::{Answer, NO_RECORD, Record};

const ACCEPTED: u8 = 0;

// The number of a refusal, and through the pointer where its fault is.
fn refused(why: Refusal, fault: &mut [u64; 3]) -> u8
    ensures { (result ≡ number_of why) × (fault.new ≡ fault_of why) }
{
    *fault = why.fault(); // of a bin the container
    why.number()
}

// The number of an answer that is a count, and through pointers the count and where its fault is.
fn counted(answer: Result<u64, Refusal>, count: &mut u64, fault: &mut [u64; 3]) -> u8
    ensures { ((result, count.new) ≡ numbers_of 0 (λ n. (0, n)) answer) × (fault.new ≡ fault_in answer) }
{
    match answer {
        Ok(n) => {
            *count = n;
            *fault = NO_FAULT;
            ACCEPTED
        }
        Err(why) => {
            *count = 0;
            refused(why, fault)
        }
    }
}

// The number of an answer to a question, and through pointers its record and where its fault is.
#[tactic(auto, unfolding(bitmap_index::specs::Reading::ask_out, bitmap_index::specs::Reading::ask_fault))]
fn answered(answer: Result<Answer, Refusal>, said: &mut [u64; 4], fault: &mut [u64; 3]) -> u8
    ensures { ((result, said.new) ≡ ask_out answer) × (fault.new ≡ ask_fault answer) }
{
    match answer {
        Ok(answer) => {
            *said = answer.record().into();
            *fault = NO_FAULT;
            ACCEPTED
        }
        Err(why) => {
            *said = NO_RECORD; // a refusal carries no record
            refused(why, fault)
        }
    }
}

/// The deleted rows of a bin of a deletion file, set in the field.
pub fn poddurance_read_deletions(
    file: &[u8],
    bin: u64,
    rows: u64,
    field: &mut [u8],
    deleted: &mut u64,
    fault: &mut [u64; 3],
) -> u8
    ensures { ReadDeletions file.now bin rows field.old field.new result deleted.new fault.new }
{
    counted(
        deletion_file::read_deletions(file, bin, rows, field),
        deleted,
        fault,
    )
}

/// The same of the rows from `first` on, so many.
pub fn poddurance_read_window(
    file: &[u8],
    bin: u64,
    first: u64,
    rows: u64,
    field: &mut [u8],
    deleted: &mut u64,
    fault: &mut [u64; 3],
) -> u8
    ensures { ReadWindow file.now bin first rows field.old field.new result deleted.new fault.new }
{
    counted(
        deletion_window::read_window(file, bin, Row(first), rows, field),
        deleted,
        fault,
    )
}

/// Clears in the first field each row that is set in the second.
pub fn poddurance_subtract(
    first: &mut [u8],
    second: &[u8],
    rows: u64,
    left: &mut u64,
    removed: &mut u64,
) -> u8
    ensures { Subtract second.now rows first.old first.new result left.new removed.new }
{
    match subtract::subtract(first, second, rows) {
        Ok(counts) => {
            *left = counts.left;
            *removed = counts.removed;
            ACCEPTED
        }
        Err(why) => {
            *left = 0;
            *removed = 0;
            why.number()
        }
    }
}

/// The same with the record of the first field's answer, which is then the one of the rows that are left.
pub fn poddurance_subtract_record(
    first: &mut [u8],
    second: &[u8],
    said: &mut [u64; 4],
    removed: &mut u64,
) -> u8
    ensures { SubtractRecord second.now said.old first.old first.new
        result said.new removed.new }
{
    match subtract::subtract_record(first, second, Record::from(*said)) {
        Ok(subtracted) => {
            *said = subtracted.answer.record().into();
            *removed = subtracted.removed;
            ACCEPTED
        }
        Err(why) => {
            *said = NO_RECORD; // after a refusal nothing is claimed
            *removed = 0;
            why.number()
        }
    }
}

/// Where the body of the asked kind of the asked column lies, in the embedded buffer if it isn't empty, else in the file.
#[tactic(auto, unfolding(refusal::specs::Reading::numbers_of, index_file::specs::Reading::sought_numbers))]
pub fn poddurance_locate<'a>(
    embedded: &'a [u8],
    file: &'a [u8],
    column: &[u8],
    kind: &[u8],
    start: &mut u64,
    length: &mut u64,
) -> u8
    ensures { Locate (bytes_looked_at embedded.now file.now) column.now kind.now
        result start.new length.new }
{
    match file_to_answers::find(embedded, file, column, kind) {
        Ok(Some(part)) => {
            *start = part.start.0 as u64;
            *length = part.length as u64;
            index_file::FOUND
        }
        Ok(None) => {
            *start = 0;
            *length = 0;
            index_file::ABSENT
        }
        Err(why) => {
            *start = 0;
            *length = 0;
            why.number()
        }
    }
}

/// The row count of a body, each of whose rows stands in one entry.
pub fn poddurance_audit(
    body: &[u8],
    t: u32,
    field: &mut [u8],
    rows: &mut u64,
    fault: &mut [u64; 3],
) -> u8
    ensures { Audit body.now t field.old field.new result rows.new fault.new }
{
    counted(bitmap_index::audit(body, t, field), rows, fault)
}

/// The rows of a body that a question chooses, set in the field.
pub fn poddurance_ask(
    body: &[u8],
    t: u32,
    edition: u32,
    name: u32,
    literals: &[u8],
    field: &mut [u8],
    said: &mut [u64; 4],
    fault: &mut [u64; 3],
) -> u8
    ensures { Ask body.now t (question edition name) literals.now field.old field.new
        result said.new fault.new }
{
    answered(
        bitmap_index::ask(body, t, Question { edition, name }, literals, field),
        said,
        fault,
    )
}

/// Open: an accepted body's table is lent to `poddurance_look_up`.
#[tactic(auto, unfolding(refusal::specs::Reading::numbers_of, refusal::specs::Reading::fault_in, opening::specs::Reading::open_out, opening::specs::Reading::open_fault))]
pub fn poddurance_open(
    body: &[u8],
    t: u32,
    field: &mut [u8],
    table: &mut [u32],
    rows: &mut u64,
    blocks: &mut u64,
    fault: &mut [u64; 3],
) -> u8
    ensures { Open body.now t field.old field.new table.old table.new
        result rows.new blocks.new fault.new }
{
    match opening::open(body, t, field, table) {
        Ok(opened) => {
            *rows = opened.rows;
            *blocks = opened.blocks;
            *fault = NO_FAULT;
            ACCEPTED
        }
        Err(why) => {
            *rows = 0;
            *blocks = 0;
            refused(why, fault)
        }
    }
}

/// A lookup: EQUAL, without an audit. `compared` are the values that were compared.
pub fn poddurance_look_up(
    body: &[u8],
    t: u32,
    edition: u32,
    literals: &[u8],
    table: &[u32],
    field: &mut [u8],
    said: &mut [u64; 4],
    compared: &mut u64,
    fault: &mut [u64; 3],
) -> u8
    ensures { LookUp body.now t edition literals.now table.now field.old field.new
        result said.new compared.new fault.new }
{
    let looked = lookup::look_up(body, t, edition, literals, table, field);
    *compared = looked.compared;
    answered(looked.answer, said, fault)
}

/// Locate, then Ask on the part that it finds. Of a column's file the answer, the record and the field are those of the scan.
pub fn poddurance_ask_file<'a>(
    embedded: &'a [u8],
    file: &'a [u8],
    column: &[u8],
    kind: &[u8],
    t: u32,
    edition: u32,
    name: u32,
    literals: &[u8],
    field: &mut [u8],
    said: &mut [u64; 4],
    fault: &mut [u64; 3],
) -> u8
    ensures any_bytes { AskFile (bytes_looked_at embedded.now file.now) column.now kind.now
        t (question edition name) literals.now field.old field.new result said.new fault.new }
    ensures as_the_scan { FileAsScan (bytes_looked_at embedded.now file.now) column.now kind.now
        t (question edition name) literals.now field.old
        (λ a. (result ≡ 0) × (said.new ≡ numbers_of_record a.said) × (field.new ≡ a.buffer)) }
{
    match file_to_answers::ask_file(
        embedded,
        file,
        column,
        kind,
        t,
        Question { edition, name },
        literals,
        field,
    ) {
        Ok(None) => {
            *said = NO_RECORD; // what is not listed has no record
            *fault = NO_FAULT;
            index_file::ABSENT
        }
        Ok(Some(answer)) => answered(Ok(answer), said, fault),
        Err(why) => answered(Err(why), said, fault),
    }
}
