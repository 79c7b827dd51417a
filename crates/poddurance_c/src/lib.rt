// The exports of the C interface (include/poddurance.h), each the function of this name in `poddurance`, with its promise. Their archive is libpoddurance.a.
#![tactic(auto)]

ghost use Rattle.std.specs.Prelude.{◌≡◌};
ghost use Rattle.subtract.specs.Meaning.{numbers_of_record};
ghost use Rattle.bitmap_index.specs.Meaning.{question};
ghost use Rattle.file_to_answers.specs.Reading.{bytes_looked_at};
ghost use Rattle.file_to_answers.specs.Promises.{FileAsScan};
ghost use Rattle.poddurance.specs.Promises.{ReadDeletions, ReadWindow, Subtract, SubtractRecord, Locate, Audit, Ask, Open, LookUp, AskFile};

#[unsafe(no_mangle)]
pub extern "C" fn poddurance_read_deletions(
    file: &[u8],
    bin: u64,
    rows: u64,
    field: &mut [u8],
    deleted: &mut u64,
    fault: &mut [u64; 3],
) -> u8
    ensures { ReadDeletions file.now bin rows field.old field.new result deleted.new fault.new }
{
    poddurance::poddurance_read_deletions(file, bin, rows, field, deleted, fault)
}

#[unsafe(no_mangle)]
pub extern "C" fn poddurance_read_window(
    file: &[u8],
    bin: u64,
    first: u64,
    rows: u64,
    field: &mut [u8],
    deleted: &mut u64,
    fault: &mut [u64; 3],
) -> u8
    ensures { ReadWindow file.now bin first rows field.old field.new result deleted.new fault.new }
{
    poddurance::poddurance_read_window(file, bin, first, rows, field, deleted, fault)
}

#[unsafe(no_mangle)]
pub extern "C" fn poddurance_subtract(
    first: &mut [u8],
    second: &[u8],
    rows: u64,
    left: &mut u64,
    removed: &mut u64,
) -> u8
    ensures { Subtract second.now rows first.old first.new result left.new removed.new }
{
    poddurance::poddurance_subtract(first, second, rows, left, removed)
}

#[unsafe(no_mangle)]
pub extern "C" fn poddurance_subtract_record(
    first: &mut [u8],
    second: &[u8],
    said: &mut [u64; 4],
    removed: &mut u64,
) -> u8
    ensures { SubtractRecord second.now said.old first.old first.new
        result said.new removed.new }
{
    poddurance::poddurance_subtract_record(first, second, said, removed)
}

#[unsafe(no_mangle)]
pub extern "C" fn poddurance_locate<'a>(
    embedded: &'a [u8],
    file: &'a [u8],
    column: &[u8],
    kind: &[u8],
    start: &mut u64,
    length: &mut u64,
) -> u8
    ensures { Locate (bytes_looked_at embedded.now file.now) column.now kind.now
        result start.new length.new }
{
    poddurance::poddurance_locate(embedded, file, column, kind, start, length)
}

#[unsafe(no_mangle)]
pub extern "C" fn poddurance_audit(
    body: &[u8],
    t: u32,
    field: &mut [u8],
    rows: &mut u64,
    fault: &mut [u64; 3],
) -> u8
    ensures { Audit body.now t field.old field.new result rows.new fault.new }
{
    poddurance::poddurance_audit(body, t, field, rows, fault)
}

#[unsafe(no_mangle)]
pub extern "C" fn poddurance_ask(
    body: &[u8],
    t: u32,
    edition: u32,
    name: u32,
    literals: &[u8],
    field: &mut [u8],
    said: &mut [u64; 4],
    fault: &mut [u64; 3],
) -> u8
    ensures { Ask body.now t (question edition name) literals.now field.old field.new
        result said.new fault.new }
{
    poddurance::poddurance_ask(body, t, edition, name, literals, field, said, fault)
}

#[unsafe(no_mangle)]
pub extern "C" fn poddurance_open(
    body: &[u8],
    t: u32,
    field: &mut [u8],
    table: &mut [u32],
    rows: &mut u64,
    blocks: &mut u64,
    fault: &mut [u64; 3],
) -> u8
    ensures { Open body.now t field.old field.new table.old table.new
        result rows.new blocks.new fault.new }
{
    poddurance::poddurance_open(body, t, field, table, rows, blocks, fault)
}

#[unsafe(no_mangle)]
pub extern "C" fn poddurance_look_up(
    body: &[u8],
    t: u32,
    edition: u32,
    literals: &[u8],
    table: &[u32],
    field: &mut [u8],
    said: &mut [u64; 4],
    compared: &mut u64,
    fault: &mut [u64; 3],
) -> u8
    ensures { LookUp body.now t edition literals.now table.now field.old field.new
        result said.new compared.new fault.new }
{
    poddurance::poddurance_look_up(
        body, t, edition, literals, table, field, said, compared, fault,
    )
}

#[unsafe(no_mangle)]
pub extern "C" fn poddurance_ask_file<'a>(
    embedded: &'a [u8],
    file: &'a [u8],
    column: &[u8],
    kind: &[u8],
    t: u32,
    edition: u32,
    name: u32,
    literals: &[u8],
    field: &mut [u8],
    said: &mut [u64; 4],
    fault: &mut [u64; 3],
) -> u8
    ensures any_bytes { AskFile (bytes_looked_at embedded.now file.now) column.now kind.now
        t (question edition name) literals.now field.old field.new result said.new fault.new }
    ensures as_the_scan { FileAsScan (bytes_looked_at embedded.now file.now) column.now kind.now
        t (question edition name) literals.now field.old
        (λ a. (result ≡ 0) × (said.new ≡ numbers_of_record a.said) × (field.new ≡ a.buffer)) }
{
    poddurance::poddurance_ask_file(
        embedded, file, column, kind, t, edition, name, literals, field, said, fault,
    )
}
