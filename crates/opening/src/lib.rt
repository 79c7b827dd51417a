// Open: audits a version 2 body, then fills a lent table with where each block's entry of the directory starts, so that lookups can halve the directory without
// an audit.
#![tactic(auto)]

ghost use Rattle.std.specs.Prelude.{◌≤◌, length};
ghost use Rattle.refusal.specs.Meaning.{limit};
ghost use Rattle.opening.specs.Promises.{OpenPromise, FrontIs, Fills};

use dictionary::{NullEntry, Version};
use numbers::Position;
use refusal::Refusal;

// The version whose bodies can be opened.
const VERSION: u64 = 2;

// Where the fields in front stand: the row count, the value number, has-null, and what follows.
const ROWS_AT: usize = 1;

const VALUES_AT: usize = 5;

const HAS_NULL_AT: usize = 9;

const NULL_AT: usize = 10;

// The bytes of the block number, and of a block's offset in the directory.
const COUNT_SIZE: usize = 4;

const OFFSET_SIZE: usize = 4;

/// The fields in front of a directory, and where the directory begins.
#[derive(Clone, Copy, Debug, PartialEq, Eq)]
pub struct Fields {
    pub rows: u64,
    pub values: u64,
    pub null: Option<NullEntry>,
    pub blocks: u64,
    pub directory: Position,
}

/// What a body says that was opened: its row count, and its number of blocks, as many words as the table then holds.
#[derive(Clone, Copy, Debug, PartialEq, Eq)]
pub struct Opened {
    pub rows: u64,
    pub blocks: u64,
}

/// The fields in front of a version 2 directory, of any bytes.
pub fn front(body: &[u8]) -> Result<Fields, Refusal>
    ensures { FrontIs body.now result }
{
    if body.len() < ROWS_AT {
        return Err(Refusal::Short);
    }
    if numbers::byte(body, Position(0)) != VERSION {
        return Err(Refusal::Version);
    }
    let rows = dictionary::count_at(body, Position(ROWS_AT), refusal::LIMIT)?;
    let values = dictionary::count_at(body, Position(VALUES_AT), dictionary::MOST_VALUES_2)?;
    if body.len() < NULL_AT {
        return Err(Refusal::Short);
    }
    let has = numbers::byte(body, Position(HAS_NULL_AT));
    if 1 < has {
        return Err(Refusal::Dict);
    }
    let (null, next) = dictionary::null_entry(body, Version::Two, has == 1, Position(NULL_AT))?;
    let blocks = dictionary::count_at(body, next, dictionary::MOST_BLOCKS)?;
    if !dictionary::blocks_fit(values, blocks) {
        return Err(Refusal::Dict);
    }
    Ok(Fields {
        rows,
        values,
        null,
        blocks,
        directory: Position(next.0 + COUNT_SIZE),
    })
}

// Writes where each of the n entries of the directory at `at` starts. In a dictionary that was accepted a value stands at each.
fn fill(body: &[u8], t: u32, n: u64, at: Position, table: &mut [u32])
    requires { (n ≤ length table.old) × (at.0 ≤ length body.now) × (length body.now ≤ limit) }
    ensures { Fills t n body.now at.0 table.old table.new }
{
    let mut start = at.0;
    for i in 0..n as usize {
        table[i] = start as u32;
        let Ok(end) = dictionary::value_end(body, t, Position(start)) else {
            return;
        };
        start = end.0 + OFFSET_SIZE;
    }
}

/// Open: audits the body, of version 2 alone, in a field with room for its rows, then fills the table. A refusal up to and at ROOM leaves both buffers as they
/// were; any other answer leaves the field zero, and a refusal the table as it was.
#[tactic(auto, unfolding(refusal::specs::Reading::check, refusal::specs::Reading::and_then, refusal::specs::Reading::numbers_of, refusal::specs::Reading::fault_in, crate::specs::Reading::openable, crate::specs::Reading::opened, crate::specs::Reading::zeroed_from, crate::specs::Reading::open_buffer, crate::specs::Reading::table_of, crate::specs::Reading::open_table, crate::specs::Reading::open_out, crate::specs::Reading::open_fault))]
pub fn open(body: &[u8], t: u32, field: &mut [u8], table: &mut [u32]) -> Result<Opened, Refusal>
    ensures { OpenPromise t body.now field.old field.new table.old table.new result }
{
    if refusal::LIMIT < body.len() as u64 {
        return Err(Refusal::Limit);
    }
    if stored_value::TYPES <= t {
        return Err(Refusal::Literal);
    }
    // version 1 is refused here, which the dictionary would read; what else is refused here the dictionary would refuse too
    let fields = front(body)?;
    let summary = bitmap_index::prepare(body, t, field)?;
    if (table.len() as u64) < fields.blocks {
        return Err(Refusal::Room);
    }
    bitmap_index::audit_field(field, body, summary, t, bitmap_index::SUM_NULLS)?;
    fill(body, t, fields.blocks, fields.directory, table);
    Ok(Opened {
        rows: summary.rows,
        blocks: fields.blocks,
    })
}
