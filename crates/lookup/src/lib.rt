// A lookup: EQUAL on a version 2 body, without an audit. It halves the directory through the table that Open filled, and reads one block, null's bitmap and one
// bitmap.
#![tactic(auto)]

ghost use Rattle.std.specs.Prelude.{◌≡◌, List, ℕ, ◌≤◌, ◌<◌, length};
ghost use Rattle.numbers.specs.Meaning.{four_bytes};
ghost use Rattle.refusal.specs.Meaning.{limit};
ghost use Rattle.row_field.specs.Meaning.{size, count, cleared};
ghost use Rattle.stored_value.specs.Meaning.{less};
ghost use Rattle.lookup.specs.Promises.{LookUpPromise, ListedAt, EndIs, BaseIs, HalvedIs, SearchedFrom, SearchedAt, BlockAt, SoughtIs};
ghost use Rattle.lookup.specs.Promises.{CountsNull, PlacesFound, AnswersIn, LooksUp};

use bitmap_index::Question;
use dictionary::{Cursor, Summary, Version};
use numbers::Position;
use opening::Fields;
use refusal::Refusal;
use subtract::{Answer, Record};

// The bytes of a block's offset, of the body offset, of an entry number; and those of an entry's offset and length.
const WORD: usize = 4;

const TWO_WORDS: usize = 8;

/// An answer as Ask's, and the values compared with the literal, 0 with a refusal.
#[derive(Clone, Copy, Debug, PartialEq, Eq)]
pub struct LookedUp {
    pub answer: Result<Answer, Refusal>,
    pub compared: u64,
}

// An entry of the directory: where its value ends, and its block's offset.
#[derive(Clone, Copy, Debug, PartialEq, Eq)]
struct Listing {
    end: Position,
    offset: u64,
}

// Where blocks' offsets count from, and where the region of bitmaps begins.
#[derive(Clone, Copy, Debug, PartialEq, Eq)]
struct Base {
    base: Position,
    region: Position,
}

// How many blocks begin at or below the literal, the offset of the last of them, and how many first values were compared.
#[derive(Clone, Copy, Debug, PartialEq, Eq)]
struct Halving {
    below: u64,
    offset: u64,
    compared: u64,
}

// Where an entry has its rows: a row number or the place of a bitmap, as its offset says, and the bitmap's length.
#[derive(Clone, Copy, Debug, PartialEq, Eq)]
struct Place {
    offset: i32,
    extent: u64,
}

// What a block has of the literal: where that entry has its rows, if the literal is among its values, and how many values were compared, up to it.
#[derive(Clone, Copy, Debug, PartialEq, Eq)]
struct Found {
    place: Option<Place>,
    compared: u64,
}

// What comes before ROOM: what the body states, what the block has, and how many values were compared in all.
#[derive(Clone, Copy, Debug, PartialEq, Eq)]
struct Located {
    summary: Summary,
    found: Found,
    compared: u64,
}

// An accepted lookup: the record of its answer, and how many values were compared.
#[derive(Clone, Copy, Debug, PartialEq, Eq)]
struct Accepted {
    said: Record,
    compared: u64,
}

// What a lookup reads: a body, the type of its values, the literal, and the table of the directory's entries.
#[derive(Clone, Copy, Debug)]
struct Reader<'a> {
    body: &'a [u8],
    t: u32,
    literal: &'a [u8],
    table: &'a [u32],
}

impl Reader<'_> {
    // The entry of the directory at a position of any bytes.
    #[tactic(auto, unfolding(refusal::specs::Reading::and_then, crate::specs::Reading::entry_read, stored_value::specs::Reading::value_of))]
    fn listing_at(self, at: Position) -> Result<Listing, Refusal>
        ensures { ListedAt self.entry.t self.entry.body.now at.0 result }
    {
        let end = dictionary::value_end(self.body, self.t, at)?;
        if self.body.len() - end.0 < WORD {
            return Err(Refusal::Short);
        }
        Ok(Listing {
            end,
            offset: numbers::be::<4>(self.body, end),
        })
    }

    // Where the directory ends: behind its last entry, and without blocks where it would begin.
    #[tactic(auto, unfolding(refusal::specs::Reading::and_then, crate::specs::Reading::entry_for, crate::specs::Reading::behind_directory))]
    fn directory_end(self, fields: Fields) -> Result<Position, Refusal>
        requires { (fields.blocks ≤ length self.table.now) × (fields.directory.0 ≤ length self.body.now) }
        ensures { EndIs self.entry.t self.entry.table.now self.entry.body.now fields result }
    {
        if fields.blocks == 0 {
            return Ok(fields.directory);
        }
        let last = (fields.blocks - 1) as usize;
        let listing = self.listing_at(Position(self.table[last] as usize))?;
        Ok(Position(listing.end.0 + WORD))
    }

    // The body offset behind the directory, which must not be past the body's end.
    #[tactic(auto, unfolding(refusal::specs::Reading::and_then))]
    fn base(self, fields: Fields) -> Result<Base, Refusal>
        requires { (fields.blocks ≤ length self.table.now) × (fields.directory.0 ≤ length self.body.now) }
        ensures { BaseIs self.entry.t self.entry.table.now self.entry.body.now fields result }
    {
        let end = self.directory_end(fields)?;
        if self.body.len() - end.0 < WORD {
            return Err(Refusal::Short);
        }
        let offset = numbers::be::<4>(self.body, end);
        let base = end.0 + WORD;
        let room = (self.body.len() - base) as u64;
        if room < offset {
            return Err(Refusal::Dict);
        }
        Ok(Base {
            base: Position(base),
            region: Position(base + offset as usize),
        })
    }

    // Whether a block with this first value begins above the literal.
    fn begins_above(self, first: &[u8]) -> bool
        ensures { result ≡ less self.entry.t self.entry.literal.now first.now }
    {
        stored_value::less(self.t, self.literal, first)
    }

    // Halves the directory: `many` blocks from `low` on are in doubt, and the one in the middle is compared with the literal. A loop of its own, and no search of
    // the library, since `compared` counts the steps of a definition (`halving`), and a step may refuse.
    fn halve(self, blocks: u64) -> Result<Halving, Refusal>
        requires { blocks ≤ length self.table.now }
        ensures { HalvedIs self.entry.t self.entry.literal.now self.entry.table.now self.entry.body.now blocks result }
    {
        let mut low: u64 = 0;
        let mut many = blocks;
        let mut offset: u64 = 0;
        let mut compared: u64 = 0;
        while 0 < many {
            let half = many / 2;
            let middle = low + half;
            let start = self.table[middle as usize] as usize;
            let listing = self.listing_at(Position(start))?;
            compared += 1;
            if self.begins_above(&self.body[start..listing.end.0]) {
                many = half;
            } else {
                low = middle + 1;
                many = many - half - 1;
                offset = listing.offset;
            }
        }
        Ok(Halving {
            below: low,
            offset,
            compared,
        })
    }

    // The n entries of a block from `at` on, up to the one whose value is the literal.
    fn search_entries(self, n: u64, at: Position) -> Result<Found, Refusal>
        requires { at.0 ≤ length self.body.now }
        ensures { SearchedFrom self.entry.t self.entry.literal.now n self.entry.body.now at.0 result }
    {
        let mut start = at.0;
        for before in 0..n {
            let end = dictionary::value_end(self.body, self.t, Position(start))?;
            if self.body.len() - end.0 < TWO_WORDS {
                return Err(Refusal::Short);
            }
            if end.0 - start == self.literal.len() {
                if numbers::same(&self.body[start..end.0], self.literal) {
                    return Ok(Found {
                        place: Some(Place {
                            offset: dictionary::offset_at(self.body, end),
                            extent: numbers::be::<4>(self.body, Position(end.0 + WORD)),
                        }),
                        compared: before + 1,
                    });
                }
                // The same position as below: here the next entry doesn't wait until this one's length is read.
                start = start + self.literal.len() + TWO_WORDS;
            } else {
                start = end.0 + TWO_WORDS;
            }
        }
        Ok(Found {
            place: None,
            compared: n,
        })
    }

    // The block at a position: its entry number, then its entries.
    fn search_block(self, at: Position) -> Result<Found, Refusal>
        ensures { SearchedAt self.entry.t self.entry.literal.now self.entry.body.now at.0 result }
    {
        if self.body.len().saturating_sub(at.0) < WORD {
            return Err(Refusal::Short);
        }
        let n = numbers::be::<4>(self.body, at);
        if n < 1 || numbers::SIGN_BIT <= n {
            return Err(Refusal::Dict);
        }
        self.search_entries(n, Position(at.0 + WORD))
    }

    // The last of the `below` blocks that begin at or below the literal, whose offset counts from base; none is read where there is none.
    fn search_below(self, base: Position, below: u64, offset: u64) -> Result<Found, Refusal>
        requires { (base.0 ≤ limit) × (offset < four_bytes) }
        ensures { BlockAt self.entry.t self.entry.literal.now self.entry.body.now base.0 below offset result }
    {
        if below == 0 {
            return Ok(Found {
                place: None,
                compared: 0,
            });
        }
        self.search_block(Position(base.0 + offset as usize))
    }

    // All that comes before the field's ROOM.
    #[tactic(auto, unfolding(refusal::specs::Reading::check, refusal::specs::Reading::and_then, crate::specs::Reading::sought))]
    fn seek(self) -> Result<Located, Refusal>
        requires { length self.body.now ≤ limit }
        ensures { SoughtIs self.entry.t self.entry.literal.now self.entry.table.now self.entry.body.now result }
    {
        let fields = opening::front(self.body)?;
        if (self.table.len() as u64) < fields.blocks {
            return Err(Refusal::Room);
        }
        let Base { base, region } = self.base(fields)?;
        let halving = self.halve(fields.blocks)?;
        let found = self.search_below(base, halving.below, halving.offset)?;
        Ok(Located {
            // what the body states of itself, in the form that `place_null` takes; its entries were not walked
            summary: Summary {
                rows: fields.rows,
                values: fields.values,
                version: Version::Two,
                null: fields.null,
                first: Cursor { at: base, left: 0 },
                region,
            },
            found,
            compared: halving.compared + found.compared,
        })
    }
}

// How many rows null has, counted in a field that is clear, which is clear then too.
fn null_rows(field: &mut [u8], body: &[u8], summary: Summary) -> Result<u64, Refusal>
    requires { (summary.region.0 ≤ length body.now) × (size summary.rows ≤ length field.old) × (cleared summary.rows field.old ≡ field.old) }
    ensures { CountsNull body.now summary field.old field.new result }
{
    // no pass over the field is made where null has no entry
    if summary.null.is_none() {
        return Ok(0);
    }
    let placed = bitmap_index::place_null(field, body, summary, bitmap_index::COUNT_NULLS);
    row_field::clear(field, summary.rows);
    placed
}

// Places the rows of the entry that was found, if one was, and says how many they are. Its number is that in its block.
fn place_found(
    field: &mut [u8],
    body: &[u8],
    summary: Summary,
    found: Found,
) -> Result<u64, Refusal>
    requires { (summary.region.0 ≤ length body.now) × (size summary.rows ≤ length field.old) }
    ensures { (v : List ℕ) → PlacesFound v body.now summary found field.old field.new result }
{
    let Some(place) = found.place else {
        return Ok(0);
    };
    let region = summary.region.0;
    let number = found.compared;
    bitmap_index::place_at::<true>(
        field,
        &body[region..],
        place.offset,
        place.extent,
        summary.rows,
        number,
    )
}

// How many rows match: a count of ones in the field, which is clear where none was placed.
fn matched_rows(field: &[u8], rows: u64, placed: u64) -> u64
    requires { placed ≡ count field.now rows }
    ensures { result ≡ count field.now rows }
{
    if placed == 0 {
        return 0;
    }
    row_field::count(field, rows)
}

// Answers in a field that has room: null's rows are counted in it, then those of the entry found are marked.
#[tactic(auto, unfolding(refusal::specs::Reading::and_then, crate::specs::Reading::looked_in, crate::specs::Reading::looked_buffer))]
fn answer_in(field: &mut [u8], body: &[u8], located: Located) -> Result<Accepted, Refusal>
    requires { (located.summary.region.0 ≤ length body.now) × (size located.summary.rows ≤ length field.old) }
    ensures { AnswersIn body.now located field.old field.new result }
{
    let rows = located.summary.rows;
    row_field::clear(field, rows);
    let nulls = null_rows(field, body, located.summary)?;
    match place_found(field, body, located.summary, located.found) {
        Err(why) => {
            row_field::clear(field, rows);
            Err(why)
        }
        Ok(placed) => {
            let matched = matched_rows(field, rows, placed);
            Ok(Accepted {
                said: Record {
                    rows,
                    nulls,
                    deleted: 0,
                    matched,
                },
                compared: located.compared,
            })
        }
    }
}

// The stages of a lookup: the question, what comes before ROOM, ROOM, then the answer.
#[tactic(auto, unfolding(refusal::specs::Reading::check, refusal::specs::Reading::and_then, crate::specs::Reading::lookable, crate::specs::Reading::looked_up, crate::specs::Reading::looked_buffer, crate::specs::Reading::refused_buffer, crate::specs::Reading::look_up_buffer))]
fn looked_up(
    body: &[u8],
    t: u32,
    edition: u32,
    literals: &[u8],
    table: &[u32],
    field: &mut [u8],
) -> Result<Accepted, Refusal>
    ensures { LooksUp t edition literals.now table.now body.now field.old field.new result }
{
    let question = Question {
        edition,
        name: bitmap_index::EQUAL,
    };
    bitmap_index::test_question(body, t, question, literals)?;
    let reader = Reader {
        body,
        t,
        literal: literals,
        table,
    };
    let located = reader.seek()?;
    if !row_field::has_room(field, located.summary.rows) {
        return Err(Refusal::Room);
    }
    answer_in(field, body, located)
}

/// A lookup: the answer of Ask's EQUAL, if Open accepted the body as this type and left the table so. Of any other bytes it is that of the same steps. A refusal
/// up to and at ROOM leaves the buffer as it was, and a later one the field zero.
#[tactic(auto, unfolding(refusal::specs::Reading::and_then, refusal::specs::Reading::numbers_of, refusal::specs::Reading::fault_in, crate::specs::Reading::answer_of, crate::specs::Reading::compared_of, bitmap_index::specs::Reading::answered_by, bitmap_index::specs::Reading::ask_out, bitmap_index::specs::Reading::ask_fault, subtract::specs::Meaning::said_of))]
pub fn look_up(
    body: &[u8],
    t: u32,
    edition: u32,
    literals: &[u8],
    table: &[u32],
    field: &mut [u8],
) -> LookedUp
    ensures { LookUpPromise t edition literals.now table.now body.now field.old field.new result }
{
    match looked_up(body, t, edition, literals, table, field) {
        Err(why) => LookedUp {
            answer: Err(why),
            compared: 0,
        },
        Ok(accepted) => LookedUp {
            answer: Ok(Answer::of(accepted.said)),
            compared: accepted.compared,
        },
    }
}
