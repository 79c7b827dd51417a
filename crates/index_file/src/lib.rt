// The head of an index file: where in the file the asked index of the asked column lies. Which of two buffers is looked at is chosen above.
#![tactic(auto)]

ghost use Rattle.std.specs.Prelude.{◌≡◌, ◌≤◌, true, false, length, drop, MatchResult};
ghost use Rattle.numbers.specs.Meaning.{number, big};
ghost use Rattle.refusal.specs.declared.Refusal.TheVariants.{Literal};
ghost use Rattle.names.specs.Reading.{askable, matches};
ghost use Rattle.index_file.specs.Layout.{front_size};
ghost use Rattle.index_file.specs.Reading.{count, name, place_after_entry, place_after_column, entries, columns, placed, head, file, find};
ghost use Rattle.index_file.specs.declared.Seen.{Seen};
ghost use Rattle.index_file.specs.Promises.{HasSize, Reads, refused_head};

use numbers::Position;
use refusal::Refusal;

const MAGIC: u64 = 1_493_475_289_347_502;

const VERSION: u64 = 1;

// The bytes of magic, version and head length, which stand in front, and the least head.
const FRONT_SIZE: usize = 16;

const LEAST_HEAD: usize = 24;

/// What C is told of a body that was found, beside the refusals' numbers.
pub const FOUND: u8 = 0;

/// What C is told of a column or a kind that is not listed.
pub const ABSENT: u8 = 255;

/// Where a body lies in the buffer: its first byte, and how many bytes it has.
#[derive(Clone, Copy, Debug, PartialEq, Eq)]
pub struct Part {
    pub start: Position,
    pub length: usize,
}

// A name that may be asked for, and how many bytes it has in modified form.
#[derive(Clone, Copy, Debug)]
struct AskedName<'a> {
    bytes: &'a [u8],
    size: usize,
    ghost has_size: { HasSize size bytes.now },
}

impl<'a> AskedName<'a> {
    // LITERAL where it may not be asked for.
    #[tactic(auto, unfolding(names::specs::Reading::askable))]
    fn new(bytes: &'a [u8]) -> Result<Self, Refusal>
        ensures { MatchResult result (λ name. (name.bytes.now ≡ bytes.now) × (askable bytes.now ≡ true)) (λ why. (why ≡ Literal) × (askable bytes.now ≡ false)) }
    {
        let Some(size) = names::asked_size(bytes) else {
            return Err(Refusal::Literal);
        };
        Ok(AskedName { bytes, size })
    }

    // Whether a stored name is this one. Where its bytes in modified form are as many as they are it is stored as it is, and compared by words.
    fn is(self, stored: &[u8]) -> bool
        ensures { result ≡ matches self.entry.bytes.now stored.now }
    {
        if self.bytes.len() == self.size {
            numbers::same(self.bytes, stored)
        } else {
            names::matches(self.bytes, stored)
        }
    }
}

// Where the asked kind stands, as far as the head was read: in no entry, in one; or it, or the asked column, is there twice.
#[derive(Clone, Copy, Debug, PartialEq, Eq)]
enum Seen {
    Nowhere,
    Once(Part),
    Twice,
}

impl Seen {
    // After one more entry, whose name is the asked kind's or not.
    #[tactic(auto, unfolding(crate::specs::Reading::place_after_entry))]
    fn after_entry(self, hit: bool, part: Part) -> Seen
        ensures { result ≡ place_after_entry hit part self }
    {
        if !hit {
            return self;
        }
        match self {
            Seen::Nowhere => Seen::Once(part),
            Seen::Once(_) | Seen::Twice => Seen::Twice,
        }
    }

    // After one more column, whose name is the asked one's or not, and in which the asked kind stands at `new`; `listed`: whether one before it had the name.
    #[tactic(auto, unfolding(crate::specs::Reading::place_after_column))]
    fn after_column(self, hit: bool, listed: bool, new: Seen) -> Seen
        ensures { result ≡ place_after_column hit listed new self }
    {
        if !hit {
            return self;
        }
        if listed {
            return Seen::Twice;
        }
        new
    }

    // What is answered, in a head and a file so long.
    #[tactic(auto, unfolding(refusal::specs::Reading::check, crate::specs::Reading::placed))]
    fn placed(self, head: usize, total: usize) -> Result<Option<Part>, Refusal>
        ensures { result ≡ placed head total self }
    {
        let part = match self {
            Seen::Nowhere => return Ok(None),
            Seen::Once(part) => part,
            Seen::Twice => return Err(Refusal::Head),
        };
        let start = part.start.0;
        if numbers::SIGN_BIT <= start as u64 {
            return Err(Refusal::Head);
        }
        if start < head {
            return Err(Refusal::Head);
        }
        if numbers::SIGN_BIT <= part.length as u64 {
            return Err(Refusal::Head);
        }
        if total < start + part.length {
            return Err(Refusal::Head);
        }
        Ok(Some(part))
    }
}

// What is left of a head's bytes, so that a field that passes the head finds too few.
#[derive(Clone, Copy, Debug)]
struct Fields<'a> {
    rest: &'a [u8],
}

impl<'a> Fields<'a> {
    // A number of N bytes.
    #[tactic(auto, using(crate::proofs::Steps::number_short, crate::proofs::Steps::number_read))]
    fn number<const N: usize>(&mut self) -> Result<u64, Refusal>
        requires { N ≤ 8 }
        ensures { Reads (λ x. x) (number big N refused_head self.old.rest.now) result self.new.rest.now }
    {
        if self.rest.len() < N {
            return Err(Refusal::Head);
        }
        let x = numbers::be::<N>(self.rest, Position(0));
        self.rest = &self.rest[N..];
        Ok(x)
    }

    // A number of four bytes that is not negative.
    #[tactic(auto, unfolding(refusal::specs::Reading::check, crate::specs::Reading::count))]
    fn count(&mut self) -> Result<u64, Refusal>
        ensures { Reads (λ x. x) (count self.old.rest.now) result self.new.rest.now }
    {
        let v = self.number::<4>()?;
        if numbers::SIGN_BIT <= v {
            return Err(Refusal::Head);
        }
        Ok(v)
    }

    // A name: its length in two bytes, and its bytes.
    #[tactic(auto, unfolding(refusal::specs::Reading::check, crate::specs::Reading::name))]
    fn name(&mut self) -> Result<&'a [u8], Refusal>
        ensures { Reads (λ x. x.now) (name self.old.rest.now) result self.new.rest.now }
    {
        let n = self.number::<2>()? as usize;
        let rest = self.rest;
        if rest.len() < n {
            return Err(Refusal::Head);
        }
        self.rest = &rest[n..];
        Ok(&rest[..n])
    }

    // The n entries of one column.
    fn entries(&mut self, n: u64, kind: AskedName<'_>) -> Result<Seen, Refusal>
        ensures { Reads (λ x. x) (entries (matches kind.entry.bytes.now) n Seen.Nowhere self.old.rest.now) result self.new.rest.now }
    {
        let mut seen = Seen::Nowhere;
        for _ in 0..n {
            let stored = self.name()?;
            let start = Position(self.number::<4>()? as usize);
            let length = self.number::<4>()? as usize;
            seen = seen.after_entry(kind.is(stored), Part { start, length });
        }
        Ok(seen)
    }

    // The n columns.
    fn columns(
        &mut self,
        n: u64,
        column: AskedName<'_>,
        kind: AskedName<'_>,
    ) -> Result<Seen, Refusal>
        ensures { Reads (λ x. x)
            (columns (matches column.entry.bytes.now) (matches kind.entry.bytes.now) n false Seen.Nowhere self.old.rest.now) result self.new.rest.now }
    {
        let mut seen = Seen::Nowhere;
        let mut listed = false;
        for _ in 0..n {
            let stored = self.name()?;
            let count = self.count()?;
            let new = self.entries(count, kind)?;
            let hit = column.is(stored);
            seen = seen.after_column(hit, listed, new);
            listed |= hit;
        }
        Ok(seen)
    }
}

// The whole head, of which the column number is the next field, in a file so long.
#[tactic(auto, unfolding(refusal::specs::Reading::check, crate::specs::Reading::head))]
fn read_head(
    bytes: &[u8],
    total: usize,
    column: AskedName<'_>,
    kind: AskedName<'_>,
) -> Result<Option<Part>, Refusal>
    requires { front_size ≤ length bytes.now }
    ensures { result ≡ head (matches column.entry.bytes.now) (matches kind.entry.bytes.now) (length bytes.now) total (drop front_size bytes.now) }
{
    let mut fields = Fields {
        rest: &bytes[FRONT_SIZE..],
    };
    let columns = fields.count()?;
    let seen = fields.columns(columns, column, kind)?;
    let redundant = fields.count()?;
    if redundant as usize != fields.rest.len() {
        return Err(Refusal::Head);
    }
    seen.placed(bytes.len(), total)
}

// The file from its magic on; it is not SHORT.
#[tactic(auto, unfolding(refusal::specs::Reading::check, numbers::specs::Meaning::number, crate::specs::Reading::file))]
fn read_file(
    bytes: &[u8],
    column: AskedName<'_>,
    kind: AskedName<'_>,
) -> Result<Option<Part>, Refusal>
    requires { front_size ≤ length bytes.now }
    ensures { result ≡ file (matches column.entry.bytes.now) (matches kind.entry.bytes.now) bytes.now }
{
    let magic = numbers::be::<8>(bytes, Position(0));
    let version = numbers::be::<4>(bytes, Position(8));
    if magic != MAGIC {
        return Err(Refusal::Magic);
    }
    if version != VERSION {
        return Err(Refusal::Version);
    }
    let mut fields = Fields { rest: &bytes[12..] };
    let n = fields.count()? as usize;
    if n < LEAST_HEAD {
        return Err(Refusal::Head);
    }
    if bytes.len() < n {
        return Err(Refusal::Head);
    }
    read_head(&bytes[..n], bytes.len(), column, kind)
}

/// Where the body of the asked kind of the asked column lies in an index file; none where the column or the kind is not listed. The names are looked at before
/// the file, but after the limits on all three.
#[tactic(auto, using(crate::proofs::Laws::file_short), unfolding(refusal::specs::Reading::check, crate::specs::Reading::within_limits, crate::specs::Reading::find))]
pub fn find(bytes: &[u8], column: &[u8], kind: &[u8]) -> Result<Option<Part>, Refusal>
    ensures { result ≡ find bytes.now column.now kind.now }
{
    if refusal::LIMIT < bytes.len() as u64 {
        return Err(Refusal::Limit);
    }
    if refusal::LIMIT < column.len() as u64 {
        return Err(Refusal::Limit);
    }
    if refusal::LIMIT < kind.len() as u64 {
        return Err(Refusal::Limit);
    }
    let column = AskedName::new(column)?;
    let kind = AskedName::new(kind)?;
    if bytes.len() < FRONT_SIZE {
        return Err(Refusal::Short);
    }
    read_file(bytes, column, kind)
}
