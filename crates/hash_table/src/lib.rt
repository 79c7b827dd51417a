// Finds a value among values that stand in a byte slice, by chains of equal hashes. One lent array of numbers holds all: it needs no heap, and the caller
// says how many values it has room for. A hash that many values share makes it slow and not wrong.
#![tactic(auto)]

ghost use Rattle.std.specs.Prelude.{◌≡◌, ◌+◌, ◌<◌, ◌≤◌, length};
ghost use Rattle.numbers.specs.Meaning.{four_bytes};
ghost use Rattle.hash_table.specs.Promises.{chains, slot, mixed, hash_of, put, HoldsSome, Finds, Fits, Inserts};

use numbers::Position;

/// Of each of so many hashes, the table's first numbers have the last value.
pub const CHAINS: usize = 4096;

/// Then three numbers of each value: the one before it of the same hash, where it starts, and where it ends.
pub const NUMBERS: usize = 3;

// Odd, and 2^32 divided by the golden ratio: numbers that lie side by side are spread.
const FACTOR: u32 = 2_654_435_761;

// The highest twelve bits, which are mixed best, are left of it: one of the chains.
const LOW_BITS: u32 = 1_048_576;

fn mix(h: u32, x: u32) -> u32
    ensures { result ≡ mixed h x }
{
    h.wrapping_add(x).wrapping_mul(FACTOR)
}

// Four bytes at a time, then those that are left one by one.
fn hash(v: &[u8]) -> usize
    ensures { (result ≡ hash_of v.now) × (result < chains) }
{
    let (words, bytes) = v.as_chunks::<4>();
    let mut h = 0;
    for word in words {
        h = mix(h, u32::from_le_bytes(*word));
    }
    for byte in bytes {
        h = mix(h, u32::from(*byte));
    }
    (h / LOW_BITS) as usize
}

// Whether the table holds v, whose hash is h: from the last value of that hash to the ones before it. A chain of numbers in the lent table, since there is no heap
// for a map; so the walk follows it, and counts nothing that a `for` could go over.
fn found(s: &[u8], table: &[u32], v: &[u8], h: usize) -> bool
    requires { (h < chains) × (h ≡ hash_of v.now) × HoldsSome s.now table.now }
    ensures { Finds s.now table.now v.now result }
{
    let mut at = table[h] as usize;
    while at != 0 {
        let p = CHAINS + NUMBERS * (at - 1);
        let a = table[p + 1] as usize;
        let e = table[p + 2] as usize;
        if numbers::same(v, &s[a..e]) {
            return true;
        }
        at = table[p] as usize;
    }
    false
}

// Puts value n, whose hash is h, in front of its chain.
#[tactic(auto, unfolding(crate::specs::Promises::put))]
fn put_in_front(table: &mut [u32], n: usize, h: usize, start: usize, end: usize)
    requires { (h < chains) × (slot (n + 1) ≤ length table.old) × (n + 1 < four_bytes) × (start < four_bytes) × (end < four_bytes) }
    ensures { table.new ≡ put table.old n h start end }
{
    let p = CHAINS + NUMBERS * n;
    table[p] = table[h];
    table[p + 1] = start as u32;
    table[p + 2] = end as u32;
    table[h] = (n + 1) as u32;
}

/// Whether a table over s holds the value v.
pub fn find(s: &[u8], table: &[u32], v: &[u8]) -> bool
    requires { HoldsSome s.now table.now }
    ensures { Finds s.now table.now v.now result }
{
    found(s, table, v, hash(v))
}

/// Inserts the value from start to end into a table of n values over s, and answers whether it was there already.
pub fn insert(s: &[u8], table: &mut [u32], n: u64, start: Position, end: Position) -> bool
    requires { Fits s.now table.old n start.0 end.0 }
    ensures { Inserts s.now table.old table.new n start.0 end.0 result }
{
    let v = &s[start.0..end.0];
    let h = hash(v);
    if found(s, table, v, h) {
        return true;
    }
    put_in_front(table, n as usize, h, start.0, end.0);
    false
}
