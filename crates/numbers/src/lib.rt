// Integers of up to 8 bytes at a position of a slice, in both byte orders; and whether bytes are the same.
#![tactic(auto)]

ghost use Rattle.std.specs.Prelude.{◌≡◌, ◌+◌, ◌^◌, ◌<◌, ◌≤◌, length, get_or};
ghost use Rattle.numbers.specs.Meaning.{be_at, le_at, signed32};
ghost use Rattle.numbers.specs.Meaning as meaning;

/// The least number of 32 bits whose top bit is set: read as signed, it and those above are negative.
pub const SIGN_BIT: u64 = 2_147_483_648;

/// -1 as 32 bits.
pub const MINUS_ONE: u64 = 4_294_967_295;

/// A byte position in a buffer: a kind of its own, which no row number can stand in for.
#[derive(Clone, Copy, Debug, PartialEq, Eq, PartialOrd, Ord, Hash)]
pub struct Position(pub usize);

/// A row number: a kind of its own, which no byte position can stand in for.
#[derive(Clone, Copy, Debug, PartialEq, Eq, PartialOrd, Ord, Hash)]
pub struct Row(pub u64);

// Each reader below `requires` that its bytes are there: whoever calls has just tested that, and none hands a caller's position on untested.

/// The byte at a position.
pub fn byte(s: &[u8], at: Position) -> u64
    requires { at.0 < length s.now }
    ensures { (result ≡ get_or s.now at.0 0) × (result < 256) }
{
    u64::from(s[at.0])
}

/// The number of `N` bytes at a position, the first of the least weight (little-endian).
pub fn le<const N: usize>(s: &[u8], at: Position) -> u64
    requires fits { N ≤ 8 }
    requires there { at.0 + N ≤ length s.now }
    ensures value { result ≡ le_at N s.now at.0 }
    ensures below { result < 256 ^ N }
{
    // Each byte at its own place, and not 256 times what is there and one more: of eight bytes the compiler then makes one load.
    let mut x = 0;
    for i in 0..N {
        x += u64::from(s[at.0 + i]) << (8 * i);
    }
    x
}

/// The number of `N` bytes at a position, the first of the greatest weight (big-endian).
pub fn be<const N: usize>(s: &[u8], at: Position) -> u64
    requires fits { N ≤ 8 }
    requires there { at.0 + N ≤ length s.now }
    ensures value { result ≡ be_at N s.now at.0 }
    ensures below { result < 256 ^ N }
{
    let mut x = 0;
    for i in 0..N {
        x = x * 256 + u64::from(s[at.0 + i]);
    }
    x
}

/// Two's complement: the signed number that the 32 bits of x hold.
pub fn to_signed(x: u32) -> i32
    ensures { result ≡ signed32 x }
{
    x.cast_signed()
}

// The bytes that are compared at once, where there are that many.
const WORD: usize = 8;

// The same, for fewer than WORD.
const HALF: usize = 4;

// The last word may overlap the one before, here and in `same_halves`. Here it is compared first: names often differ in their last bytes alone.
#[inline]
fn same_words(a: &[u8], b: &[u8]) -> bool
    requires { (length a.now ≡ length b.now) × (8 ≤ length a.now) }
    ensures { result ≡ meaning.same a.now b.now }
{
    let last = a.len() - WORD;
    if le::<WORD>(a, Position(last)) != le::<WORD>(b, Position(last)) {
        return false;
    }
    for i in 0..last.div_ceil(WORD) {
        if le::<WORD>(a, Position(i * WORD)) != le::<WORD>(b, Position(i * WORD)) {
            return false;
        }
    }
    true
}

#[inline]
fn same_halves(a: &[u8], b: &[u8]) -> bool
    requires { (length a.now ≡ length b.now) × (4 ≤ length a.now) × (length a.now ≤ 8) }
    ensures { result ≡ meaning.same a.now b.now }
{
    let last = a.len() - HALF;
    if le::<HALF>(a, Position(0)) != le::<HALF>(b, Position(0)) {
        return false;
    }
    le::<HALF>(a, Position(last)) == le::<HALF>(b, Position(last))
}

/// Whether two slices have the same bytes.
// Not `a == b` throughout: for names of 4 to 64 bytes that begin alike it took 5.6 to 7.5 ns, this 0.7 to 5.6.
#[inline]
pub fn same(a: &[u8], b: &[u8]) -> bool
    ensures { result ≡ meaning.same a.now b.now }
{
    if a.len() != b.len() {
        return false;
    }
    if WORD <= a.len() {
        return same_words(a, b);
    }
    if HALF <= a.len() {
        return same_halves(a, b);
    }
    a == b
}
