// Names: whether one may be asked for, and whether a stored one is the asked one. A caller's name is standard UTF-8, a stored one Java's
// modified UTF-8. No form of a name is written anywhere: each code point of the asked name is compared as it is read.
#![tactic(auto)]

ghost use Rattle.std.specs.Prelude.{◌≡◌, ◌++◌, ◌+◌, ◌<◌, ◌≤◌, length, MatchOption};
ghost use Rattle.names.specs.Layout.{in_two_bytes, in_three_bytes, high_of, low_of, past_plane, modified_of};
ghost use Rattle.names.specs.Reading.{continued, is_scalar};
ghost use Rattle.names.specs.Reading as reading;
ghost use Rattle.names.specs.Promises.{Refuses, Reads, BeginsWith, BeginsWithNone, SizeIs, form_stands_at};

use numbers::Position;
use std::str;

// The least first half of a pair of surrogates, the least second half, the first code point behind the surrogates, and one past the last.
const FIRST_HIGH: u64 = 0xD800;

const FIRST_LOW: u64 = 0xDC00;

const PAST_SURROGATES: u64 = 0xE000;

const PAST_LAST: u64 = 0x110000;

// Below these a code point has one byte, two and three in standard UTF-8.
const PAST_ONE_BYTE: u64 = 0x80;

const PAST_TWO_BYTES: u64 = 0x800;

const PAST_PLANE: u64 = 0x10000;

// The least byte of each kind: continuation bytes, and the lead bytes of two, three and four bytes; and one past the last of those.
const CONTINUATION: u64 = 0x80;

const LEAD_OF_TWO: u64 = 0xC0;

const LEAD_OF_THREE: u64 = 0xE0;

const LEAD_OF_FOUR: u64 = 0xF0;

const PAST_LEADS: u64 = 0xF8;

// One past the greatest number of six bits, which a continuation byte has, of twelve, which two have, and of ten, which a surrogate has.
const SIX_BITS: u64 = 64;

const TWELVE_BITS: u64 = 4096;

const TEN_BITS: u64 = 1024;

// How many bytes zero has, and a code point above FFFF, in modified form.
const ZERO_SIZE: usize = 2;

const PAIR_SIZE: usize = 6;

/// The most bytes that a name may have in modified form.
pub const NAME_LIMIT: usize = 65_535;

// ---- Standard UTF-8. Each of these answers a value that is read off the front of the bytes, and what is left; none where the bytes are none

// The value of the bits `lead` and of n continuation bytes.
fn continued(s: &[u8], n: usize, lead: u64) -> Option<(u64, &[u8])>
    requires { (n < 4) × (lead < 64) }
    ensures { MatchOption result (Refuses (continued n lead) s.now) (λ p. Reads (continued n lead) p.0 p.1.now s.now) }
{
    let mut value = lead;
    let mut rest = s;
    for _ in 0..n {
        let (&b, left) = rest.split_first()?;
        let b = u64::from(b);
        if b < CONTINUATION {
            return None;
        }
        if LEAD_OF_TWO <= b {
            return None;
        }
        value = value * SIX_BITS + (b - CONTINUATION);
        rest = left;
    }
    Some((value, rest))
}

// Whether it is a code point and no surrogate.
#[tactic(auto, using(crate::proofs::Decoding::scalar_below, crate::proofs::Decoding::scalar_behind, crate::proofs::Decoding::scalar_surrogate))]
fn is_scalar(value: u64) -> bool
    ensures { result ≡ is_scalar value }
{
    value < FIRST_HIGH || (PAST_SURROGATES <= value && value < PAST_LAST)
}

// The code point of the bits `lead` and of n continuation bytes. One below `least` has a shorter form, which is then the only one.
fn longer(s: &[u8], n: usize, least: u64, lead: u64) -> Option<(u64, &[u8])>
    requires { (n < 4) × (lead < 64) }
    ensures { MatchOption result (Refuses (reading.longer n least lead) s.now) (λ p. Reads (reading.longer n least lead) p.0 p.1.now s.now) }
{
    let (value, left) = continued(s, n, lead)?;
    if value < least {
        return None;
    }
    if !is_scalar(value) {
        return None;
    }
    Some((value, left))
}

// The first code point.
fn first_point(s: &[u8]) -> Option<(u64, &[u8])>
    ensures { MatchOption result (BeginsWithNone s.now) (λ p. BeginsWith p.0 p.1.now s.now) }
{
    let (&lead, left) = s.split_first()?;
    let lead = u64::from(lead);
    if lead < PAST_ONE_BYTE {
        return Some((lead, left));
    }
    if lead < LEAD_OF_TWO {
        return None;
    }
    if lead < LEAD_OF_THREE {
        return longer(left, 1, PAST_ONE_BYTE, lead - LEAD_OF_TWO);
    }
    if lead < LEAD_OF_FOUR {
        return longer(left, 2, PAST_TWO_BYTES, lead - LEAD_OF_THREE);
    }
    if lead < PAST_LEADS {
        return longer(left, 3, PAST_PLANE, lead - LEAD_OF_FOUR);
    }
    None
}

// ---- Modified UTF-8

// How many bytes a code point has in this form.
#[tactic(auto, unfolding(crate::specs::Layout::modified_of, crate::specs::Layout::standard_of))]
fn modified_size(value: u64) -> usize
    ensures { (result ≡ length (modified_of value)) × (result ≤ 6) }
{
    if value == 0 {
        return ZERO_SIZE;
    }
    if value < PAST_ONE_BYTE {
        return 1;
    }
    if value < PAST_TWO_BYTES {
        return 2;
    }
    if value < PAST_PLANE {
        return 3;
    }
    PAIR_SIZE
}

// Whether the two bytes of a value stand at `at`.
#[tactic(auto, using(crate::proofs::Steps::stands_two))]
fn two_at(s: &[u8], at: Position, value: u64) -> bool
    requires { at.0 + 2 ≤ length s.now }
    ensures { result ≡ form_stands_at (in_two_bytes value) at s.now }
{
    numbers::byte(s, at) == LEAD_OF_TWO + value / SIX_BITS
        && numbers::byte(s, Position(at.0 + 1)) == CONTINUATION + value % SIX_BITS
}

// Whether the three bytes of a value stand at `at`.
#[tactic(auto, using(crate::proofs::Steps::stands_three))]
fn three_at(s: &[u8], at: Position, value: u64) -> bool
    requires { at.0 + 3 ≤ length s.now }
    ensures { result ≡ form_stands_at (in_three_bytes value) at s.now }
{
    numbers::byte(s, at) == LEAD_OF_THREE + value / TWELVE_BITS
        && numbers::byte(s, Position(at.0 + 1)) == CONTINUATION + value / SIX_BITS % SIX_BITS
        && numbers::byte(s, Position(at.0 + 2)) == CONTINUATION + value % SIX_BITS
}

// Whether the two surrogates of a code point above FFFF stand at `at`.
fn pair_at(s: &[u8], at: Position, value: u64) -> bool
    requires { (at.0 + 6 ≤ length s.now) × (past_plane ≤ value) }
    ensures { result ≡ form_stands_at (in_three_bytes (high_of value) ++ in_three_bytes (low_of value)) at s.now }
{
    let above = value - PAST_PLANE;
    three_at(s, at, FIRST_HIGH + above / TEN_BITS)
        && three_at(s, Position(at.0 + 3), FIRST_LOW + above % TEN_BITS)
}

// Whether a code point stands at `at`, where there are bytes enough for it.
#[tactic(auto, using(crate::proofs::Steps::stands_one), unfolding(crate::specs::Layout::modified_of, crate::specs::Layout::standard_of))]
fn modified_at(s: &[u8], at: Position, value: u64) -> bool
    requires { at.0 + length (modified_of value) ≤ length s.now }
    ensures { result ≡ form_stands_at (modified_of value) at s.now }
{
    if value == 0 {
        return two_at(s, at, value);
    }
    if value < PAST_ONE_BYTE {
        return numbers::byte(s, at) == value;
    }
    if value < PAST_TWO_BYTES {
        return two_at(s, at, value);
    }
    if value < PAST_PLANE {
        return three_at(s, at, value);
    }
    pair_at(s, at, value)
}

// ---- Names

/// How many bytes an asked name has in modified form; none where they are more than NAME_LIMIT, and where it isn't standard UTF-8: such a name may not be asked for.
#[tactic(auto, using(crate::proofs::Text::size_other))]
pub fn asked_size(asked: &[u8]) -> Option<usize>
    ensures { SizeIs asked.now result }
{
    // In modified form it has no fewer bytes.
    if NAME_LIMIT < asked.len() {
        return None;
    }
    let Ok(text) = str::from_utf8(asked) else {
        return None;
    };
    let mut size = 0;
    for c in text.chars() {
        size += modified_size(u64::from(c));
        if NAME_LIMIT < size {
            return None;
        }
    }
    Some(size)
}

/// Whether the stored name is the asked one. It ends at the first code point that differs, so that it takes no longer than the stored name is.
pub fn matches(asked: &[u8], stored: &[u8]) -> bool
    ensures { result ≡ reading.matches asked.now stored.now }
{
    // In modified form the asked name has no fewer bytes.
    if stored.len() < asked.len() {
        return false;
    }
    let mut rest = asked;
    let mut q = 0;
    while !rest.is_empty() {
        let Some((value, left)) = first_point(rest) else {
            return false;
        };
        let size = modified_size(value);
        if stored.len() - q < size {
            return false;
        }
        if !modified_at(stored, Position(q), value) {
            return false;
        }
        q += size;
        rest = left;
    }
    q == stored.len()
}
