// Little-endian numbers in a slice of bytes, and pairs: where a part of the slice starts, and how long it is. Bytes past the end are 0.
#![tactic(auto)]

ghost use Rattle.std.specs.Prelude.{◌≡◌, drop};
ghost use Rattle.words.specs.Words.{word};
ghost use Rattle.words.specs.Pairs.{pair_in, part_by, part_of};

// Bytes of a pair.
pub const PAIR_SIZE: usize = 4;

// A u16 offset and a u16 length.
#[derive(Clone, Copy, Debug, PartialEq, Eq)]
pub struct Pair {
    pub offset: usize,
    pub len: usize,
}

// The bytes from `at` on.
fn from(s: &[u8], at: usize) -> &[u8]
    ensures { result.now ≡ drop at s.now }
{
    s.get(at..).unwrap_or(&[])
}

// The u16 at `at`.
pub fn u16_at(s: &[u8], at: usize) -> u16
    ensures { result ≡ word 2 (drop at s.now) }
{
    u16_in(from(s, at))
}

// The u16 at the front.
#[tactic(auto, using(crate::proofs::Bytes::word_cases))]
fn u16_in(s: &[u8]) -> u16
    ensures { result ≡ word 2 s.now }
{
    match s {
        [] => 0,
        [low] => u16::from(*low),
        [low, high, ..] => u16::from_le_bytes([*low, *high]),
    }
}

// The u32 at `at`.
pub fn u32_at(s: &[u8], at: usize) -> u32
    ensures { result ≡ word 4 (drop at s.now) }
{
    u32_in(from(s, at))
}

// The u32 at the front.
#[tactic(auto, using(crate::proofs::Bytes::word_cases))]
fn u32_in(s: &[u8]) -> u32
    ensures { result ≡ word 4 s.now }
{
    match s {
        [a, b, c, d, ..] => u32::from_le_bytes([*a, *b, *c, *d]),
        _ => u32::from(u16_in(s)) + u32::from(u16_at(s, 2)) * 0x1_0000,
    }
}

// The pair at `at`.
pub fn pair_at(s: &[u8], at: usize) -> Pair
    ensures { result ≡ pair_in (drop at s.now) }
{
    let s = from(s, at);
    Pair {
        offset: usize::from(u16_in(s)),
        len: usize::from(u16_at(s, 2)),
    }
}

// The bytes that a pair names: a part of the slice, cut where it ends.
pub fn part_of(s: &[u8], pair: Pair) -> &[u8]
    ensures { result.now ≡ part_by s.now pair }
{
    let s = from(s, pair.offset);
    s.get(..pair.len).unwrap_or(s)
}

// The bytes that the pair at `at` names.
pub fn part_at(s: &[u8], at: usize) -> &[u8]
    ensures { result.now ≡ part_of s.now (drop at s.now) }
{
    part_of(s, pair_at(s, at))
}
