// Rust's helpers on f32 that the language lacks (paper 01, part 1), worked out by tests and from the bits.
#![tactic(auto)]

ghost use Rattle.std.specs.Prelude.{◌≡◌, ◌*◌, ◌/◌, ◌%◌, ◌^◌, ◌<◌, ◌≤◌, true};
ghost use Rattle.std.specs.Float.Ieee as Ieee;
ghost use Rattle.std.specs.Float.Ieee.Nearest.{closest};
ghost use lib.Ieee.Exact.{HasValue};
ghost use Rattle.float32.specs.Helpers.{max_f, min_f, clamp_f, finite_f, infinity_f, from_u32, to_u32, from_bits, to_bits};

mod parts;

use parts::{LEADING, Pattern, SIGN, Scaled};

// `a.max(b)`: a NaN operand gives the other one, equal operands the first. This and `min` are tests of our own, since core's may give
// either of two that compare equal, as the zeros.
#[tactic(auto, unfolding(crate::specs::Helpers::max_f))]
pub fn max(a: f32, b: f32) -> f32
    ensures { result ≡ max_f a b }
{
    if a.is_nan() || a < b { b } else { a }
}

// `a.min(b)`, likewise.
#[tactic(auto, unfolding(crate::specs::Helpers::min_f))]
pub fn min(a: f32, b: f32) -> f32
    ensures { result ≡ min_f a b }
{
    if a.is_nan() || b < a { b } else { a }
}

// `x.clamp(lo, hi)`: a NaN is kept. Its two tests stand here, since core's asks that lo <= hi, and here a bound may be anything.
#[tactic(auto, unfolding(crate::specs::Helpers::clamp_f))]
pub fn clamp(x: f32, lo: f32, hi: f32) -> f32
    ensures { result ≡ clamp_f x lo hi }
{
    if x < lo {
        lo
    } else if x > hi {
        hi
    } else {
        x
    }
}

// `x.is_nan()`
pub fn is_nan(x: f32) -> bool
    ensures { result ≡ Ieee.is_nan x }
{
    x.is_nan()
}

// `x.is_finite()`: the exponent's field is not all ones. A NaN is tested first, since its bits are left open. It and the casts are
// worked out from the bits by a rule of the project, where core's are by float operations.
#[tactic(auto, using(crate::proofs::Nan::finite_nan, crate::proofs::Nan::finite_field))]
pub fn is_finite(x: f32) -> bool
    ensures { result ≡ finite_f x }
{
    !x.is_nan() && Pattern(x.to_bits()).exponent() != 255
}

// The count of n's binary digits.
#[tactic(auto, using(crate::proofs::Digits::size_leading))]
fn size(n: u32) -> u32
    ensures { result ≡ Ieee.size n }
{
    32 - n.leading_zeros()
}

// n / unit, rounded to the nearest whole number, a tie to the even one.
fn nearest(n: u32, unit: u32) -> u32
    requires { (1 < unit) × (unit ≤ 2 ^ 31) }
    ensures { result ≡ closest n unit }
{
    let kept = n / unit;
    let twice = n % unit * 2;
    if twice < unit {
        return kept;
    }
    if unit < twice {
        return kept + 1;
    }
    kept + kept % 2
}

// The 24 leading binary digits of n, which has `size` of them: 2^24 where the rounding carries.
fn significand(n: u32, size: u32) -> u32
    requires { (n < 2 ^ size) × (size ≤ 32) }
    ensures { result ≡ closest (n * 2 ^ 24) (2 ^ size) }
{
    if size <= 24 {
        return n << (24 - size);
    }
    nearest(n, 1 << (size - 24))
}

// `n as f32`, from the bits. The exponent's field is 126 + size: the significand's leading digit adds 1 of it, and a carry one more.
pub fn from_u32(n: u32) -> f32
    ensures { result ≡ from_u32 n }
{
    if n == 0 {
        return 0.0;
    }
    let size = size(n);
    f32::from_bits((125 + size) * LEADING + significand(n, size))
}

// `x as u32`, from the bits. NaN and the ends of the range come first: 0 up to -1, and the largest from 2^32 on.
pub fn to_u32(x: f32) -> u32
    ensures { result ≡ to_u32 x }
{
    if x > -1.0 {
        if x < 4294967296.0 {
            return Scaled::of(Pattern(x.to_bits())).whole();
        }
        return u32::MAX;
    }
    0
}

// `f32::INFINITY`
pub fn infinity() -> f32
    ensures { result ≡ infinity_f }
{
    f32::INFINITY
}

// `f32::from_bits`; every NaN pattern gives the NaN, where the language leaves it open.
#[tactic(auto, using(std::proofs::lemmas::Float::not_nan_f32_bits))]
pub fn from_bits(bits: u32) -> f32
    ensures { result ≡ from_bits bits }
{
    let nan = bits % SIGN > 0x7f80_0000;
    if nan {
        return f32::NAN;
    }
    f32::from_bits(bits)
}

// `f32::to_bits`; 7fc00000 for every NaN, where the language leaves it open.
#[tactic(auto, using(crate::proofs::NanBits::nan_bits_lem))]
pub fn to_bits(x: f32) -> u32
    ensures { result ≡ to_bits x }
{
    if x.is_nan() {
        return 0x7fc0_0000;
    }
    x.to_bits()
}

// ---- the remainder, in whole numbers

// 2^p of the smallest values, with a sign.
#[tactic(auto, using(std::proofs::lemmas::Float::not_nan_f32_bits))]
fn unit_of(negative: bool, p: u32) -> f32
    requires { p ≤ 253 }
    ensures { HasValue result negative (2 ^ p) (2 ^ 149) }
{
    let Pattern(unit) = Pattern::of_unit(p);
    if negative {
        return f32::from_bits(SIGN + unit);
    }
    f32::from_bits(unit)
}

// `x % y` of finite values.
fn finite_remainder(x: f32, y: f32) -> f32
    requires { (finite_f x ≡ true) × (finite_f y ≡ true) }
    ensures { result ≡ Ieee.rem Ieee.binary32 x y }
{
    let pattern = Pattern(x.to_bits());
    let Some(divisor) = Scaled::of(Pattern(y.to_bits())).divisor() else {
        return f32::NAN;
    };
    let rest = Scaled::of(pattern).rest(divisor);
    from_u32(rest.digits) * unit_of(pattern.is_negative(), rest.scale)
}

// `x % y`: the exact remainder, with the sign of x.
pub fn remainder(x: f32, y: f32) -> f32
    ensures { result ≡ Ieee.rem Ieee.binary32 x y }
{
    if !is_finite(x) {
        return f32::NAN;
    }
    if y.is_nan() {
        return y;
    }
    if !is_finite(y) {
        return x;
    }
    finite_remainder(x, y)
}
