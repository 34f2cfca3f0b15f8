// Numbers as text, in ASCII, put into a lent slice. Each answers how many bytes were written: none where the text has no
// room there, and then nothing is written.
// None of them asks for room, since no public function here asks anything of its callers: who knows that there is room takes
// `unwrap_or(0)`, and proves that the 0 is never taken (by `put_whole`, or the like).
// Put by hand: `write!` writes at the end of a text, and what had no room is lost or cut.
#![tactic(auto)]

ghost use Rattle.std.specs.Prelude.{◌≡◌, ◌+◌, ◌<◌, ◌≤◌, leb, length};
ghost use Rattle.digits.specs.Digits.{code_of, digits, hex_text, decimal_places, decimal, put_at, Put};
ghost use Rattle.digits.specs.Claim.{Claim};

// Writes n at `at` in decimal.
#[tactic(auto, unfolding(crate::specs::Digits::decimal))]
pub fn put_decimal(n: usize, out: &mut [u8], at: usize) -> Option<usize>
    ensures { Put (decimal n) at out.old out.new result }
{
    put_digits(n, 10, decimal_places(n), out, at)
}

// Writes n at `at` in eight lower-case hex digits.
pub fn put_hex8(n: u32, out: &mut [u8], at: usize) -> Option<usize>
    ensures { Put (hex_text 8 n) at out.old out.new result }
{
    put_digits(n as usize, 16, 8, out, at)
}

// Writes n at `at` in two lower-case hex digits.
pub fn put_hex2(n: u8, out: &mut [u8], at: usize) -> Option<usize>
    ensures { Put (hex_text 2 n) at out.old out.new result }
{
    put_digits(usize::from(n), 16, 2, out, at)
}

// How many digits n has in decimal.
#[tactic(auto, using(crate::proofs::Places::counts))]
fn decimal_places(n: usize) -> usize
    ensures { result ≡ decimal_places n }
{
    n.checked_ilog10().map_or(1, |power| power as usize + 1)
}

// Writes the last width digits of n at `at`, where they have room.
#[tactic(auto, using(crate::proofs::Length::length_digits), unfolding(crate::specs::Digits::written, crate::specs::Digits::written_count))]
fn put_digits(n: usize, base: usize, width: usize, out: &mut [u8], at: usize) -> Option<usize>
    requires { (0 < base) × (base ≤ 16) }
    ensures { Put (digits base width n) at out.old out.new result }
{
    if !fits(width, at, out.len()) {
        return None;
    }
    write_digits(n, base, width, out, at);
    Some(width)
}

// From the last digit to the first. By index: tried with `iter_mut`, whose loop's invariant cannot name the lent slice, so that a proof
// knows how long it is after the loop, and not what it holds.
fn write_digits(n: usize, base: usize, width: usize, out: &mut [u8], at: usize)
    requires base_nonzero { (0 < base) × (base ≤ 16) }
    requires width_in_bounds { at + width ≤ length out.old }
    ensures { out.new ≡ put_at (digits base width n) at out.old }
{
    let mut rest = n;
    for i in (0..width).rev() {
        out[at + i] = code_of((rest % base) as u8);
        rest /= base;
    }
}

// The ASCII code of a digit.
#[tactic(auto, unfolding(crate::specs::Digits::code_of))]
fn code_of(digit: u8) -> u8
    requires { digit < 16 }
    ensures { result ≡ code_of digit }
{
    if digit < 10 {
        b'0' + digit
    } else {
        b'a' + (digit - 10)
    }
}

// Whether width bytes have room from `at` on in len.
fn fits(width: usize, at: usize, len: usize) -> bool
    ensures { result ≡ leb (at + width) len }
{
    at <= len && width <= len - at
}

// What is claimed of the texts, as a contract: without it the crate is not proved.
pub fn claimed()
    ensures { Claim }
{}
