// Standard output, by way of a buffer: the text of a case, or its digest, FNV-1a in eight hex digits.
ghost use Rattle.std.specs.Prelude.{◌≡◌, ◌+◌, ◌≤◌, unwrap_or};
ghost use Rattle.case_io.specs.declared.text.TheConstants.{BUFFER};
ghost use Rattle.case_io.specs.Bits.{zeroless};

use std::io::{Print, Stdout};

// The bytes that are kept back before they are taken at once.
pub const BUFFER: usize = 65_536;

// No field is longer than this.
const FIELD: usize = 32;

// The digest of nothing.
pub const FNV_OFFSET: u32 = 0x811c_9dc5;

const FNV_PRIME: u32 = 0x0100_0193;

// What is printed of each case.
#[derive(Clone, Copy, PartialEq, Eq)]
pub enum Form {
    Text,
    Digests,
}

// Standard output, what is printed, the bytes that are kept back, and the digest of what was taken before.
#[derive(Clone, Copy)]
pub struct Sink {
    stdout: Stdout,
    form: Form,
    buffer: [u8; BUFFER],
    used: usize,
    digest: u32,
    ghost used_fits: { used ≤ BUFFER },
}

impl Sink {
    // Nothing is taken yet.
    pub fn new(stdout: Stdout, form: Form) -> Sink {
        Sink {
            stdout,
            form,
            buffer: [0; BUFFER],
            used: 0,
            digest: FNV_OFFSET,
        }
    }

    // The text of a case starts with the line `name number`, which is no part of a digest.
    pub fn begin(&mut self, name: &[u8], number: usize) {
        if self.form == Form::Text {
            self.bytes(name);
            self.number(b' ', number);
            self.byte(b'\n');
        }
    }

    // At the end of a case: the rest of its text, or the line of its digest.
    pub fn end(&mut self) {
        self.flush();
        if self.form == Form::Digests {
            let mut line = [b'\n'; 9];
            digits::put_hex8(self.digest, &mut line, 0);
            self.stdout.write_all(&line).is_ok();
            self.digest = FNV_OFFSET;
        }
    }

    // Hands on what is in the buffer.
    fn flush(&mut self)
        ensures { self.new.used ≡ 0 }
    {
        let taken = &self.buffer[..self.used];
        match self.form {
            Form::Text => {
                self.stdout.write_all(taken).is_ok();
            }
            Form::Digests => self.digest = fold(self.digest, taken),
        }
        self.used = 0;
    }

    // Hands on what is in the buffer, where a field may not have room.
    fn room(&mut self)
        ensures { self.new.used + FIELD ≤ BUFFER }
    {
        if self.used > BUFFER - FIELD {
            self.flush();
        }
    }

    pub fn byte(&mut self, b: u8) {
        self.room();
        self.buffer[self.used] = b;
        self.used += 1;
    }

    pub fn bytes(&mut self, text: &[u8]) {
        for b in text {
            self.byte(*b);
        }
    }

    // A number in decimal.
    #[tactic(auto, using(crate::proofs::Room::ends_within))]
    pub fn decimal(&mut self, n: usize) {
        self.room();
        let len = digits::put_decimal(n, &mut self.buffer, self.used);
        self.put(len);
    }

    // Two hex digits.
    #[tactic(auto, using(crate::proofs::Room::ends_within))]
    pub fn hex(&mut self, b: u8) {
        self.room();
        let len = digits::put_hex2(b, &mut self.buffer, self.used);
        self.put(len);
    }

    // Eight hex digits.
    #[tactic(auto, using(crate::proofs::Room::ends_within))]
    fn hex8(&mut self, n: u32) {
        self.room();
        let len = digits::put_hex8(n, &mut self.buffer, self.used);
        self.put(len);
    }

    // A field of this length was put behind what is in the buffer.
    fn put(&mut self, len: Option<usize>)
        requires { self.old.used + unwrap_or len 0 ≤ BUFFER }
    {
        self.used += len.unwrap_or(0);
    }

    // The fields of a line, each after the byte that parts it from the one before.

    pub fn number(&mut self, before: u8, n: usize) {
        self.byte(before);
        self.decimal(n);
    }

    pub fn bits(&mut self, before: u8, n: u32) {
        self.byte(before);
        self.hex8(n);
    }

    // A float's bits, with those of +0.0 for either zero.
    pub fn float(&mut self, before: u8, x: f32) {
        self.bits(before, zeroless_bits(x));
    }

    pub fn letter(&mut self, before: u8, b: u8) {
        self.byte(before);
        self.byte(b);
    }
}

// A float's bits, with 0 for either zero, where the Rust leaves the sign open.
pub fn zeroless_bits(x: f32) -> u32
    ensures { result ≡ zeroless x }
{
    if x == 0.0 { 0 } else { float32::to_bits(x) }
}

// The digest of what was taken before and of these bytes.
pub fn fold(digest: u32, bytes: &[u8]) -> u32 {
    bytes
        .iter()
        .fold(digest, |d, b| (d ^ u32::from(*b)).wrapping_mul(FNV_PRIME))
}
