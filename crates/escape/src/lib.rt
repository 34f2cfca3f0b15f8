// Bytes as text that a person can read: printable ASCII as it is, every other byte, and the backslash, as `\x` and two hex digits.
#![tactic(auto)]

ghost use Rattle.std.specs.Prelude.{◌≡◌, ◌+◌, ◌≤◌, length};
ghost use Rattle.digits.specs.Digits.{put_at};
ghost use Rattle.escape.specs.Escape.{plain, escaped_byte, escaped_by, escaped_room};
ghost use Rattle.escape.specs.Claim.{Claim};

// How many bytes were taken, and how many bytes their text has. Two numbers of one meaning each: neither says whether the other holds.
#[derive(Clone, Copy, Debug, PartialEq, Eq)]
pub struct Escaped {
    pub used: usize,
    pub len: usize,
}

// Writes the text of the bytes to the front of the room. Only as many bytes are taken as surely have room, at four places each.
pub fn escape(bytes: &[u8], room: &mut [u8]) -> Escaped
    ensures value { result ≡ escaped_by bytes.now room.old }
    ensures room_after { room.new ≡ escaped_room bytes.now room.old }
{
    let used = bytes.len().min(room.len() / 4);
    let mut len = 0;
    for byte in &bytes[..used] {
        len += put_escaped(*byte, room, len);
    }
    Escaped { used, len }
}

// Writes the text of one byte at `at`, and answers how many bytes were written.
fn put_escaped(byte: u8, out: &mut [u8], at: usize) -> usize
    requires { at + 4 ≤ length out.old }
    ensures { (result ≡ length (escaped_byte byte)) × (out.new ≡ put_at (escaped_byte byte) at out.old) }
{
    if is_plain(byte) {
        out[at] = byte;
        return 1;
    }
    out[at] = b'\\';
    out[at + 1] = b'x';
    2 + digits::put_hex2(byte, out, at + 2).unwrap_or(0)
}

// Whether the byte stands for itself.
fn is_plain(byte: u8) -> bool
    ensures { result ≡ plain byte }
{
    byte != b'\\' && matches!(byte, b' '..=b'~')
}

// What is claimed of the texts, as a contract: without it the crate is not proved.
pub fn claimed()
    ensures { Claim }
{}
