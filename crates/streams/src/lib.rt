// Reads and fronts that the programs share.
#![tactic(auto)]

ghost use Rattle.std.specs.Prelude.{◌≡◌, ◌≤◌, ◌↔◌, length, take, None, Some, IsOk, IfOk, IfErr};

use std::io;
use std::io::Read;

// How many bytes are there, and the error of the read that failed, if one did. Not a Result: for some programs what was read before a
// failed read counts. No `==`: an `io::Error` has none.
#[derive(Clone, Copy, Debug)]
pub struct Got {
    pub count: usize,
    pub error: Option<io::Error>,
}

impl Got {
    // How many bytes are there, where no read failed.
    pub fn whole(self) -> io::Result<usize>
        ensures ok { IsOk result ↔ (self.error ≡ None) }
        ensures count { IfOk result (λ n. n ≡ self.count) }
        ensures error { IfErr result (λ e. self.error ≡ Some e) }
    {
        match self.error {
            None => Ok(self.count),
            Some(error) => Err(error),
        }
    }
}

// Reads into a slice, until it is full, the input ends, or a read fails.
pub fn read_full<R: Read>(reader: &mut R, bytes: &mut [u8]) -> Got
    ensures { result.count ≤ length bytes.new }
{
    let mut count = 0;
    // A read takes as much as it likes, so no `for` counts the turns.
    while count < bytes.len() {
        match reader.read(&mut bytes[count..]) {
            Ok(0) => break,
            Ok(more) => count += more,
            Err(error) => {
                return Got {
                    count,
                    error: Some(error),
                };
            }
        }
    }
    Got { count, error: None }
}

// The first `len` bytes, or all where there are fewer.
pub fn front(bytes: &[u8], len: usize) -> &[u8]
    ensures { result.now ≡ take len bytes.now }
{
    &bytes[..len.min(bytes.len())]
}
