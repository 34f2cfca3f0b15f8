// What was read of the script and is not used yet.
ghost use Rattle.std.specs.Prelude.{◌≡◌, ℕ, ◌-◌, ◌<◌, ◌≤◌, ◌↔◌, List, [], ◌++◌, length, drop, false, IsTrue, Ok, IfOk, OnErr};
ghost use Rattle.door_log.specs.declared.unread.TheConstants.{CHUNK};

use call_log::CALL;
use std::io;
use std::io::{Read, Stdin};

// How much is read at once.
const CHUNK: usize = 65_536;

// The bytes from `from` to `to`, since there is no heap.
#[derive(Drop)]
pub(crate) struct Unread {
    chunk: [u8; CHUNK],
    from: usize,
    to: usize,
    ghost within: { (from ≤ to) × (to ≤ CHUNK) },
}

impl Unread {
    ghost use Rattle.door_log.specs.Unread.{unread, Grows};

    // Nothing is read yet.
    pub(crate) fn new() -> Unread
        ensures { unread result ≡ [] }
    {
        Unread {
            chunk: [0; CHUNK],
            from: 0,
            to: 0,
        }
    }

    // Reads on where less than a call is left, and says whether the input has ended.
    pub(crate) fn refill(&mut self, stdin: &mut Stdin) -> io::Result<bool>
        ensures there { CALL ≤ length (unread self.old) → (result ≡ Ok false) × (self.new ≡ self.old) }
        ensures ok { IfOk result (λ ended. (more : List ℕ) × Grows self.old self.new more × (IsTrue ended ↔ ((length (unread self.old) < CALL) × (more ≡ [])))) }
        ensures err { OnErr result (unread self.new ≡ unread self.old) }
    {
        if self.to - self.from >= CALL {
            return Ok(false);
        }
        self.to_front();
        let count = self.read(stdin)?;
        Ok(count == 0)
    }

    // Moves what is left to the front.
    fn to_front(&mut self)
        ensures unread { unread self.new ≡ unread self.old }
        ensures place { (self.new.from ≡ 0) × (self.new.to ≡ self.old.to - self.old.from) }
        ensures chunk { let count = self.old.to - self.old.from in self.new.chunk ≡ unread self.old ++ drop count self.old.chunk }
    {
        let from = self.from;
        let to = self.to;
        self.from = 0;
        self.to = to - from;
        self.chunk.copy_within(from..to, 0);
    }

    // Reads behind what is left.
    fn read(&mut self, stdin: &mut Stdin) -> io::Result<usize>
        ensures ok { IfOk result (λ count. (more : List ℕ) × (length more ≡ count) × Grows self.old self.new more) }
        ensures err { OnErr result (unread self.new ≡ unread self.old) }
    {
        let to = self.to;
        let count = stdin.read(&mut self.chunk[to..])?;
        self.to = to + count;
        Ok(count)
    }

    // The bytes.
    pub(crate) fn bytes(&self) -> &[u8]
        ensures { result.now ≡ unread self.now }
    {
        &self.chunk[self.from..self.to]
    }

    // Passes over so many, or all: that a batch uses no more than there is stands in no clause of its own.
    pub(crate) fn used(&mut self, count: usize)
        ensures { unread self.new ≡ drop count (unread self.old) }
    {
        self.from += count.min(self.to - self.from);
    }
}
