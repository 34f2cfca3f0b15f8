// The checks of a stored sheet (paper 01, "Checks") on the numbers that stand in it, and what the numbers say: of the header, of a
// pair, of a record (record.rt). Crate sheet_format reads the numbers.
#![tactic(auto)]

pub mod record;

ghost use Rattle.std.specs.Prelude.{◌≡◌, cond, IfOk};
ghost use Rattle.refusal.specs.Refusal.{accepted, sheet_loop, number_in};
ghost use Rattle.tween.specs.LoopMode.{loop_of};
ghost use Rattle.sheet_rules.specs.Rules.{loop_good, header_refusal, pair_fits};

use label::MAX_LABEL;
pub use record::{Placement, Record};
use refusal::Refusal;
use steps::MAX_ENTRIES;
use tween::Loop;
use words::{PAIR_SIZE, Pair};

// Bytes of the header and of a record.
pub const HEADER_SIZE: usize = 12;

pub const RECORD_SIZE: usize = 12;

// Bytes of the longest sheet: all entries, each with the longest label.
pub const MAX_SHEET: usize = HEADER_SIZE + MAX_ENTRIES * (PAIR_SIZE + RECORD_SIZE + MAX_LABEL);

// The one version that there is.
pub const VERSION: u8 = 1;

// The header of a sheet, as it stands there, without the scale bits: what is not checked yet, so numbers.
#[derive(Clone, Copy, Debug, PartialEq, Eq)]
pub struct Header {
    pub version: u8,
    pub count: usize,
    pub mode: u8,
    pub number: u32,
}

impl Header {
    // The loop mode. It is refused where there is no such mode, or where it takes no number and one stands there.
    fn loop_mode(self) -> Result<Loop, Refusal>
        ensures number { number_in result ≡ cond (loop_good self.mode self.number) accepted sheet_loop }
        ensures value { IfOk result (λ looping. looping ≡ loop_of self.mode self.number) }
    {
        let looping = Loop::try_from((self.mode, self.number))?;
        if looping.number() != self.number {
            return Err(Refusal::SheetLoop);
        }
        Ok(looping)
    }

    // The loop mode of a sheet of len bytes, or why its header is refused. Where it is accepted, all pairs and records are in the sheet.
    pub fn looping(self, len: usize) -> Result<Loop, Refusal>
        ensures number { number_in result ≡ header_refusal len self.version self.count self.mode self.number }
        ensures value { IfOk result (λ looping. looping ≡ loop_of self.mode self.number) }
    {
        if self.version != VERSION {
            return Err(Refusal::SheetVersion);
        }
        if self.count > MAX_ENTRIES {
            return Err(Refusal::SheetCount);
        }
        let looping = self.loop_mode()?;
        if len < HEADER_SIZE + (PAIR_SIZE + RECORD_SIZE) * self.count {
            return Err(Refusal::SheetLength);
        }
        Ok(looping)
    }
}

// Whether the label of a pair starts at this offset, and is no longer than a label can be.
pub fn pair_fits(offset: usize, pair: Pair) -> bool
    ensures { result ≡ pair_fits offset pair.offset pair.len }
{
    pair.offset == offset && pair.len <= MAX_LABEL
}
