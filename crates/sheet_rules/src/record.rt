// The record of an entry, and where it places the entry.
ghost use Rattle.std.specs.Prelude.{◌≡◌, IfOk};
ghost use Rattle.refusal.specs.Refusal.{number_in};
ghost use Rattle.sheet_rules.specs.Rules.{record_refusal};
ghost use Rattle.sheet_rules.specs.Placements.{placement_of, placement_in, kind_of, target_of, seconds_of, target_good};

use refusal::Refusal;

// Where an entry starts. Seconds are the bits of an f32; the label case carries the number of an entry of the sheet.
// An enum of its own beside timeline's `At`, since a rewritten sheet has its bits again, and paper 01 names `At` with floats.
#[derive(Clone, Copy, Debug, PartialEq, Eq)]
pub enum Placement {
    Absolute(u32),
    Start,
    End,
    Label(usize),
    Offset(u32),
}

impl Placement {
    // Its kind, the entry that it names, and its seconds bits; 0 for what it has not.
    pub fn parts(self) -> (u8, usize, u32)
        ensures { result ≡ (kind_of self, target_of self, seconds_of self) }
    {
        match self {
            Placement::Absolute(seconds) => (0, 0, seconds),
            Placement::Start => (1, 0, 0),
            Placement::End => (2, 0, 0),
            Placement::Label(target) => (3, target, 0),
            Placement::Offset(seconds) => (4, 0, seconds),
        }
    }

    // Whether it names one of n entries, where it names one.
    pub fn is_good(self, n: usize) -> bool
        ensures { result ≡ target_good n self }
    {
        match self {
            Placement::Label(target) => target < n,
            Placement::Absolute(_) | Placement::Start | Placement::End | Placement::Offset(_) =>
                true,
        }
    }
}

// A record of a sheet, as it stands there, without the duration bits: bytes that are not checked yet, so numbers.
#[derive(Clone, Copy, Debug, PartialEq, Eq)]
pub struct Record {
    pub kind: u8,
    pub target: u8,
    pub first_zero: u8,
    pub second_zero: u8,
    pub seconds: u32,
}

// The placement that the kind, the target and the seconds bits say; refusal 10 for a kind above 4.
impl TryFrom<Record> for Placement {
    type Error = Refusal;

    ghost try_from_gives = { λ numbers r. r ≡ placement_in numbers.kind numbers.target numbers.seconds };

    #[tactic(auto, unfolding(crate::specs::Placements::placement_of))]
    fn try_from(numbers: Record) -> Result<Placement, Refusal> {
        match numbers.kind {
            0 => Ok(Placement::Absolute(numbers.seconds)),
            1 => Ok(Placement::Start),
            2 => Ok(Placement::End),
            3 => Ok(Placement::Label(usize::from(numbers.target))),
            4 => Ok(Placement::Offset(numbers.seconds)),
            _ => Err(Refusal::SheetPlacement),
        }
    }
}

impl Record {
    // The placement of a record in a sheet of n entries, or why the record is refused: what the placement has not must be 0 in it.
    pub fn placement(self, n: usize) -> Result<Placement, Refusal>
        ensures number { number_in result ≡ record_refusal n self.kind self.target self.first_zero self.second_zero self.seconds }
        ensures value { IfOk result (λ placement. placement ≡ placement_of self.kind self.target self.seconds) }
    {
        let placement = Placement::try_from(self)?;
        let (_, target, seconds) = placement.parts();
        if target != usize::from(self.target) || !placement.is_good(n) {
            return Err(Refusal::SheetPlacement);
        }
        if self.first_zero != 0 || self.second_zero != 0 || seconds != self.seconds {
            return Err(Refusal::SheetZero);
        }
        Ok(placement)
    }
}
