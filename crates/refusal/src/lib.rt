// Why a call is refused (paper 01, "Refusals"; paper 02, S-1), and the numbers by which logs and programs say so. 0 means accepted.
#![tactic(auto)]

ghost use Rattle.std.specs.Prelude.{◌≡◌};
ghost use Rattle.refusal.specs.Refusal.{number, number_if, number_in};

use std::fmt;

// The number of an accepted call.
pub const ACCEPTED: u8 = 0;

// Why a call is refused, in the order of the numbers, from 1 on.
#[derive(Clone, Copy, Debug, PartialEq, Eq)]
pub enum Refusal {
    // An entry past the last that a timeline can hold.
    TimelineFull = 1,
    // An entry's own label is too long.
    LabelTooLong = 2,
    // One of the three row slices is shorter than the entries.
    RowsTooShort = 3,
    // The reply slice is shorter than the entries, or one of those replies is above 1.
    BadReplies = 4,
    // The update's completions outnumber the lent list.
    ListTooShort = 5,
    // The sheet's version is not 1.
    SheetVersion = 6,
    // The sheet's length is wrong.
    SheetLength = 7,
    // The count is above the most that a timeline can hold.
    SheetCount = 8,
    // The loop mode is above 4, or has a number that it does not take.
    SheetLoop = 9,
    // A placement's kind is above 4, or its target is wrong.
    SheetPlacement = 10,
    // A pair is out of place, or its label is too long.
    SheetPair = 11,
    // A byte that must be 0 is not.
    SheetZero = 12,
    // A grid side is above 65,535.
    GridTooLarge = 13,
    // An unknown call byte, or 1 to 4 bytes left over.
    BadCall = 14,
    // The room for a written sheet is too short.
    RoomTooShort = 15,
    // A venue list of another shape, or an entry number that is not below the sheet's count.
    BadCaption = 16,
}

impl Refusal {
    // Its number.
    pub fn number(self) -> u8
        ensures { result ≡ number self }
    {
        self as u8
    }
}

// By its number, as logs and messages have it.
impl fmt::Display for Refusal {
    fn fmt<W: fmt::Write>(&self, f: &mut fmt::Formatter<W>) -> fmt::Result {
        self.number().fmt(f)
    }
}

// The number of any answer: 0 where it was accepted.
pub fn number_in<T>(answer: &Result<T, Refusal>) -> u8
    ensures { result ≡ number_in answer.now }
{
    match answer {
        Ok(_) => ACCEPTED,
        Err(refusal) => refusal.number(),
    }
}

// The number of a refusal, where there is one: 0 for none.
pub fn number_if(refusal: Option<Refusal>) -> u8
    ensures { result ≡ number_if refusal }
{
    refusal.map_or(ACCEPTED, Refusal::number)
}
