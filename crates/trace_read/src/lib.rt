// The calls of a script, read off its bytes: of each the byte that says which it is (`Cursor::call`), and then its operands.
#![tactic(auto)]

ghost use Rattle.std.specs.Prelude.{◌≤◌, IfOk};
ghost use Rattle.trace_read.specs.declared.TheConstants.{ROWS, LIST};

use tween::{GridOrigin, Loop, StaggerPattern};

// How many places of each row slice are lent at most, and how many replies, or durations, there are at most.
pub const ROWS: usize = 300;

// How many places of the list are lent at most.
pub const LIST: usize = 1000;

// More items than a byte counts.
pub const ITEMS: usize = 256;

// Why a call is not made: its byte is unknown, or an operand is missing, or one that is not allowed.
#[derive(Clone, Copy, Debug, PartialEq, Eq)]
pub struct Cut;

// A call and its operands. A list that ends a call is no part of it: who makes the call reads it on, into an array of its own, since no
// heap is allowed.
#[derive(Clone, Copy, Debug, PartialEq)]
pub enum Call<'a> {
    Move(Move, Room),
    Pause,
    Resume,
    Update(Update<'a>),
    SetTimeScale(f32),
    Add(Added<'a>),
    AddBoxed(Added<'a>),
    Looping(Loop),
    Introspect,
    IntrospectGroup,
    Reverse(Room),
    Delay(StaggerPattern, u32),
    // It ends with durations (`Cursor::durations`).
    Build(Builder),
    // It ends with so many items (`Cursor::item`).
    Sequence(u8),
}

// A call that moves what plays: data, and no table of functions, since both matches over it name each call (trace_places).
#[derive(Clone, Copy, Debug, PartialEq)]
pub enum Move {
    Play,
    Reset,
    Seek(f32),
    SeekAbs(f32),
    Preview(f32),
}

// A call that builds a timeline of durations.
#[derive(Clone, Copy, Debug, PartialEq)]
pub enum Builder {
    Stagger(f32),
    GroupParallel,
    GroupSequence,
    GroupStagger(StaggerPattern),
}

// An entry that is added.
#[derive(Clone, Copy, Debug, PartialEq)]
pub struct Added<'a> {
    pub label: &'a [u8],
    pub at: Placement<'a>,
    pub duration: f32,
}

// What is left of a script.
#[derive(Clone, Copy)]
pub struct Cursor<'a> {
    rest: &'a [u8],
}

// How many places of the row slices are lent.
#[derive(Clone, Copy, Debug, PartialEq, Eq)]
pub struct Room {
    pub kinds: usize,
    pub amounts: usize,
    pub places: usize,
    ghost kinds_fit: { kinds ≤ ROWS },
    ghost amounts_fit: { amounts ≤ ROWS },
    ghost places_fit: { places ≤ ROWS },
}

// What an update is handed: the step, the places of the row slices and of the list that are lent, and the replies.
#[derive(Clone, Copy, Debug, PartialEq)]
pub struct Update<'a> {
    pub dt: f32,
    pub room: Room,
    pub list: usize,
    pub replies: &'a [u8],
    ghost list_fits: { list ≤ LIST },
}

// A placement, in the order of the numbers. An enum of its own beside timeline's `At`, which has a label's number: here a label is given
// by its text.
#[derive(Clone, Copy, Debug, PartialEq)]
pub enum Placement<'a> {
    Absolute(f32),
    Start,
    End,
    Label(&'a [u8]),
    Offset(f32),
}

// An item of a sequence, in the order of the numbers.
#[derive(Clone, Copy, Debug, PartialEq)]
pub enum Item<'a> {
    Then { label: &'a [u8], secs: f32 },
    ThenFor { label: &'a [u8], secs: f32 },
    Gap(f32),
}

impl<'a> Cursor<'a> {
    // At the beginning of a script.
    pub fn new(script: &'a [u8]) -> Cursor<'a> {
        Cursor { rest: script }
    }

    // The call of this byte.
    pub fn call(&mut self, byte: u8) -> Result<Call<'a>, Cut> {
        Ok(match byte {
            0 => Call::Move(Move::Play, self.room()?),
            1 => Call::Pause,
            2 => Call::Resume,
            3 => Call::Move(Move::Reset, self.room()?),
            4 => Call::Update(self.update()?),
            5 => Call::Move(Move::Seek(self.float()?), self.room()?),
            6 => Call::Move(Move::SeekAbs(self.float()?), self.room()?),
            7 => Call::SetTimeScale(self.float()?),
            8 => Call::Add(self.added()?),
            9 => Call::AddBoxed(self.added()?),
            10 => Call::Looping(self.looping()?),
            11 => Call::Move(Move::Preview(self.float()?), self.room()?),
            12 => Call::Introspect,
            13 => Call::IntrospectGroup,
            14 => Call::Reverse(self.room()?),
            15 => Call::Delay(self.pattern()?, self.word()?),
            16 => Call::Build(Builder::Stagger(self.float()?)),
            17 => Call::Build(Builder::GroupParallel),
            18 => Call::Build(Builder::GroupSequence),
            19 => Call::Build(Builder::GroupStagger(self.pattern()?)),
            20 => Call::Sequence(self.byte()?),
            _ => return Err(Cut),
        })
    }

    // So many bytes.
    fn bytes(&mut self, len: usize) -> Result<&'a [u8], Cut> {
        let (bytes, rest) = self.rest.split_at_checked(len).ok_or(Cut)?;
        self.rest = rest;
        Ok(bytes)
    }

    // N bytes.
    fn chunk<const N: usize>(&mut self) -> Result<[u8; N], Cut> {
        let (bytes, rest) = self.rest.split_first_chunk::<N>().ok_or(Cut)?;
        self.rest = rest;
        Ok(*bytes)
    }

    pub fn byte(&mut self) -> Result<u8, Cut> {
        Ok(u8::from_le_bytes(self.chunk()?))
    }

    // A u16.
    pub fn half(&mut self) -> Result<u16, Cut> {
        Ok(u16::from_le_bytes(self.chunk()?))
    }

    // A u32.
    pub fn word(&mut self) -> Result<u32, Cut> {
        Ok(u32::from_le_bytes(self.chunk()?))
    }

    // An f32, by its bits.
    pub fn float(&mut self) -> Result<f32, Cut> {
        Ok(float32::from_bits(self.word()?))
    }

    // A label: its length as a byte, then its bytes.
    pub fn label(&mut self) -> Result<&'a [u8], Cut> {
        let len = self.byte()?;
        self.bytes(usize::from(len))
    }

    // The replies: their number, then a byte each.
    fn replies(&mut self) -> Result<&'a [u8], Cut> {
        let len = self.list_len()?;
        self.bytes(len)
    }

    // The number of replies, or of durations.
    fn list_len(&mut self) -> Result<usize, Cut>
        ensures { IfOk result (λ len. len ≤ ROWS) }
    {
        let len = usize::from(self.half()?);
        if len <= ROWS { Ok(len) } else { Err(Cut) }
    }

    pub fn room(&mut self) -> Result<Room, Cut> {
        Ok(Room {
            kinds: usize::from(self.half()?).min(ROWS),
            amounts: usize::from(self.half()?).min(ROWS),
            places: usize::from(self.half()?).min(ROWS),
        })
    }

    pub fn update(&mut self) -> Result<Update<'a>, Cut> {
        Ok(Update {
            dt: self.float()?,
            room: self.room()?,
            list: usize::from(self.half()?).min(LIST),
            replies: self.replies()?,
        })
    }

    fn added(&mut self) -> Result<Added<'a>, Cut> {
        Ok(Added {
            label: self.label()?,
            at: self.placement()?,
            duration: self.float()?,
        })
    }

    pub fn placement(&mut self) -> Result<Placement<'a>, Cut> {
        Ok(match self.byte()? {
            0 => Placement::Absolute(self.float()?),
            1 => Placement::Start,
            2 => Placement::End,
            3 => Placement::Label(self.label()?),
            4 => Placement::Offset(self.float()?),
            _ => return Err(Cut),
        })
    }

    // A loop mode and a number, which some modes have.
    pub fn looping(&mut self) -> Result<Loop, Cut> {
        let parts = (self.byte()?, self.word()?);
        Loop::try_from(parts).or(Err(Cut))
    }

    pub fn pattern(&mut self) -> Result<StaggerPattern, Cut> {
        Ok(match self.byte()? {
            0 => StaggerPattern::Grid {
                cols: self.word()?,
                rows: self.word()?,
                origin: self.origin()?,
                step: self.float()?,
            },
            1 => StaggerPattern::Random {
                seed: self.word()?,
                min_delay: self.float()?,
                max_delay: self.float()?,
            },
            2 => StaggerPattern::CenterOut {
                count: self.word()?,
                step: self.float()?,
            },
            3 => StaggerPattern::EdgesIn {
                count: self.word()?,
                step: self.float()?,
            },
            _ => return Err(Cut),
        })
    }

    // Where the delays of a grid start.
    fn origin(&mut self) -> Result<GridOrigin, Cut> {
        let number = u32::from(self.byte()?);
        GridOrigin::try_from(number).or(Err(Cut))
    }

    // Durations: their number, then an f32 each, which are put into a lent array.
    pub fn durations<'b>(&mut self, room: &'b mut [f32; ROWS]) -> Result<&'b [f32], Cut> {
        let len = self.list_len()?;
        for value in &mut room[..len] {
            *value = self.float()?;
        }
        Ok(&room[..len])
    }

    // An item of a sequence. What then_for is told of the leaf's own duration is passed over.
    pub fn item(&mut self) -> Result<Item<'a>, Cut> {
        Ok(match self.byte()? {
            0 => Item::Then {
                label: self.label()?,
                secs: self.float()?,
            },
            1 => {
                let label = self.label()?;
                self.word()?;
                Item::ThenFor {
                    label,
                    secs: self.float()?,
                }
            }
            2 => Item::Gap(self.float()?),
            _ => return Err(Cut),
        })
    }
}
