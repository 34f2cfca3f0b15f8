// Loop modes (loop_mode.rs; paper 01, part 2).
ghost use Rattle.std.specs.Prelude.{◌≡◌};
ghost use Rattle.tween.specs.LoopMode.{passes, is_once, loop_in, mode_of, number_of};

use refusal::Refusal;

// What happens when the end of the duration is reached.
#[derive(Clone, Copy, PartialEq, Eq, Debug)]
pub enum Loop {
    // Play once and stop.
    Once,
    // Play this many times, then stop.
    Times(u32),
    // Play forward again and again.
    Forever,
    // Play forward, then backward, then forward, without end.
    PingPong,
    // Play this many passes, each in one direction, then stop: 2 is forward, then backward.
    PingPongTimes(u32),
}

// The mode by its number in the order above, from 0 on, with its loop number where it has one; refusal 9 above 4.
impl TryFrom<(u8, u32)> for Loop {
    type Error = Refusal;

    ghost try_from_gives = { λ parts r. r ≡ loop_in parts.0 parts.1 };

    #[tactic(auto, unfolding(crate::specs::LoopMode::loop_of))]
    fn try_from((mode, number): (u8, u32)) -> Result<Loop, Refusal> {
        match mode {
            0 => Ok(Loop::Once),
            1 => Ok(Loop::Times(number)),
            2 => Ok(Loop::Forever),
            3 => Ok(Loop::PingPong),
            4 => Ok(Loop::PingPongTimes(number)),
            _ => Err(Refusal::SheetLoop),
        }
    }
}

impl Loop {
    // Its number in the order above, from 0 on.
    pub fn mode(self) -> u8
        ensures { result ≡ mode_of self }
    {
        match self {
            Loop::Once => 0,
            Loop::Times(_) => 1,
            Loop::Forever => 2,
            Loop::PingPong => 3,
            Loop::PingPongTimes(_) => 4,
        }
    }

    // Its loop number, 0 where it has none.
    pub fn number(self) -> u32
        ensures { result ≡ number_of self }
    {
        match self {
            Loop::Times(n) | Loop::PingPongTimes(n) => n,
            Loop::Once | Loop::Forever | Loop::PingPong => 0,
        }
    }

    // Whether it plays once.
    pub fn is_once(self) -> bool
        ensures { result ≡ is_once self }
    {
        matches!(self, Loop::Once)
    }
}

// The number of passes that a loop number stands for: 0 counts as 1.
pub fn passes(n: u32) -> u32
    ensures { result ≡ passes n }
{
    n.max(1)
}
