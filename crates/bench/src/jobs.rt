// The jobs: what is called, on which entries.
use crate::rows::LIST;
use completions::MOST_ENTRIES;
use timeline::timeline::{At, Timeline};
use tween::Loop;

// What is timed, in the order of its number in the input. The same jobs stand in the oracle.
#[derive(Clone, Copy, PartialEq, Eq, Debug)]
pub(crate) enum Job {
    // Updates in steps that reach nine tenths of the base in all.
    UpdateOnceSmall,
    // Updates of a tenth of the base, and `play` at the end.
    UpdateOnceTenths,
    // Updates of a base.
    UpdateForever,
    UpdatePingPong,
    SeekAbsOnce,
    SeekAbsForever,
    SeekPingPong,
    // Entries of an empty timeline, again and again.
    Add,
    // The longest walk that is known (completions/specs/Prompt.antt).
    LongestWalk,
    // Updates of a base: what a number means that has no job.
    UpdateOnce,
}

// The job that the last digit of a number means.
impl From<u8> for Job {
    fn from(number: u8) -> Job {
        match number % 10 {
            0 => Job::UpdateOnceSmall,
            1 => Job::UpdateOnceTenths,
            2 => Job::UpdateForever,
            3 => Job::UpdatePingPong,
            4 => Job::SeekAbsOnce,
            5 => Job::SeekAbsForever,
            6 => Job::SeekPingPong,
            7 => Job::Add,
            8 => Job::LongestWalk,
            _ => Job::UpdateOnce,
        }
    }
}

impl Job {
    fn mode(self) -> Loop {
        match self {
            Job::UpdateForever | Job::SeekAbsForever | Job::LongestWalk => Loop::Forever,
            Job::UpdatePingPong | Job::SeekPingPong => Loop::PingPong,
            _ => Loop::Once,
        }
    }

    // The step of a job that updates. The walk's is three units in the last place of the second from which it goes.
    pub(crate) fn step(self, base: f32, turns: u32) -> f32 {
        match self {
            Job::UpdateOnceSmall => base / float32::from_u32(turns) * 0.9,
            Job::UpdateOnceTenths => base * 0.1,
            Job::LongestWalk => 0.09375,
            _ => base,
        }
    }

    // How many places of the list are lent. The walk outnumbers 256.
    pub(crate) fn listed(self) -> usize {
        match self {
            Job::LongestWalk => MOST_ENTRIES,
            _ => LIST,
        }
    }

    // The second from which it goes.
    pub(crate) fn first(self) -> f32 {
        match self {
            Job::LongestWalk => float32::from_bits(0x48ed_ebf1),
            _ => 0.0,
        }
    }

    // Entries that start one after another and overlap. For the longest walk they are so short that an update by three units in the
    // last place goes over 642 cycles, 385 of them without a completion, before it is known that they outnumber a list of 256.
    pub(crate) fn built(self, entries: u16) -> Timeline {
        let mut t = Timeline::new().looping(self.mode());
        for i in 0..entries {
            let at = float32::from_u32(u32::from(i));
            if let Ok(added) = t.add(b"item", self.placed(at), self.lasting(at)) {
                t = added;
            }
        }
        t
    }

    fn placed(self, at: f32) -> At {
        match self {
            Job::LongestWalk => At::Start,
            _ => At::Absolute(at * 0.05),
        }
    }

    fn lasting(self, at: f32) -> f32 {
        match self {
            Job::LongestWalk => float32::from_bits(0x38ed_eecc),
            _ => 1.0 + at * 0.01,
        }
    }
}

// The base of whole timelines, built again and again: as many entries as turns.
pub(crate) fn adds(entries: u16, turns: u32) -> f32 {
    let times = turns.checked_div(u32::from(entries)).unwrap_or(0);
    let mut base = 0.0;
    for _ in 0..times {
        base = Job::Add.built(entries).duration();
    }
    base
}

// The share of a run to which a turn seeks: they go through its thousandths.
pub(crate) fn share(turn: u32) -> f32 {
    float32::from_u32(turn % 1000) * 0.001
}
