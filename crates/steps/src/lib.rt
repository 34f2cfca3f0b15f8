// What one entry of a timeline is sent, and the times that decide it (timeline.rs; paper 01, part 4 and "A panel").
#![tactic(auto)]

ghost use Rattle.std.specs.Prelude.{◌≡◌, true, false, cond, ◌&&◌, ◌||◌, ◌≤◌, min, eqb, T};
ghost use Rattle.std.specs.Float.{binary32};
ghost use Rattle.std.specs.Float.Ieee.{sub, lt, le};
ghost use Rattle.float32.specs.Helpers.{zero_f, one_f};
ghost use Rattle.steps.specs.Times.{end_at, run_of, times_run, times_local, ping_pong, local_time};
ghost use Rattle.steps.specs.Rows.{row, stepped, seek_row, untouched, reset_step, synced, ticked, reset_first, ruled};
ghost use Rattle.steps.specs.Cases.{all_hold, table};

use tween::Loop;

// How many entries a timeline holds at most.
pub const MAX_ENTRIES: usize = 256;

// What a row's kind is made of: the number of resets, an update by the amount, a seek to the place.
pub const RESET: u8 = 1;

pub const UPDATE: u8 = 4;

pub const SEEK: u8 = 8;

// An entry: where it starts, how long it is, and whether it is done.
#[derive(Clone, Copy, Debug, Default, PartialEq)]
pub struct Entry {
    pub start: f32,
    pub duration: f32,
    pub done: bool,
}

// An entry's row: the number of resets, plus 4 for an update by the amount, plus 8 for a seek to the place.
// A number, since paper 01 has it as a byte of a lent slice.
#[derive(Clone, Copy, Debug, Default, PartialEq)]
pub struct Row {
    pub kind: u8,
    pub amount: f32,
    pub place: f32,
}

// The row that an entry is sent, and the mark that it leaves.
#[derive(Clone, Copy, Debug, PartialEq)]
pub struct Stepped {
    pub row: Row,
    pub done: bool,
}

// What a call sends to every entry: nothing, a reset, what brings it to a local time, or that after a reset.
#[derive(Clone, Copy, Debug, PartialEq)]
pub enum Rule {
    Keep,
    Clear,
    Sync(f32),
    Restart(f32),
}

// How a timeline plays: its loop mode, and its base.
#[derive(Clone, Copy, Debug, PartialEq)]
pub struct Run {
    pub mode: Loop,
    pub base: f32,
}

// An update goes from prev to next.
#[derive(Clone, Copy, Debug, PartialEq)]
pub struct Step {
    pub prev: f32,
    pub next: f32,
}

// The run of n passes, or of one where n is 0.
#[tactic(auto, unfolding(crate::specs::Times::times_run))]
pub fn times_run(base: f32, n: u32) -> f32
    ensures { result ≡ times_run base n }
{
    base * float32::from_u32(tween::loop_mode::passes(n))
}

// The local time in Times: at the end of the run, the base.
#[tactic(auto, unfolding(crate::specs::Times::times_local))]
fn times_local(base: f32, n: u32, elapsed: f32) -> f32
    ensures { result ≡ times_local base n elapsed }
{
    if elapsed >= times_run(base, n) {
        base
    } else {
        float32::remainder(elapsed, base)
    }
}

// The local time there and back.
#[tactic(auto, unfolding(crate::specs::Times::ping_pong))]
fn ping_pong(base: f32, elapsed: f32) -> f32
    ensures { result ≡ ping_pong base elapsed }
{
    let cycle = float32::remainder(elapsed, base * 2.0);
    if cycle <= base {
        cycle
    } else {
        base * 2.0 - cycle
    }
}

impl Run {
    // Its length: `playback_duration`.
    #[tactic(auto, unfolding(crate::specs::Times::run_of))]
    pub fn total(self) -> f32
        ensures { result ≡ run_of self.mode self.base }
    {
        if self.base == 0.0 {
            return 0.0;
        }
        match self.mode {
            Loop::Once => self.base,
            Loop::Times(n) | Loop::PingPongTimes(n) => times_run(self.base, n),
            Loop::Forever | Loop::PingPong => float32::infinity(),
        }
    }

    // `local_time_for_elapsed`
    #[tactic(auto, unfolding(crate::specs::Times::local_time))]
    pub fn local_time(self, elapsed: f32) -> f32
        ensures { result ≡ local_time self.mode self.base elapsed }
    {
        if self.base == 0.0 {
            return 0.0;
        }
        match self.mode {
            Loop::Once => float32::min(elapsed, self.base),
            Loop::Times(n) => times_local(self.base, n, elapsed),
            Loop::Forever => float32::remainder(elapsed, self.base),
            Loop::PingPong | Loop::PingPongTimes(_) => ping_pong(self.base, elapsed),
        }
    }
}

impl Step {
    // Whether it lies inside a run from start to end: it begins after the start, and ends before the end.
    fn is_inside(self, start: f32, end: f32) -> bool
        ensures { result ≡ (lt start self.prev && (lt self.next end && lt self.prev self.next)) }
    {
        start < self.prev && self.next < end && self.prev < self.next
    }

    // Whether the run has ended before it. The run may have no length.
    fn is_behind(self, start: f32, end: f32) -> bool
        ensures { result ≡ (lt start self.prev && (le end self.prev && lt end self.next)) }
    {
        start < self.prev && end <= self.prev && end < self.next
    }
}

// One reset, and no mark.
#[tactic(auto, unfolding(crate::specs::Rows::reset_step))]
fn reset_entry() -> Stepped
    ensures { result ≡ reset_step }
{
    Stepped {
        row: Row {
            kind: RESET,
            ..Row::default()
        },
        done: false,
    }
}

// A seek to the end, and the mark.
fn end_entry() -> Stepped
    ensures { result ≡ stepped (seek_row one_f) true }
{
    Stepped {
        row: Row {
            kind: SEEK,
            place: 1.0,
            ..Row::default()
        },
        done: true,
    }
}

impl Entry {
    // Where it ends.
    pub fn end(self) -> f32
        ensures { result ≡ end_at self }
    {
        self.start + self.duration
    }

    // Nothing is sent, and the mark stays.
    #[tactic(auto, unfolding(crate::specs::Rows::untouched))]
    fn kept(self) -> Stepped
        ensures { result ≡ untouched self }
    {
        Stepped {
            row: Row::default(),
            done: self.done,
        }
    }

    // `sync_to_elapsed` for one entry at the local time t.
    #[tactic(auto, unfolding(crate::specs::Rows::synced))]
    pub fn synced(self, t: f32) -> Stepped
        ensures { result ≡ synced t self }
    {
        if t <= self.start {
            return reset_entry();
        }
        if t >= self.end() || self.duration == 0.0 {
            return end_entry();
        }
        Stepped {
            row: Row {
                kind: SEEK,
                place: (t - self.start) / self.duration,
                ..Row::default()
            },
            done: false,
        }
    }

    // `reset`, and then synchronised.
    #[tactic(auto, using(crate::proofs::KindBound::synced_kind), unfolding(crate::specs::Rows::reset_first))]
    fn restarted(self, t: f32) -> Stepped
        ensures { result ≡ reset_first (synced t self) }
    {
        let mut s = self.synced(t);
        s.row.kind += RESET;
        s
    }

    // `tick_forward` for an entry that does not start after the step, test by test.
    #[tactic(auto, unfolding(crate::specs::Rows::ticked))]
    fn ticked_begun(self, step: Step, reply: u8) -> Stepped
        requires { lt step.next self.start ≡ false }
        ensures { result ≡ ticked step.prev step.next self reply }
    {
        let end = self.end();
        let entered = step.prev <= self.start && step.next >= self.start;
        let instant = self.duration == 0.0;
        let from = float32::max(step.prev, self.start);
        let to = float32::min(step.next, end);
        let updates = !instant && from < to;
        let stopped = updates && reply == 0;
        let ends = if instant {
            step.next >= self.start
        } else {
            step.next >= end
        };
        let kept = !entered && self.done;
        Stepped {
            row: Row {
                kind: u8::from(entered) * RESET
                    + u8::from(updates) * UPDATE
                    + u8::from(ends) * SEEK,
                amount: if updates { to - from } else { 0.0 },
                place: if ends { 1.0 } else { 0.0 },
            },
            done: ends || stopped || kept,
        }
    }

    // The entry is updated by the whole step.
    fn ticked_inside(self, step: Step, reply: u8) -> Stepped
        ensures { result ≡ stepped (row 4 (sub binary32 step.next step.prev) zero_f) (eqb reply 0 || self.done) }
    {
        Stepped {
            row: Row {
                kind: UPDATE,
                amount: step.next - step.prev,
                ..Row::default()
            },
            done: reply == 0 || self.done,
        }
    }

    // `tick_forward` for one entry, with its leaf's reply: 0 stopped, 1 running; a byte, as paper 01 lends it.
    // Most steps lie inside the run or behind it, so these are told first.
    #[tactic(auto, unfolding(crate::specs::Rows::ticked))]
    pub fn ticked(self, step: Step, reply: u8) -> Stepped
        ensures { result ≡ ticked step.prev step.next self reply }
    {
        let end = self.end();
        if step.next < self.start {
            return reset_entry();
        }
        if step.is_inside(self.start, end) {
            return self.ticked_inside(step, reply);
        }
        if step.is_behind(self.start, end) {
            return end_entry();
        }
        self.ticked_begun(step, reply)
    }
}

impl Rule {
    // What it sends to an entry.
    pub fn sent_to(self, e: Entry) -> Stepped
        ensures { result ≡ ruled self e }
    {
        match self {
            Rule::Keep => e.kept(),
            Rule::Clear => reset_entry(),
            Rule::Sync(t) => e.synced(t),
            Rule::Restart(t) => e.restarted(t),
        }
    }
}

// The worked cases of specs/Cases.antt hold.
pub fn claimed()
    ensures { T (all_hold table) }
{}
