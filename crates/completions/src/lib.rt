// Where a timeline's entries end, and what completes outside Once: `duration` and `entry_completion_labels_between` of
// timeline.rs, the latter as entry numbers. Entries are two lent columns, their starts and their durations.
// One pass over the cycles counts the completions, and stops as soon as they outnumber the lent list; a second pass writes them.
#![tactic(auto)]

ghost use Rattle.std.specs.Prelude.{◌≡◌, true, false, cond, ◌+◌, ◌-◌, ◌≤◌, max, length, leb, Option, Some, None};
ghost use mathlib.Core.List.{foldl};
ghost use Rattle.std.specs.Range.{range_inclusive_start, range_inclusive_end, range_inclusive_exhausted};
ghost use Rattle.std.proofs.lemmas.List.Edits.{sets};
ghost use Rattle.std.specs.Float.Ieee.{is_nan, lt};
ghost use Rattle.float32.specs.Helpers.{zero_f, max_f};
ghost use Rattle.steps.specs.Slices.{over};
ghost use Rattle.completions.specs.Completions.{last_cycle, cycle_start, completes, in_cycle, breaks_at, walk_of, first_cycle, cycles_from, completions_in, empty_at_nan};
ghost use Rattle.completions.specs.Columns.{most_entries, ends, first_ends};
ghost use Rattle.completions.specs.Answers.{counted, Listed};
ghost use Rattle.completions.specs.Claims.{Claims};

use std::ops::RangeInclusive;
use steps::{Run, Step};
use tween::Loop;
use tween::loop_mode::passes;

// The list numbers entries in bytes: those past this many are not listed.
pub const MOST_ENTRIES: usize = 256;

// Where the entries stand: their starts and their durations, two lent columns, over which the loops run in place. Each has a
// length of its own, since whoever lends them may give any two: entries past the shorter column do not count. Copied alone: nobody
// shows or compares what is lent.
#[derive(Clone, Copy)]
pub struct Spans<'a> {
    pub starts: &'a [f32],
    pub durations: &'a [f32],
}

impl<'a> Spans<'a> {
    // How many entries there are.
    #[tactic(auto, using(crate::proofs::Columns::all_long))]
    pub fn len(self) -> usize
        ensures { result ≡ length (ends self.entry) }
    {
        self.starts.len().min(self.durations.len())
    }

    // The first n of them, or all where there are fewer.
    pub fn first(self, n: usize) -> Spans<'a>
        ensures { ends result ≡ first_ends n self.entry }
    {
        let n = n.min(self.len());
        Spans {
            starts: &self.starts[..n],
            durations: &self.durations[..n],
        }
    }
}

// Columns of N entries, held.
#[derive(Clone, Copy, Debug, PartialEq)]
pub struct SpanArrays<const N: usize> {
    pub starts: [f32; N],
    pub durations: [f32; N],
}

impl<const N: usize> SpanArrays<N> {
    // All of them, lent.
    pub fn spans(&self) -> Spans<'_>
        ensures { (result.starts.now ≡ self.now.starts) × (result.durations.now ≡ self.now.durations) }
    {
        Spans {
            starts: &self.starts,
            durations: &self.durations,
        }
    }
}

// The cycles from the first on: `cycle.saturating_add(1)`, and a break at u32::MAX, which so is gone over only where it is the first.
fn onward(first: u32) -> RangeInclusive<u32>
    ensures { (range_inclusive_start result ≡ first) × (range_inclusive_end result ≡ max first (last_cycle - 1)) × (range_inclusive_exhausted result ≡ false) }
{
    first..=first.max(u32::MAX - 1)
}

// What stays as it is over a walk.
#[derive(Clone, Copy)]
struct Walk {
    step: Step,
    period: f32,
    max_cycles: Option<u32>,
}

impl Walk {
    // `match self.looping`: how many cycles there are, and how long each is.
    fn over(run: Run, step: Step) -> Walk
        ensures { result ≡ walk_of run.mode run.base step.prev step.next }
    {
        let (max_cycles, period) = match run.mode {
            Loop::Once => (Some(1), run.base),
            Loop::Times(n) => (Some(passes(n)), run.base),
            Loop::Forever => (None, run.base),
            Loop::PingPong => (None, run.base * 2.0),
            Loop::PingPongTimes(n) => {
                let passes = passes(n);
                (Some(passes / 2 + passes % 2), run.base * 2.0)
            }
        };
        Walk {
            step,
            period,
            max_cycles,
        }
    }

    // `(prev / period).max(0.0) as u32`
    fn first_cycle(self) -> u32
        ensures { result ≡ first_cycle self }
    {
        float32::to_u32(float32::max(self.step.prev / self.period, 0.0))
    }

    // `cycle as f32 * period`
    #[tactic(auto, unfolding(crate::specs::Completions::cycle_start))]
    fn cycle_start(self, cycle: u32) -> f32
        ensures { result ≡ cycle_start self cycle }
    {
        float32::from_u32(cycle) * self.period
    }

    // Whether the loop breaks before this cycle.
    #[tactic(auto, unfolding(crate::specs::Completions::breaks_at))]
    fn breaks_at(self, cycle: u32) -> bool
        ensures { result ≡ breaks_at self cycle }
    {
        self.max_cycles.is_some_and(|most| cycle >= most)
            || self.cycle_start(cycle) > self.step.next
    }

    // `prev < completion && completion <= next`
    #[tactic(auto, unfolding(crate::specs::Completions::completes))]
    fn completes(self, start: f32, end: f32) -> bool
        ensures { result ≡ completes self start end }
    {
        let completion = start + end;
        self.step.prev < completion && completion <= self.step.next
    }

    // How many of the entries complete in the cycle that starts at start.
    fn count_cycle(self, spans: Spans, start: f32) -> usize
        ensures { result ≡ length (in_cycle self start 0 (ends spans.entry)) }
    {
        // no `filter(..).count()`: tried and slower
        let mut k: usize = 0;
        for (s, d) in spans.starts.iter().zip(spans.durations) {
            if self.completes(start, *s + *d) {
                k += 1;
            }
        }
        k
    }

    // Writes their numbers from `at` on, and says where the next one goes.
    fn write_cycle(self, spans: Spans, start: f32, list: &mut [u8], at: usize) -> usize
        requires { (length (ends spans) ≤ most_entries) × (at + length (in_cycle self start 0 (ends spans)) ≤ length list.old) }
        ensures { (result ≡ at + length (in_cycle self start 0 (ends spans.entry))) × (list.new ≡ sets list.old at (in_cycle self start 0 (ends spans.entry))) }
    {
        // by index: tried with `iter_mut`, whose loop's invariant cannot name the list, so that what was written stays open
        let mut k = at;
        for (i, (s, d)) in spans.starts.iter().zip(spans.durations).enumerate() {
            if self.completes(start, *s + *d) {
                list[k] = i as u8;
                k += 1;
            }
        }
        k
    }

    // The first pass: how many completions there are, or none where they are more than room.
    fn count(self, spans: Spans, first: u32, room: usize) -> Option<usize>
        ensures { result ≡ counted (leb (length (cycles_from self (ends spans.entry) first)) room) (length (cycles_from self (ends spans.entry) first)) }
    {
        let mut m: usize = 0;
        for cycle in onward(first) {
            if self.breaks_at(cycle) {
                break;
            }
            let k = self.count_cycle(spans, self.cycle_start(cycle));
            if room - m < k {
                return None;
            }
            m += k;
        }
        Some(m)
    }

    // The second pass: writes them over the front of a list that has room. Of the walk itself the passes share `onward` and one
    // test. One walk with a closure is no plainer: each turn asks something of the turns before it (here room in the list, above
    // m <= room), so the walk would take an invariant, and a proof that its closure keeps it, where each loop has its own.
    fn write(self, spans: Spans, first: u32, list: &mut [u8])
        requires { (length (ends spans) ≤ most_entries) × (length (cycles_from self (ends spans) first) ≤ length list.old) }
        ensures { list.new ≡ over (cycles_from self (ends spans.entry) first) list.old }
    {
        let mut m: usize = 0;
        for cycle in onward(first) {
            if self.breaks_at(cycle) {
                break;
            }
            m = self.write_cycle(spans, self.cycle_start(cycle), list, m);
        }
    }

    // Both passes. Where there is nothing to write, the second is left out.
    fn list(self, spans: Spans, list: &mut [u8]) -> Option<usize>
        requires { length (ends spans) ≤ most_entries }
        ensures { Listed (cycles_from self (ends spans.entry) (first_cycle self)) list.old list.new result }
    {
        let first = self.first_cycle();
        let m = self.count(spans, first, list.len())?;
        if m > 0 {
            self.write(spans, first, list);
        }
        Some(m)
    }
}

// The larger of the two: `acc.max(end)`, where acc is no NaN. One test, where `float32::max` has two.
fn later(acc: f32, end: f32) -> f32
    ensures { result ≡ cond (lt acc end) end acc }
{
    if acc < end { end } else { acc }
}

// The base of these entries: `Timeline::duration`.
pub fn base(spans: Spans) -> f32
    ensures { result ≡ foldl max_f zero_f (ends spans.entry) }
{
    spans.starts.iter().zip(spans.durations).fold(
        0.0,
        |base, (start, duration)| later(base, *start + *duration),
    )
}

// What of these entries, of which those past `MOST_ENTRIES` are left out, completes in a step, over the front of the list: how
// many completions there are, or none where they outnumber the list. A step that does not go on, or that comes from a NaN or
// goes to one, has none.
pub fn between(spans: Spans, run: Run, step: Step, list: &mut [u8]) -> Option<usize>
    ensures { Listed (empty_at_nan step.prev step.next (completions_in run.mode (first_ends most_entries spans.entry) run.base step.prev step.next)) list.old list.new result }
{
    if !(step.prev < step.next) || run.base <= 0.0 {
        return Some(0);
    }
    let walk = Walk::over(run, step);
    if walk.period <= 0.0 {
        return Some(0);
    }
    walk.list(spans.first(MOST_ENTRIES), list)
}

// The claims of specs/Claims.antt hold.
pub fn claimed()
    ensures { Claims }
{}
