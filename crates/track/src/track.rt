// What plays (timeline.rs; paper 01, part 4): a track by value, and the way from it to three columns of numbers and back.
ghost use Rattle.std.specs.Prelude.{◌≡◌, length};
ghost use mathlib.Core.List.{foldl};
ghost use Rattle.float32.specs.Helpers.{zero_f, max_f};
ghost use Rattle.completions.specs.Columns.{first_ends};
ghost use Rattle.clock.specs.Clocks.{scaled, paused, resumed};
ghost use Rattle.track.specs.Tracks.{empty_track, live, with_marks, track_base, track_run, progress_in, progress_of};
ghost use Rattle.track.specs.Columns.{with_clock_at, with_mode_at, entries_in, track_of, laid_over};
ghost use Rattle.track.specs.Answers.{lent_track, LaidOut, ColumnsOf};
ghost use Rattle.track.specs.Claims.{Claims};

use clock::Clock;
use completions::{MOST_ENTRIES, SpanArrays, Spans};
use steps::{Entry, MAX_ENTRIES, Run};
use tween::Loop;

// Seconds of play, as `seek_abs` takes them.
#[derive(Clone, Copy, Debug, PartialEq)]
pub struct Secs(pub f32);

// A share of the run, from 0 to 1, as `seek` takes it.
#[derive(Clone, Copy, Debug, PartialEq)]
pub struct Share(pub f32);

// What plays. The entries that count are the first count of the array, or all of it: paper 01 has fixed arrays in place of `Vec`, and
// a track is `Copy`. Flat, with no `Playhead` in it, as the Rust's `Timeline` is: its shape stays, as a rule (docs/DECISIONS.md, "the
// struct's shape stays").
#[derive(Clone, Copy, Debug)]
pub struct Track {
    pub count: usize,
    pub entries: [Entry; MAX_ENTRIES],
    pub clock: Clock,
    pub looping: Loop,
}

// What plays, but for its entries, which stand in columns: how many of them count, the clock and the loop mode.
#[derive(Clone, Copy, Debug, PartialEq)]
pub struct Playhead {
    pub count: usize,
    pub clock: Clock,
    pub looping: Loop,
}

impl Playhead {
    // `looping`
    pub fn looping(self, mode: Loop) -> Playhead
        ensures { result ≡ with_mode_at self mode }
    {
        Playhead {
            looping: mode,
            ..self
        }
    }

    // `set_time_scale`
    pub fn set_time_scale(self, scale: f32) -> Playhead
        ensures { result ≡ with_clock_at self (scaled self.clock scale) }
    {
        self.with_clock(self.clock.scaled(scale))
    }

    // `pause`
    pub fn pause(self) -> Playhead
        ensures { result ≡ with_clock_at self (paused self.clock) }
    {
        self.with_clock(self.clock.paused())
    }

    // `resume`
    pub fn resume(self) -> Playhead
        ensures { result ≡ with_clock_at self (resumed self.clock) }
    {
        self.with_clock(self.clock.resumed())
    }

    // The playhead with the clock that a call left.
    pub fn with_clock(self, clock: Clock) -> Playhead
        ensures { result ≡ with_clock_at self clock }
    {
        Playhead {
            clock: clock.kept(),
            ..self
        }
    }

    // How many entries of the columns count: as many as the count, a byte's numbers and the shortest column allow.
    pub fn entries(self, spans: Spans<'_>, marks: usize) -> usize
        ensures { result ≡ entries_in self.count (length spans.entry.starts.now) (length spans.entry.durations.now) marks }
    {
        self.count.min(MOST_ENTRIES).min(spans.len()).min(marks)
    }

    // How the first n entries play: the loop mode and the base.
    pub fn run(self, n: usize, spans: Spans<'_>) -> Run
        ensures { (result.mode ≡ self.looping) × (result.base ≡ foldl max_f zero_f (first_ends n spans.entry)) }
    {
        Run {
            mode: self.looping,
            base: completions::base(spans.first(n)),
        }
    }
}

// The queries, over the columns.
impl Playhead {
    // How all that count play.
    fn whole_run(self, spans: Spans<'_>, marks: &[bool]) -> Run
        ensures { (result.mode ≡ self.looping) × (result.base ≡ track_base (lent_track self spans.entry marks)) }
    {
        self.run(self.entries(spans, marks.len()), spans)
    }

    // The base: `duration`.
    pub fn duration(self, spans: Spans<'_>, marks: &[bool]) -> f32
        ensures { result ≡ track_base (lent_track self spans.entry marks) }
    {
        self.whole_run(spans, marks).base
    }

    // The run: `playback_duration`.
    #[tactic(auto, unfolding(crate::specs::Columns::track_of))]
    pub fn playback_duration(self, spans: Spans<'_>, marks: &[bool]) -> f32
        ensures { result ≡ track_run (lent_track self spans.entry marks) }
    {
        self.whole_run(spans, marks).total()
    }

    // `progress`
    #[tactic(auto, unfolding(crate::specs::Columns::track_of))]
    pub fn progress(self, spans: Spans<'_>, marks: &[bool]) -> f32
        ensures { result ≡ progress_of (lent_track self spans.entry marks) }
    {
        let run = self.whole_run(spans, marks);
        progress_in(run, run.total(), self.clock.elapsed)
    }
}

// `progress` at an elapsed time.
#[tactic(auto, unfolding(crate::specs::Tracks::progress_in))]
pub fn progress_in(run: Run, total: f32, elapsed: f32) -> f32
    ensures { result ≡ progress_in run.mode run.base total elapsed }
{
    if total == 0.0 {
        return 1.0;
    }
    if float32::is_finite(total) {
        return float32::clamp(elapsed / total, 0.0, 1.0);
    }
    if run.base == 0.0 {
        return 1.0;
    }
    float32::clamp(run.local_time(elapsed) / run.base, 0.0, 1.0)
}

// The loops go by index. Tried without, in `with_marks`: after `iter_mut` under a `zip` a proof knows how many entries there are, and not
// what was written.
impl Track {
    // `Timeline::new`
    #[tactic(auto, unfolding(crate::specs::Tracks::empty_track))]
    pub fn new() -> Track
        ensures { result ≡ empty_track }
    {
        Track {
            count: 0,
            entries: [Entry::default(); MAX_ENTRIES],
            clock: Clock::default(),
            looping: Loop::Once,
        }
    }

    // The live entries into the three columns, as many as these have room for, and the playhead to play them with.
    pub fn lay_out(self, starts: &mut [f32], durations: &mut [f32], marks: &mut [bool]) -> Playhead
        ensures { LaidOut self result starts durations marks }
    {
        let room = starts.len().min(durations.len()).min(marks.len());
        let n = self.entry_count().min(room);
        for i in 0..n {
            let e = self.entries[i];
            starts[i] = e.start;
            durations[i] = e.duration;
            marks[i] = e.done;
        }
        Playhead {
            count: n,
            clock: self.clock,
            looping: self.looping,
        }
    }

    // The way back: what plays in the columns, over the first of the entries here.
    pub fn gather(mut self, head: Playhead, spans: Spans<'_>, marks: &[bool]) -> Track
        ensures { result ≡ laid_over self (track_of head spans.entry.starts.now spans.entry.durations.now marks.now) }
    {
        let n = head.entries(spans, marks.len()).min(MAX_ENTRIES);
        for i in 0..n {
            self.entries[i] = Entry {
                start: spans.starts[i],
                duration: spans.durations[i],
                done: marks[i],
            };
        }
        Track {
            count: n,
            entries: self.entries,
            clock: head.clock,
            looping: head.looping,
        }
    }

    // This track after a call in columns that it was laid out in, which left the clock and the marks.
    pub fn with_marks(self, clock: Clock, marks: &[bool]) -> Track
        ensures { result ≡ with_marks self clock marks.now }
    {
        let mut entries = self.entries;
        let n = self.entry_count().min(marks.len());
        for i in 0..n {
            entries[i].done = marks[i];
        }
        Track {
            entries,
            clock,
            ..self
        }
    }

    // The base: `duration`.
    pub fn duration(self) -> f32
        ensures { result ≡ track_base self }
    {
        let mut held = SpanArrays {
            starts: [0.0; MAX_ENTRIES],
            durations: [0.0; MAX_ENTRIES],
        };
        let marks = &mut [false; MAX_ENTRIES];
        let head = self.lay_out(&mut held.starts, &mut held.durations, marks);
        head.duration(held.spans(), marks)
    }

    // How its entries play.
    fn run(self) -> Run
        ensures { (result.mode ≡ self.looping) × (result.base ≡ track_base self) }
    {
        Run {
            mode: self.looping,
            base: self.duration(),
        }
    }

    // The run: `playback_duration`.
    pub fn playback_duration(self) -> f32
        ensures { result ≡ track_run self }
    {
        self.run().total()
    }

    // `progress`
    pub fn progress(self) -> f32
        ensures { result ≡ progress_of self }
    {
        let run = self.run();
        progress_in(run, run.total(), self.clock.elapsed)
    }

    // The entries that count.
    pub fn entries(&self) -> &[Entry]
        ensures { result.now ≡ live self.now }
    {
        &self.entries[..self.entry_count()]
    }

    // How many entries count: `entry_count`.
    pub fn entry_count(self) -> usize
        ensures { result ≡ length (live self) }
    {
        self.count.min(MAX_ENTRIES)
    }
}

// The columns of a track by value, and the playhead to play them with: the way to the engine for who has no columns to lend.
#[derive(Clone, Copy, Debug)]
pub struct Columns {
    pub head: Playhead,
    pub held: SpanArrays<MAX_ENTRIES>,
    pub marks: [bool; MAX_ENTRIES],
}

impl Columns {
    // The columns of this track, with 0.0 and false behind its entries.
    pub fn of(track: Track) -> Columns
        ensures { ColumnsOf track result }
    {
        let mut held = SpanArrays {
            starts: [0.0; MAX_ENTRIES],
            durations: [0.0; MAX_ENTRIES],
        };
        let mut marks = [false; MAX_ENTRIES];
        let head = track.lay_out(&mut held.starts, &mut held.durations, &mut marks);
        Columns { head, held, marks }
    }
}

// The claims of specs/Claims.antt hold.
pub fn claimed()
    ensures { Claims }
{}
