// Timelines (timeline.rs), in the Rust's order. A call that moves what plays is a door to the engine of crate player: the track is laid
// out in columns, the call is made there, and its marks are put back. A refused call leaves the caller's timeline, which it has by value.
// Of the Rust's private functions, crate steps has `local_time_for_elapsed` and what `tick_forward` and `sync_to_elapsed` do to one
// entry, crate completions `entry_completion_labels_between`, crate clock the state.
ghost use Rattle.std.specs.Prelude.{◌≡◌, ◌<◌, length, get_or};
ghost use Rattle.steps.specs.Times.{max_entries};
ghost use Rattle.label.specs.Label.{first_like};
ghost use Rattle.clock.specs.Clocks.{is_completed};
ghost use Rattle.track.specs.Tracks.{live, with_marks, track_base, track_run, progress_of, blank};
ghost use Rattle.track.specs.Calls.{Room, TrackCall, Looping, SetTimeScale, Play, Pause, Resume, Reset, Seek, SeekAbs, with_clock};
ghost use Rattle.timeline.specs.Placements.{empty, live_labels, start_found, named_start, resolve_start, grown};
ghost use Rattle.timeline.specs.Calls.{Add, AddBoxed, AddAtLabel, On, added_at, with_track, step};
ghost use Rattle.timeline.specs.Answers.{Adds, KeepsMarks, Makes, Moves, Updates, Shows, left_by};
ghost use Rattle.timeline.specs.Introspections.{introspected};

use crate::introspection::{AnimationIntrospection, AnimationKind};
use clock::{Clock, TimelineState};
use completions::SpanArrays;
use label::{Label, MAX_LABEL};
use player::engine::{Player, Updated, preview};
use refusal::Refusal;
use steps::{Entry, MAX_ENTRIES};
use track::rows::Rows;
use track::track::{Secs, Share, Track};
use tween::Loop;

// Where an entry starts. The label case carries the number of an entry, and means that entry's label. A type of its own: what a sheet
// stores keeps the bits of the seconds, and a script has a label's text.
#[derive(Clone, Copy, Debug, PartialEq)]
pub enum At {
    // At this second.
    Absolute(f32),
    // At second 0.
    Start,
    // Where the last entry ends.
    End,
    // Where the first entry with that entry's label starts.
    Label(usize),
    // This long after the end.
    Offset(f32),
}

// What plays, and what its entries are called: a label for each slot of the track's array, since the engine reads no labels.
#[derive(Clone, Copy, Debug)]
pub struct Timeline {
    pub track: Track,
    pub labels: [Label; MAX_ENTRIES],
}

impl Timeline {
    // An empty timeline: Idle at 0, Once, scale 1.
    pub fn new() -> Timeline
        ensures { result ≡ empty }
    {
        Timeline {
            track: Track::new(),
            labels: [Label::new(b""); MAX_ENTRIES],
        }
    }

    // One entry more, where `at` says: refused by 1 where there is no room, then by 2 where its label is too long.
    pub fn add(self, label: &[u8], at: At, duration: f32) -> Result<Timeline, Refusal>
        ensures { Adds (step self (Add label.now at duration)) self result }
    {
        self.push(label, self.resolve_start(at), duration)
    }

    // The same: in the Rust, of a leaf that is boxed already.
    pub fn add_boxed_with_duration(
        self,
        label: &[u8],
        at: At,
        duration: f32,
    ) -> Result<Timeline, Refusal>
        ensures { Adds (step self (AddBoxed label.now at duration)) self result }
    {
        self.add(label, at, duration)
    }

    // `add` at a label that is named by its bytes; a target above MAX_LABEL bytes is not found.
    pub fn add_at_label(
        self,
        label: &[u8],
        target: &[u8],
        duration: f32,
    ) -> Result<Timeline, Refusal>
        ensures { Adds (step self (AddAtLabel label.now target.now duration)) self result }
    {
        self.push(label, self.named_start(target), duration)
    }

    // Sets what happens at the end of the base.
    pub fn looping(self, mode: Loop) -> Timeline
        ensures { result ≡ (step self (On (Looping mode))).timeline }
    {
        self.with_track(Track {
            looping: mode,
            ..self.track
        })
    }

    // Sets the speed: 1.0 is normal; negative and NaN become 0.
    pub fn set_time_scale(self, scale: f32) -> Timeline
        ensures { result ≡ (step self (On (SetTimeScale scale))).timeline }
    {
        self.with_clock(self.track.clock.scaled(scale))
    }

    // Begins to play; from Completed, from the beginning.
    pub fn play(self, rows: &mut Rows<'_>) -> Result<Timeline, Refusal>
        ensures { Moves self Play result rows }
    {
        let mut marks = [false; MAX_ENTRIES];
        let clock = self.moved(&mut marks, rows, |player, rows| player.play(rows))?;
        Ok(self.left(clock, &marks))
    }

    // Pauses what is Playing.
    pub fn pause(self) -> Timeline
        ensures { result ≡ (step self (On Pause)).timeline }
    {
        self.with_clock(self.track.clock.paused())
    }

    // Plays on what is Paused.
    pub fn resume(self) -> Timeline
        ensures { result ≡ (step self (On Resume)).timeline }
    {
        self.with_clock(self.track.clock.resumed())
    }

    // Back to the beginning, with every entry.
    pub fn reset(self, rows: &mut Rows<'_>) -> Result<Timeline, Refusal>
        ensures { Moves self Reset result rows }
    {
        let mut marks = [false; MAX_ENTRIES];
        let clock = self.moved(&mut marks, rows, |player, rows| player.reset(rows))?;
        Ok(self.left(clock, &marks))
    }

    // To a share of the run; of an infinite run, to a share of the base.
    pub fn seek(self, to: Share, rows: &mut Rows<'_>) -> Result<Timeline, Refusal>
        ensures { Moves self (Seek to.0) result rows }
    {
        let mut marks = [false; MAX_ENTRIES];
        let clock = self.moved(&mut marks, rows, |player, rows| player.seek(to, rows))?;
        Ok(self.left(clock, &marks))
    }

    // To a second of the run.
    pub fn seek_abs(self, to: Secs, rows: &mut Rows<'_>) -> Result<Timeline, Refusal>
        ensures { Moves self (SeekAbs to.0) result rows }
    {
        let mut marks = [false; MAX_ENTRIES];
        let clock = self.moved(&mut marks, rows, |player, rows| player.seek_abs(to, rows))?;
        Ok(self.left(clock, &marks))
    }

    // The base: where the last entry ends.
    pub fn duration(self) -> f32
        ensures { result ≡ track_base self.track }
    {
        self.track.duration()
    }

    // How far it has come, from 0 to 1.
    pub fn progress(self) -> f32
        ensures { result ≡ progress_of self.track }
    {
        self.track.progress()
    }

    // Whether it has played to its end.
    pub fn is_complete(self) -> bool
        ensures { result ≡ is_completed self.track.clock.state }
    {
        self.state().is_completed()
    }

    // The playback state.
    pub fn state(self) -> TimelineState
        ensures { result ≡ self.track.clock.state }
    {
        self.track.clock.state
    }

    // Seconds of play so far.
    pub fn elapsed(self) -> f32
        ensures { result ≡ self.track.clock.elapsed }
    {
        self.track.clock.elapsed
    }

    // How many entries there are.
    pub fn entry_count(self) -> usize
        ensures { result ≡ length (live self.track) }
    {
        self.track.entry_count()
    }

    // Where an entry starts.
    fn resolve_start(self, at: At) -> f32
        ensures { result ≡ resolve_start self at }
    {
        match at {
            At::Absolute(secs) => float32::max(secs, 0.0),
            At::Start => 0.0,
            At::End => self.duration(),
            At::Label(k) => self.start_found(label::find_like(self.live_labels(), k)),
            At::Offset(offset) => float32::max(self.duration() + offset, 0.0),
        }
    }

    // The start of the first entry with this label, or the base.
    fn named_start(self, target: &[u8]) -> f32
        ensures { result ≡ named_start self target.now }
    {
        self.start_found(label::find(self.live_labels(), target))
    }

    // The labels of the entries that count.
    fn live_labels(&self) -> &[Label]
        ensures { result.now ≡ live_labels self.now }
    {
        &self.labels[..self.track.count.min(MAX_ENTRIES)]
    }

    // The start of the entry whose label was found, or the base.
    fn start_found(self, found: Option<usize>) -> f32
        ensures { result ≡ start_found self found }
    {
        match found {
            Some(i) => self.start_at(i),
            None => self.duration(),
        }
    }

    // The start of entry i; 0 where there is none.
    fn start_at(self, i: usize) -> f32
        ensures { result ≡ (get_or (live self.track) i blank).start }
    {
        self.track.entries().get(i).map_or(0.0, |e| e.start)
    }

    // One entry more, if there is room for it and for its label.
    #[tactic(auto, using(crate::proofs::Growing::full))]
    fn push(self, label: &[u8], start: f32, duration: f32) -> Result<Timeline, Refusal>
        ensures { Adds (added_at self label.now start duration) self result }
    {
        if self.track.count >= MAX_ENTRIES {
            return Err(Refusal::TimelineFull);
        }
        if label.len() > MAX_LABEL {
            return Err(Refusal::LabelTooLong);
        }
        Ok(self.grown(label, start, duration))
    }

    // One entry more, in the slot of the count.
    fn grown(mut self, label: &[u8], start: f32, duration: f32) -> Timeline
        requires { self.track.count < max_entries }
        ensures { result ≡ grown self label.now start duration }
    {
        let n = self.track.count;
        self.track.entries[n] = Entry {
            start,
            duration: float32::max(duration, 0.0),
            done: false,
        };
        self.labels[n] = Label::new(label);
        self.track.count = n + 1;
        self
    }

    // What plays is another track; the labels stay.
    fn with_track(self, track: Track) -> Timeline
        ensures { result ≡ with_track self track }
    {
        Timeline { track, ..self }
    }

    // What plays has another clock.
    fn with_clock(self, clock: Clock) -> Timeline
        ensures { result ≡ with_track self (with_clock self.track clock) }
    {
        self.with_track(Track {
            clock,
            ..self.track
        })
    }

    // A call that moves what plays, made by a player of the track's columns: the clock that it leaves, and the marks. What is handed out is
    // small: a timeline that goes through this answer, too, is copied once more.
    fn moved<F: FnOnce(&mut Player<'_, '_>, &mut Rows<'_>) -> Result<(), Refusal>>(
        self,
        marks: &mut [bool; MAX_ENTRIES],
        rows: &mut Rows<'_>,
        make: F,
    ) -> Result<Clock, Refusal>
        requires callable { F.IsAlwaysCallable make }
        requires kept { KeepsMarks (F.post make) }
        ensures { (call : Room → TrackCall) → Makes (F.post make) call → Moves self call (left_by self result marks.new) rows }
    {
        let mut held = SpanArrays {
            starts: [0.0; MAX_ENTRIES],
            durations: [0.0; MAX_ENTRIES],
        };
        let head = self
            .track
            .lay_out(&mut held.starts, &mut held.durations, marks);
        let mut player = Player {
            head,
            spans: held.spans(),
            marks,
        };
        make(&mut player, rows)?;
        Ok(player.head.clock)
    }

    // What is left of it after a call in columns that its track was laid out in: the clock and the marks are those of there.
    fn left(self, clock: Clock, marks: &[bool]) -> Timeline
        ensures { result ≡ with_track self (with_marks self.track clock marks.now) }
    {
        self.with_track(self.track.with_marks(clock, marks))
    }

    // The run: the base times the number of passes, infinite for the endless modes.
    pub fn playback_duration(self) -> f32
        ensures { result ≡ track_run self.track }
    {
        self.track.playback_duration()
    }

    // Advances by dt seconds, with each leaf's reply (0 stopped, 1 running). The list takes the numbers of the entries that completed.
    // Not by `moved`, tried: of a list that a closure takes along a proof knows nothing after the call.
    pub fn update(
        self,
        dt: f32,
        replies: &[u8],
        list: &mut [u8],
        rows: &mut Rows<'_>,
    ) -> Result<(Updated, Timeline), Refusal>
        ensures { Updates self dt replies result list rows }
    {
        let mut held = SpanArrays {
            starts: [0.0; MAX_ENTRIES],
            durations: [0.0; MAX_ENTRIES],
        };
        let mut marks = [false; MAX_ENTRIES];
        let head = self
            .track
            .lay_out(&mut held.starts, &mut held.durations, &mut marks);
        let mut player = Player {
            head,
            spans: held.spans(),
            marks: &mut marks,
        };
        let made = player.update(dt, replies, list, rows)?;
        Ok((made, self.left(player.head.clock, player.marks)))
    }

    // The rows that such an update would write, with room enough; the timeline stays.
    pub fn preview(self, dt: f32, rows: &mut Rows<'_>) -> Result<(), Refusal>
        ensures { Shows self dt result rows }
    {
        let mut held = SpanArrays {
            starts: [0.0; MAX_ENTRIES],
            durations: [0.0; MAX_ENTRIES],
        };
        let mut marks = [false; MAX_ENTRIES];
        let head = self
            .track
            .lay_out(&mut held.starts, &mut held.durations, &mut marks);
        preview(head, dt, held.spans(), &marks, rows)
    }

    // What is reported of it: its duration is the run.
    pub fn introspect(self) -> AnimationIntrospection
        ensures { result ≡ introspected self }
    {
        AnimationIntrospection::new(
            AnimationKind::Timeline,
            self.progress(),
            self.elapsed(),
            self.playback_duration(),
            self.state().into(),
        )
    }
}
