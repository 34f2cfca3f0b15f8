// The clocked calls of timeline.rs on what plays in three lent columns. Each leaves its clock in the playhead; a refused one has moved
// nothing.
ghost use Rattle.std.specs.Prelude.{◌≡◌, [], ◌≤◌, length};
ghost use Rattle.clock.specs.Clocks.{advanced_clock, stayed_clock};
ghost use Rattle.track.specs.Tracks.{live, track_base};
ghost use Rattle.track.specs.Calls.{Play, Reset, Seek, SeekAbs, updated};
ghost use Rattle.track.specs.Answers.{reached_from, stayed_in};
ghost use Rattle.player.specs.Loops.{Writes, SentIn};
ghost use Rattle.player.specs.Answered.{at_clock, playing_in, answer_of, ticked_to, synced_to, MovesInPlace, UpdatesInPlace, UpdatesTo, ShowsInPlace};

use crate::entries::{apply, outnumber, tick};
use clock::Reach;
use completions::{MOST_ENTRIES, Spans};
use refusal::Refusal;
use steps::{Rule, Run, Step};
use track::checks::check_replies;
use track::rows::Rows;
use track::track::{Columns, Playhead, Secs, Share};

// What plays in lent columns: the playhead, where the entries stand, and their marks. How many of them count (n) is no field, since
// callers set the head. Nor has a type the loops' `Reads n` and `Writes n`: over a struct of the marks and rows of a call each contract
// would have to say by `ghost_name` which slices it holds, where now the arguments say it of the marks.
#[derive(Drop)]
pub struct Player<'s, 'm> {
    pub head: Playhead,
    pub spans: Spans<'s>,
    pub marks: &'m mut [bool],
}

// The answer of update: whether it still runs, whether the whole-run completion fired now, and how many entries it listed.
#[derive(Clone, Copy, Debug, PartialEq, Eq)]
pub struct Updated {
    pub running: bool,
    pub completed: bool,
    pub listed: usize,
}

impl Player<'_, '_> {
    // The player of a track's columns. What its calls leave stands in it: the playhead, and the marks.
    pub fn of(columns: &mut Columns) -> Player<'_, '_>
        ensures { (result.head ≡ columns.old.head) × (result.spans.starts.now ≡ columns.old.held.starts) × (result.spans.durations.now ≡ columns.old.held.durations) × (result.marks.now ≡ columns.old.marks) }
    {
        let Columns { head, held, marks } = columns;
        Player {
            head: *head,
            spans: held.spans(),
            marks,
        }
    }

    // `play`
    pub fn play(&mut self, rows: &mut Rows<'_>) -> Result<(), Refusal>
        ensures { MovesInPlace self.old Play result self.new rows.old rows.new }
    {
        let n = self.head.entries(self.spans, self.marks.len());
        rows.check(n)?;
        let run = self.head.run(n, self.spans);
        let rule = self.head.clock.play_rule(run);
        apply(n, rule, self.spans, self.marks, rows);
        self.head = self.head.with_clock(self.head.clock.played(run.base));
        Ok(())
    }

    // `reset`
    pub fn reset(&mut self, rows: &mut Rows<'_>) -> Result<(), Refusal>
        ensures { MovesInPlace self.old Reset result self.new rows.old rows.new }
    {
        let n = self.head.entries(self.spans, self.marks.len());
        rows.check(n)?;
        apply(n, Rule::Clear, self.spans, self.marks, rows);
        self.head = self.head.with_clock(self.head.clock.cleared());
        Ok(())
    }

    // `seek`: a share of the run, or of the base where the run is not finite.
    pub fn seek(&mut self, to: Share, rows: &mut Rows<'_>) -> Result<(), Refusal>
        ensures { MovesInPlace self.old (Seek to.0) result self.new rows.old rows.new }
    {
        let n = self.head.entries(self.spans, self.marks.len());
        rows.check(n)?;
        let run = self.head.run(n, self.spans);
        let total = run.total();
        let elapsed = clock::seek_to(total, clock::share_in(run.base, total, to.0));
        let rule = Rule::Sync(run.local_time(elapsed));
        apply(n, rule, self.spans, self.marks, rows);
        self.head = self.head.with_clock(self.head.clock.sought(total, elapsed));
        Ok(())
    }

    // `seek_abs`. A body of its own: a common middle of the seeks is called from two places, so it is not built in, and costs 8 to 11 ns
    // (docs/DECISIONS.md).
    pub fn seek_abs(&mut self, to: Secs, rows: &mut Rows<'_>) -> Result<(), Refusal>
        ensures { MovesInPlace self.old (SeekAbs to.0) result self.new rows.old rows.new }
    {
        let n = self.head.entries(self.spans, self.marks.len());
        rows.check(n)?;
        let run = self.head.run(n, self.spans);
        let total = run.total();
        let elapsed = clock::seek_to(total, to.0);
        let rule = Rule::Sync(run.local_time(elapsed));
        apply(n, rule, self.spans, self.marks, rows);
        self.head = self.head.with_clock(self.head.clock.sought(total, elapsed));
        Ok(())
    }

    // `update`, with each leaf's reply. The list takes the numbers of the entries that completed. Replies, list and rows are lent one by
    // one: `Timeline::update` and `script::make` have them so, and would have to make a struct for each call.
    pub fn update(
        &mut self,
        dt: f32,
        replies: &[u8],
        list: &mut [u8],
        rows: &mut Rows<'_>,
    ) -> Result<Updated, Refusal>
        ensures { UpdatesInPlace self.old dt replies.now result self.new list.old list.new rows.old rows.new }
    {
        let n = self.head.entries(self.spans, self.marks.len());
        rows.check(n)?;
        check_replies(replies, n)?;
        let run = self.head.run(n, self.spans);
        if !self.head.clock.advances(run.base) {
            apply(n, Rule::Keep, self.spans, self.marks, rows);
            return Ok(self.stay());
        }
        let next = self.head.clock.next_elapsed(dt);
        if run.mode.is_once() {
            return self.tick_to(n, run.base, next, replies, list, rows);
        }
        self.sync_to(n, run, next, list, rows)
    }

    // An update in Once: a tick within the base, if the list has room for the entries that it completes.
    fn tick_to(
        &mut self,
        n: usize,
        base: f32,
        next: f32,
        replies: &[u8],
        list: &mut [u8],
        rows: &mut Rows<'_>,
    ) -> Result<Updated, Refusal>
        requires { (n ≡ length (live (playing_in self.old))) × Writes n rows.old × (n ≤ length replies.now) }
        ensures { UpdatesTo self.old (ticked_to (playing_in self.old) base next replies.now) result self.new list.old list.new rows.old rows.new }
    {
        let to = clock::reach_within(base, next);
        let step = Step {
            prev: float32::min(self.head.clock.elapsed, base),
            next: to.elapsed,
        };
        let marks = &mut *self.marks;
        if outnumber(n, step, self.spans, marks, replies, list.len()) {
            return Err(Refusal::ListTooShort);
        }
        let listed = tick(n, step, self.spans, marks, replies, list, rows);
        Ok(self.reach(to, listed))
    }

    // An update in another mode: the completions are listed, if the list has room for them, and every entry is synchronised.
    fn sync_to(
        &mut self,
        n: usize,
        run: Run,
        next: f32,
        list: &mut [u8],
        rows: &mut Rows<'_>,
    ) -> Result<Updated, Refusal>
        requires { (n ≡ length (live (playing_in self.old))) × Writes n rows.old × (run.mode ≡ self.old.head.looping) × (run.base ≡ track_base (playing_in self.old)) }
        ensures { UpdatesTo self.old (synced_to (playing_in self.old) run.base next) result self.new list.old list.new rows.old rows.new }
    {
        let to = clock::reach_of(run, next);
        let step = Step {
            prev: self.head.clock.elapsed,
            next,
        };
        let found = completions::between(self.spans.first(n), run, step, list);
        let listed = found.ok_or(Refusal::ListTooShort)?;
        let rule = Rule::Sync(run.local_time(to.elapsed));
        apply(n, rule, self.spans, self.marks, rows);
        Ok(self.reach(to, listed))
    }

    // Sets the clock of an update that comes to `to`, and answers it.
    fn reach(&mut self, to: Reach, listed: usize) -> Updated
        ensures { (answer_of result ≡ reached_from self.old.head.clock to.ended listed) × (self.new ≡ at_clock self.old (advanced_clock self.old.head.clock to.elapsed to.ended)) }
    {
        let before = self.head.clock;
        self.head = self.head.with_clock(before.advanced(to));
        Updated {
            running: !to.ended,
            completed: before.fires(to.ended),
            listed,
        }
    }

    // Answers an update that does not go on: it is at rest, or has nothing to play, which ends the run.
    fn stay(&mut self) -> Updated
        ensures { (answer_of result ≡ stayed_in self.old.head.clock) × (self.new ≡ at_clock self.old (stayed_clock self.old.head.clock)) }
    {
        let before = self.head.clock;
        if before.state.is_playing() {
            let to = Reach {
                elapsed: before.elapsed,
                ended: true,
            };
            return self.reach(to, 0);
        }
        Updated {
            running: !before.state.is_completed(),
            completed: false,
            listed: 0,
        }
    }

    // The rows of an update of all n entries, with marks that are not kept.
    fn show(&mut self, n: usize, dt: f32, rows: &mut Rows<'_>)
        requires { (n ≡ length (live (playing_in self.old))) × Writes n rows.old }
        ensures { SentIn (updated (playing_in self.old) dt []).rows rows.old rows.new }
    {
        let run = self.head.run(n, self.spans);
        let next = self.head.clock.next_elapsed(dt);
        let to = clock::reach_of(run, next);
        let advances = self.head.clock.advances(run.base);
        let once = run.mode.is_once();
        let ticks = advances & once;
        if ticks {
            let step = Step {
                prev: float32::min(self.head.clock.elapsed, run.base),
                next: to.elapsed,
            };
            let replies = [1u8; MOST_ENTRIES];
            let mut list = [0u8; MOST_ENTRIES];
            tick(n, step, self.spans, self.marks, &replies, &mut list, rows);
            return;
        }
        let rule = self.head.clock.advance_rule(run, to.elapsed);
        apply(n, rule, self.spans, self.marks, rows);
    }
}

// The rows that `update` with room enough would write: it goes over a copy of the marks. It refuses by 3 only.
pub fn preview(
    head: Playhead,
    dt: f32,
    spans: Spans<'_>,
    marks: &[bool],
    rows: &mut Rows<'_>,
) -> Result<(), Refusal>
    ensures { ShowsInPlace head spans.entry marks.now dt result rows.old rows.new }
{
    let n = head.entries(spans, marks.len());
    rows.check(n)?;
    let mut copy = [false; MOST_ENTRIES];
    copy[..n].copy_from_slice(&marks[..n]);
    let head = Playhead { count: n, ..head };
    let mut player = Player {
        head,
        spans,
        marks: &mut copy,
    };
    player.show(n, dt, rows);
    Ok(())
}
