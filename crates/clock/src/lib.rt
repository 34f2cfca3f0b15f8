// The clock of a timeline, and what each call makes of it (timeline.rs; paper 01, part 4).
#![tactic(auto)]

ghost use Rattle.std.specs.Prelude.{◌≡◌};
ghost use Rattle.clock.specs.Clocks.{letter_of, is_playing, is_completed, new_clock, with_state, scaled, cleared, started, play_state, played, play_rule, paused_state, paused, resumed_state, resumed, unended, seek_to, share_in, seek_state, sought, advances, advance_rule, next_elapsed, within, reach_of, fires, advanced_clock};

use steps::{Rule, Run};
use tween::Loop;

// The playback state of a timeline, by its letter in a log.
#[derive(Clone, Copy, Debug, PartialEq, Eq)]
pub enum TimelineState {
    // Ready, and not advancing.
    Idle = b'I' as isize,
    // Advancing.
    Playing = b'P' as isize,
    // Stopped on the way.
    Paused = b'H' as isize,
    // At the end of a finite run.
    Completed = b'C' as isize,
}

// Seconds of play so far, the state, the time scale, and whether the whole-run completion has fired since the last reset.
#[derive(Clone, Copy, Debug, PartialEq)]
pub struct Clock {
    pub elapsed: f32,
    pub state: TimelineState,
    pub time_scale: f32,
    pub complete_fired: bool,
}

// Where an update comes to: the elapsed time, and whether the run ends there.
#[derive(Clone, Copy, Debug, PartialEq)]
pub struct Reach {
    pub elapsed: f32,
    pub ended: bool,
}

impl TimelineState {
    // Its letter in a log.
    pub fn letter(self) -> u8
        ensures { result ≡ letter_of self }
    {
        self as u8
    }

    // Whether it is advancing.
    pub fn is_playing(self) -> bool
        ensures { result ≡ is_playing self }
    {
        matches!(self, TimelineState::Playing)
    }

    // Whether it has come to its end.
    pub fn is_completed(self) -> bool
        ensures { result ≡ is_completed self }
    {
        matches!(self, TimelineState::Completed)
    }

    // What `pause` makes of it.
    fn paused(self) -> TimelineState
        ensures { result ≡ paused_state self }
    {
        match self {
            TimelineState::Playing => TimelineState::Paused,
            other => other,
        }
    }

    // What `resume` makes of it.
    fn resumed(self) -> TimelineState
        ensures { result ≡ resumed_state self }
    {
        match self {
            TimelineState::Paused => TimelineState::Playing,
            other => other,
        }
    }

    // What a seek that does not reach the end makes of it.
    fn unended(self) -> TimelineState
        ensures { result ≡ unended self }
    {
        match self {
            TimelineState::Completed => TimelineState::Playing,
            other => other,
        }
    }
}

// What `play` makes of any state: there is nothing to play where the base is 0.
#[tactic(auto, unfolding(crate::specs::Clocks::play_state))]
fn play_state(base: f32) -> TimelineState
    ensures { result ≡ play_state base }
{
    if base == 0.0 {
        TimelineState::Completed
    } else {
        TimelineState::Playing
    }
}

// What a seek that comes to elapsed, in a run of this length, makes of a state.
#[tactic(auto, unfolding(crate::specs::Clocks::seek_state))]
fn seek_state(total: f32, elapsed: f32, state: TimelineState) -> TimelineState
    ensures { result ≡ seek_state total elapsed state }
{
    if float32::is_finite(total) && elapsed >= total {
        TimelineState::Completed
    } else {
        state.unended()
    }
}

// Where a seek to these seconds comes to, in a run of this length.
#[tactic(auto, unfolding(crate::specs::Clocks::seek_to))]
pub fn seek_to(total: f32, secs: f32) -> f32
    ensures { result ≡ seek_to total secs }
{
    let least = float32::max(secs, 0.0);
    if float32::is_finite(total) {
        float32::min(least, total)
    } else {
        least
    }
}

// The second that a share stands for, in `seek`.
#[tactic(auto, unfolding(crate::specs::Clocks::share_in))]
pub fn share_in(base: f32, total: f32, share: f32) -> f32
    ensures { result ≡ share_in base total share }
{
    let whole = if float32::is_finite(total) {
        total
    } else {
        base
    };
    whole * float32::clamp(share, 0.0, 1.0)
}

// A run of this length bounds an update to next, and ends it.
pub fn reach_within(total: f32, next: f32) -> Reach
    ensures { result ≡ within total next }
{
    Reach {
        elapsed: float32::min(next, total),
        ended: next >= total,
    }
}

// Where an update to next comes to, by the mode, in a base that is not 0.
#[tactic(auto, unfolding(crate::specs::Clocks::reach_of))]
pub fn reach_of(run: Run, next: f32) -> Reach
    ensures { result ≡ reach_of run.mode run.base next }
{
    match run.mode {
        Loop::Once => reach_within(run.base, next),
        Loop::Times(n) | Loop::PingPongTimes(n) => {
            reach_within(steps::times_run(run.base, n), next)
        }
        Loop::Forever | Loop::PingPong => Reach {
            elapsed: next,
            ended: false,
        },
    }
}

// `Timeline::new`
impl Default for Clock {
    fn default() -> Clock
        ensures { result ≡ new_clock }
    {
        Clock {
            elapsed: 0.0,
            state: TimelineState::Idle,
            time_scale: 1.0,
            complete_fired: false,
        }
    }
}

impl Clock {
    // The clock, written field by field: a copy of the whole would wait for fields written just before.
    pub fn kept(self) -> Clock
        ensures { result ≡ self }
    {
        Clock {
            elapsed: self.elapsed,
            state: self.state,
            time_scale: self.time_scale,
            complete_fired: self.complete_fired,
        }
    }

    // The clock in another state.
    #[tactic(auto, unfolding(crate::specs::Clocks::with_state))]
    fn with_state(self, state: TimelineState) -> Clock
        ensures { result ≡ with_state self state }
    {
        Clock { state, ..self }
    }

    // `set_time_scale`: negative and NaN become 0.
    #[tactic(auto, unfolding(crate::specs::Clocks::scaled))]
    pub fn scaled(self, scale: f32) -> Clock
        ensures { result ≡ scaled self scale }
    {
        Clock {
            time_scale: float32::max(scale, 0.0),
            ..self
        }
    }

    // `reset`
    #[tactic(auto, unfolding(crate::specs::Clocks::cleared))]
    pub fn cleared(self) -> Clock
        ensures { result ≡ cleared self }
    {
        Clock {
            elapsed: 0.0,
            state: TimelineState::Idle,
            complete_fired: false,
            ..self
        }
    }

    // The clock from which `play` goes on: reset, where it is Completed.
    #[tactic(auto, unfolding(crate::specs::Clocks::started))]
    pub fn started(self) -> Clock
        ensures { result ≡ started self }
    {
        if self.state.is_completed() {
            self.cleared()
        } else {
            self
        }
    }

    // `play`, with this base.
    #[tactic(auto, unfolding(crate::specs::Clocks::played))]
    pub fn played(self, base: f32) -> Clock
        ensures { result ≡ played self base }
    {
        self.started().with_state(play_state(base))
    }

    // What `play` sends to every entry, from here.
    #[tactic(auto, unfolding(crate::specs::Clocks::play_rule))]
    pub fn play_rule(self, run: Run) -> Rule
        ensures { result ≡ play_rule run.mode self run.base }
    {
        let t = run.local_time(self.started().elapsed);
        if self.state.is_completed() {
            if run.base == 0.0 {
                Rule::Clear
            } else {
                Rule::Restart(t)
            }
        } else if run.base == 0.0 {
            Rule::Keep
        } else {
            Rule::Sync(t)
        }
    }

    // `pause`
    #[tactic(auto, unfolding(crate::specs::Clocks::paused))]
    pub fn paused(self) -> Clock
        ensures { result ≡ paused self }
    {
        self.with_state(self.state.paused())
    }

    // `resume`
    #[tactic(auto, unfolding(crate::specs::Clocks::resumed))]
    pub fn resumed(self) -> Clock
        ensures { result ≡ resumed self }
    {
        self.with_state(self.state.resumed())
    }

    // `seek_abs` that comes to elapsed, in a run of this length.
    #[tactic(auto, unfolding(crate::specs::Clocks::sought))]
    pub fn sought(self, total: f32, elapsed: f32) -> Clock
        ensures { result ≡ sought self total elapsed }
    {
        Clock {
            elapsed,
            state: seek_state(total, elapsed, self.state),
            ..self
        }
    }

    // Whether an update goes on from here: it is Playing, and there is something to play.
    #[tactic(auto, unfolding(crate::specs::Clocks::advances))]
    pub fn advances(self, base: f32) -> bool
        ensures { result ≡ advances self base }
    {
        self.state.is_playing() && base != 0.0
    }

    // What an update outside Once sends to every entry: it comes to elapsed, if it goes on from here.
    #[tactic(auto, unfolding(crate::specs::Clocks::advance_rule))]
    pub fn advance_rule(self, run: Run, elapsed: f32) -> Rule
        ensures { result ≡ advance_rule (advances self run.base) run.mode run.base elapsed }
    {
        if self.advances(run.base) {
            Rule::Sync(run.local_time(elapsed))
        } else {
            Rule::Keep
        }
    }

    // The elapsed time to which `update` would go, in a run without end.
    #[tactic(auto, unfolding(crate::specs::Clocks::next_elapsed))]
    pub fn next_elapsed(self, dt: f32) -> f32
        ensures { result ≡ next_elapsed self dt }
    {
        self.elapsed + float32::max(dt, 0.0) * self.time_scale
    }

    // Whether the whole-run completion fires in an update that ends the run, or does not.
    pub fn fires(self, ended: bool) -> bool
        ensures { result ≡ fires self ended }
    {
        ended && !self.complete_fired
    }

    // `update` that comes to a reach. Where the run ends there it is Completed, and the whole-run completion has fired.
    #[tactic(auto, unfolding(crate::specs::Clocks::advanced_clock))]
    pub fn advanced(self, to: Reach) -> Clock
        ensures { result ≡ advanced_clock self to.elapsed to.ended }
    {
        if to.ended {
            Clock {
                elapsed: to.elapsed,
                state: TimelineState::Completed,
                complete_fired: true,
                ..self
            }
        } else {
            Clock {
                elapsed: to.elapsed,
                ..self
            }
        }
    }
}
