// What is reported of a timeline or a group at a moment (traits.rs of animato-core).
ghost use Rattle.std.specs.Prelude.{◌≡◌};
ghost use Rattle.timeline.specs.Introspections.{known_duration, playback_state, introspection};

use clock::TimelineState;

// What is reported of.
#[derive(Clone, Copy, Debug, PartialEq, Eq)]
pub enum AnimationKind {
    Timeline,
    Group,
}

// The coarse playback state. The Rust has both this and `TimelineState`.
#[derive(Clone, Copy, Debug, PartialEq, Eq)]
pub enum PlaybackState {
    Idle,
    Playing,
    Paused,
    Complete,
}

// What is reported: of what, how far it has come, the seconds so far, how long it is if that is finite, and its state.
#[derive(Clone, Copy, Debug, PartialEq)]
pub struct AnimationIntrospection {
    pub kind: AnimationKind,
    pub progress: f32,
    pub elapsed: f32,
    pub duration: Option<f32>,
    pub state: PlaybackState,
}

// The coarse state of a timeline.
impl From<TimelineState> for PlaybackState {
    ghost from_gives = { λ state coarse. coarse ≡ playback_state state };

    fn from(state: TimelineState) -> PlaybackState {
        match state {
            TimelineState::Idle => PlaybackState::Idle,
            TimelineState::Playing => PlaybackState::Playing,
            TimelineState::Paused => PlaybackState::Paused,
            TimelineState::Completed => PlaybackState::Complete,
        }
    }
}

// The duration where it is finite.
#[tactic(auto, unfolding(crate::specs::Introspections::known_duration))]
fn known_duration(secs: f32) -> Option<f32>
    ensures { result ≡ known_duration secs }
{
    if float32::is_finite(secs) {
        Some(float32::max(secs, 0.0))
    } else {
        None
    }
}

impl AnimationIntrospection {
    // With progress from 0 to 1, elapsed at least 0, and the duration where it is finite.
    pub fn new(
        kind: AnimationKind,
        progress: f32,
        elapsed: f32,
        duration: f32,
        state: PlaybackState,
    ) -> AnimationIntrospection
        ensures { result ≡ introspection kind progress elapsed duration state }
    {
        AnimationIntrospection {
            kind,
            progress: float32::clamp(progress, 0.0, 1.0),
            elapsed: float32::max(elapsed, 0.0),
            duration: known_duration(duration),
            state,
        }
    }
}
