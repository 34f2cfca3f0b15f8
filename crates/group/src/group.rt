// Animation groups on top of timelines (group.rs).
ghost use Rattle.std.specs.Prelude.{◌≡◌};
ghost use Rattle.clock.specs.Clocks.{is_completed};
ghost use Rattle.track.specs.Tracks.{progress_of};
ghost use Rattle.track.specs.Calls.{SetTimeScale, Play, Pause, Resume, Reset, Seek};
ghost use Rattle.timeline.specs.Calls.{On, step};
ghost use Rattle.timeline.specs.Answers.{Moves, MovesOn, Updates};
ghost use Rattle.group.specs.Items.{hands_out};
ghost use Rattle.group.specs.Group.{group_of, group_handed_out, inner_moved, inner_updated, parallel_of, sequence_of, stagger_of, reverse_call, group_duration, group_introspected};

use crate::item;
use crate::item::{Built, ItemLabel};
use crate::sequence::Sequence;
use player::engine::Updated;
use refusal::Refusal;
use timeline::introspection::{AnimationIntrospection, AnimationKind};
use timeline::timeline::{At, Timeline};
use track::rows::Rows;
use track::track::Share;
use tween::StaggerPattern;

// A group of animations that is controlled as one.
#[derive(Clone, Copy, Debug)]
pub struct AnimationGroup {
    pub inner: Timeline,
}

// The group of a timeline.
impl From<Timeline> for AnimationGroup {
    ghost from_gives = { λ timeline group. group ≡ group_of timeline };

    fn from(timeline: Timeline) -> AnimationGroup {
        AnimationGroup { inner: timeline }
    }
}

impl Built<AnimationGroup> {
    // The same of the group's timeline.
    pub fn timeline(self) -> Built<Timeline>
        ensures { (result.refusal ≡ self.refusal) × (result.panel ≡ self.panel.inner) }
    {
        Built {
            refusal: self.refusal,
            panel: self.panel.timeline(),
        }
    }
}

impl AnimationGroup {
    // The same, by the Rust's name.
    pub fn from_timeline(timeline: Timeline) -> AnimationGroup
        ensures { result ≡ group_of timeline }
    {
        AnimationGroup::from(timeline)
    }

    // All animations at the same time.
    pub fn parallel(durations: &[f32]) -> Built<AnimationGroup>
        ensures { group_handed_out result ≡ parallel_of durations.now }
    {
        Built::from(item::add_each(durations, |_| Ok(At::Start)))
    }

    // The animations one after another.
    pub fn sequence(durations: &[f32]) -> Built<AnimationGroup>
        ensures { group_handed_out result ≡ sequence_of durations.now }
    {
        Built::from(sequenced(durations))
    }

    // The animations with the delays of a pattern; a grid too large is refused before too many animations.
    pub fn stagger(durations: &[f32], pattern: StaggerPattern) -> Built<AnimationGroup>
        ensures { group_handed_out result ≡ stagger_of durations.now pattern }
    {
        Built::from(staggered(durations, pattern))
    }

    // The timeline of the group.
    pub fn timeline(self) -> Timeline
        ensures { result ≡ self.inner }
    {
        self.inner
    }

    // Begins to play.
    pub fn play(self, rows: &mut Rows<'_>) -> Result<AnimationGroup, Refusal>
        ensures { Moves self.inner Play (inner_moved result) rows }
    {
        let inner = self.inner.play(rows)?;
        Ok(AnimationGroup { inner })
    }

    // Pauses what is Playing.
    pub fn pause(self) -> AnimationGroup
        ensures { result ≡ group_of (step self.inner (On Pause)).timeline }
    {
        AnimationGroup {
            inner: self.inner.pause(),
        }
    }

    // Plays on what is Paused.
    pub fn resume(self) -> AnimationGroup
        ensures { result ≡ group_of (step self.inner (On Resume)).timeline }
    {
        AnimationGroup {
            inner: self.inner.resume(),
        }
    }

    // Back to the beginning.
    pub fn reset(self, rows: &mut Rows<'_>) -> Result<AnimationGroup, Refusal>
        ensures { Moves self.inner Reset (inner_moved result) rows }
    {
        let inner = self.inner.reset(rows)?;
        Ok(AnimationGroup { inner })
    }

    // To a share of the run.
    pub fn seek(self, to: Share, rows: &mut Rows<'_>) -> Result<AnimationGroup, Refusal>
        ensures { Moves self.inner (Seek to.0) (inner_moved result) rows }
    {
        let inner = self.inner.seek(to, rows)?;
        Ok(AnimationGroup { inner })
    }

    // To the share that is left.
    pub fn reverse(self, rows: &mut Rows<'_>) -> Result<AnimationGroup, Refusal>
        ensures { MovesOn self.inner (reverse_call self.inner) (inner_moved result) rows }
    {
        self.seek(Share(1.0 - self.progress()), rows)
    }

    // Sets the speed: 1.0 is normal; negative and NaN become 0.
    pub fn set_time_scale(self, scale: f32) -> AnimationGroup
        ensures { result ≡ group_of (step self.inner (On (SetTimeScale scale))).timeline }
    {
        AnimationGroup {
            inner: self.inner.set_time_scale(scale),
        }
    }

    // The base, not the run.
    pub fn duration(self) -> f32
        ensures { result ≡ group_duration self }
    {
        self.inner.duration()
    }

    // How far it has come, from 0 to 1.
    pub fn progress(self) -> f32
        ensures { result ≡ progress_of self.inner.track }
    {
        self.inner.progress()
    }

    // Whether it has played to its end.
    pub fn is_complete(self) -> bool
        ensures { result ≡ is_completed self.inner.track.clock.state }
    {
        self.inner.is_complete()
    }

    // Advances by dt seconds, with each leaf's reply. The list takes the numbers of the entries that completed.
    pub fn update(
        self,
        dt: f32,
        replies: &[u8],
        list: &mut [u8],
        rows: &mut Rows<'_>,
    ) -> Result<(Updated, AnimationGroup), Refusal>
        ensures { Updates self.inner dt replies (inner_updated result) list rows }
    {
        let (updated, inner) = self.inner.update(dt, replies, list, rows)?;
        Ok((updated, AnimationGroup { inner }))
    }

    // What is reported of it: its duration is the base.
    #[tactic(auto, unfolding(crate::specs::Group::group_introspected))]
    pub fn introspect(self) -> AnimationIntrospection
        ensures { result ≡ group_introspected self }
    {
        AnimationIntrospection::new(
            AnimationKind::Group,
            self.progress(),
            self.inner.elapsed(),
            self.duration(),
            self.inner.state().into(),
        )
    }
}

// The timeline of the animations one after another: a loop of its own, since its cursor moves.
#[tactic(auto, using(crate::proofs::Items::refused_as), unfolding(crate::specs::Group::sequence_of))]
fn sequenced(durations: &[f32]) -> Result<Timeline, Refusal>
    ensures { hands_out result ≡ sequence_of durations.now }
{
    item::too_many(durations.len())?;
    let mut sequence = Sequence::new();
    for (i, duration) in durations.iter().enumerate() {
        let label = ItemLabel::new(i);
        sequence = sequence.then(label.text(), *duration)?;
    }
    Ok(sequence.build())
}

// The timeline of the animations with the delays of a pattern.
#[tactic(auto, using(crate::proofs::Patterns::refused_pattern))]
fn staggered(durations: &[f32], pattern: StaggerPattern) -> Result<Timeline, Refusal>
    ensures { hands_out result ≡ stagger_of durations.now pattern }
{
    pattern.delay(0)?;
    item::add_each(durations, |i| Ok(At::Absolute(pattern.delay(i)?)))
}
