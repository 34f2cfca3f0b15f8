// Timeline entries that play one after another (sequence.rs).
ghost use Rattle.std.specs.Prelude.{◌≡◌};
ghost use Rattle.group.specs.Sequence.{new_sequence, cursor_after, Then, ThenFor, Gap, sequence_step, Goes};

use refusal::Refusal;
use timeline::timeline::{At, Timeline};

// A timeline, and the second at which its next entry starts.
#[derive(Clone, Copy, Debug)]
pub struct Sequence {
    pub inner: Timeline,
    pub cursor: f32,
}

impl Sequence {
    // An empty sequence.
    #[tactic(auto, unfolding(crate::specs::Sequence::new_sequence))]
    pub fn new() -> Sequence
        ensures { result ≡ new_sequence }
    {
        Sequence {
            inner: Timeline::new(),
            cursor: 0.0,
        }
    }

    // One entry more, at the cursor; the duration is the leaf's. Refused as `add` is, which leaves the caller's sequence, cursor included.
    #[tactic(auto, using(crate::proofs::Going::goes_on, crate::proofs::Going::stays), unfolding(crate::specs::Sequence::sequence_step))]
    pub fn then(self, label: &[u8], duration: f32) -> Result<Sequence, Refusal>
        ensures { Goes (sequence_step self (Then label.now duration)) self result }
    {
        let inner = self.inner.add(label, At::Absolute(self.cursor), duration)?;
        let cursor = self.cursor_after(duration);
        Ok(Sequence { inner, cursor })
    }

    // The same with a duration that need not be the leaf's.
    #[tactic(auto, using(crate::proofs::Going::goes_on, crate::proofs::Going::stays), unfolding(crate::specs::Sequence::sequence_step))]
    pub fn then_for(self, label: &[u8], duration: f32) -> Result<Sequence, Refusal>
        ensures { Goes (sequence_step self (ThenFor label.now duration)) self result }
    {
        let at = At::Absolute(self.cursor);
        let slot = float32::max(duration, 0.0);
        let inner = self.inner.add_boxed_with_duration(label, at, slot)?;
        let cursor = self.cursor_after(duration);
        Ok(Sequence { inner, cursor })
    }

    // A silent gap before the next entry.
    #[tactic(auto, unfolding(crate::specs::Sequence::sequence_step))]
    pub fn gap(self, seconds: f32) -> Sequence
        ensures { result ≡ (sequence_step self (Gap seconds)).sequence }
    {
        let cursor = self.cursor_after(seconds);
        Sequence { cursor, ..self }
    }

    // The timeline that was built.
    pub fn build(self) -> Timeline
        ensures { result ≡ self.inner }
    {
        self.inner
    }

    // The second at which the next entry starts.
    pub fn cursor(self) -> f32
        ensures { result ≡ self.cursor }
    {
        self.cursor
    }

    // The cursor after so many seconds.
    #[tactic(auto, unfolding(crate::specs::Sequence::cursor_after))]
    fn cursor_after(self, seconds: f32) -> f32
        ensures { result ≡ cursor_after self.cursor seconds }
    {
        self.cursor + float32::max(seconds, 0.0)
    }
}
