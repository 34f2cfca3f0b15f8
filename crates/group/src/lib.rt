// Builders of timelines, and groups (sequence.rs, stagger.rs, group.rs; paper 01, part 5).
#![tactic(auto)]

pub mod group;
pub mod item;
pub mod sequence;
pub mod stagger;

ghost use Rattle.group.specs.Claim.{Claim};

// What is claimed of builders and controls, as a contract: without it the crate is not proved.
pub fn claimed()
    ensures { Claim }
{}
