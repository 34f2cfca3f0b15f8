// Port of animato-tween: the loop modes and the stagger patterns (paper 01, parts 2 and 3).
#![tactic(auto)]

pub mod cases;
pub mod loop_mode;
pub mod stagger_pattern;

pub use loop_mode::Loop;
pub use stagger_pattern::{GridOrigin, StaggerPattern, UnknownOrigin};
