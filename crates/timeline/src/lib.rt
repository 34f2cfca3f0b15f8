// Timelines (timeline.rs; paper 01, part 4): what plays, with the labels of its entries. Paper 01's "panel" is a `Timeline`.
#![tactic(auto)]

pub mod introspection;
pub mod timeline;
