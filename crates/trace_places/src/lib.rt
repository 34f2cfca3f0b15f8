// A script on its way; the calls on columns, in place, and whether they leave what the calls by value left (trace).
#![tactic(auto)]

pub mod in_place;
pub mod run;
