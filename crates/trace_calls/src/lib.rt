// The calls of a script that steer a timeline or add to it (trace).
#![tactic(auto)]

pub mod calls;
