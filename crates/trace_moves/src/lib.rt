// The calls of a script that move what plays (trace): each is made by value and in place, and the two must agree.
#![tactic(auto)]

pub mod moves;
