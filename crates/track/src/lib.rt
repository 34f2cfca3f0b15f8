// What plays of a timeline: its entries, clock and loop mode. Crate player plays it, and crate timeline has what its entries are called.
#![tactic(auto)]

pub mod checks;
pub mod rows;
pub mod track;
