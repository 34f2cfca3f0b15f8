// Plays a track whose entries stand in three lent columns, in place (timeline.rs; paper 01, part 4 and "A panel").
// A call leaves the clock to go on with in the playhead.
#![tactic(auto)]

pub mod engine;
mod entries;
