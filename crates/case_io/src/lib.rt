// What the programs that answer cases have in common: how they read records and print lines.
#![tactic(auto)]

pub mod fields;
pub mod input;
pub mod text;
