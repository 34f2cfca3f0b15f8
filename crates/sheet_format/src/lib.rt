// The stored sheet (paper 01, "The sheet"): what it describes, its checks, its reader and its writer. Header, pairs and records stand apart.
#![tactic(auto)]

pub mod checks;
pub mod description;
pub mod header;
mod pairs;
mod put;
mod records;
mod sheet;
pub mod writing;

pub use checks::check;
pub use description::describe;
pub use header::count;
pub use writing::write;
