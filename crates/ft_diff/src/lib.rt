//! Whole solutions of differences of two unknowns within spans.
#![tactic(auto)]

mod cycle;
mod diff;
mod gathering;
mod narrowing;
mod room;
mod solving;

pub use diff::Diff;
pub use gathering::{has_solution, open_lines};
pub use room::DiffRoom;
pub use solving::differences;
