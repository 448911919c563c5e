//! In which order the blocks of a checked set use each other, and whether each controlled variable is the goal of one.
#![tactic(auto)]

mod fault;
mod goals;
mod linking;
mod links;
mod reads;

pub use fault::BlockFault;
pub use linking::graph;
pub use links::Graph;
