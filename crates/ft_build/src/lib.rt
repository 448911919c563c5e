//! The set that a tree spells, part by part: a total function of the tree, and the code that makes exactly its parts.
#![tactic(auto)]

mod blocks;
mod clauses;
mod conditions;
mod expressions;
mod memories;
mod parts;
mod places;
mod ranges;
mod tables;
mod terms;
mod texts;
mod values;
mod variables;

pub use conditions::build_cond;
pub use parts::{Parts, build_set};
pub use terms::build_term;
