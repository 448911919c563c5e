//! The tree that a set's text spells.
#![tactic(auto)]

mod blocks;
mod counts;
mod expressions;
mod fault;
mod items;
mod law;
mod lists;
mod memories;
mod parsing;
mod parts;
mod sets;
mod tables;
mod variables;

pub use fault::ParseFault;
pub use ft_read::LimitWord;
pub use law::{fault_or_tree, one_fault, one_tree};
pub use parsing::parse;
