//! The sets that are made by a number: the tree of `genN`.
#![tactic(auto)]

mod blocks;
mod declarations;
mod generating;
mod maker;
mod making;
mod tables;

pub use generating::generate;
