//! The tree of a set's text, and its canonical text.
#![tactic(auto)]

mod canonical;
mod expr;
mod expression;
mod item;
mod items;
mod law;
mod level;
mod lines;
mod phrases;
mod tables;
mod tree;
mod writer;

pub use canonical::write_tree;
pub use expr::{Expr, Op};
pub use item::{
    Bound, FactItem, Item, Kind, NatWord, Number, Plain, Row, SectionWord, VRow, VarWord, Word,
};
pub use law::canonical_tokens;
pub use level::Level;
pub use tree::Tree;
