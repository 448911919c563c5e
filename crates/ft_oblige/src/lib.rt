//! The obligations of a set by number, and what the formulas of blocks and of lists are made of.
#![tactic(auto)]

mod conditions;
mod covering;
mod defining;
mod facts;
mod homes;
mod joining;
mod labelling;
mod links;
mod list_law;
mod made;
mod moving;
mod naming;
mod nodes;
mod number_law;
mod numbered;
mod pairing;
mod part_law;
mod reading;
mod spanning;
mod stating;
mod trying;
mod walking;

pub use conditions::add_claims;
pub use defining::Homes;
pub use facts::{FactAt, fact_at};
pub use labelling::Slot;
pub use list_law::list_part_laws;
pub use made::Obligation;
pub use moving::move_of;
pub use naming::names_of;
pub use nodes::TableFault;
pub use number_law::number_laws;
pub use numbered::{count, coverage, labelled, obligation};
pub use part_law::part_laws;
pub use spanning::add_scan_spans;
pub use trying::{Tried, try_formula};
