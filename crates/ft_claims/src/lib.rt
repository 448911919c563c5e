//! What the obligations of a set claim, and their formulas.
#![tactic(auto)]

mod cells;
mod claim;
mod claims;
mod copying;
mod counting;
mod formulating;
mod frame;
mod gathering;
mod goodness;
mod law;
mod marking;
mod numbering;
mod obliging;
mod pairs;
mod placing;
mod settling;
mod spanning;
mod sums;
mod terms;
mod values;
mod wholes;

pub use cells::cell_laws;
pub use claim::{Claim, Sym};
pub use claims::{claim_of, denied, equal, is_one, pair};
pub use copying::{copies_of_claims, copy_of_claim};
pub use counting::numbers_by;
pub use frame::Frame;
pub use goodness::good_laws;
pub use law::{claim_laws, cover_laws, formula_laws, point_laws};
pub use marking::mark_unknowns;
pub use obliging::{Obliged, oblige};
pub use placing::marked_places;
pub use settling::settled_by;
pub use terms::{copy_of, memory_name, sum, sym_of, variable_name};
pub use values::value_laws;
pub use wholes::{Whole, whole_of};
