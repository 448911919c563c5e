//! The formulas of lists of scans: which points they have, what these tell, and what a search finds of short lists.
#![tactic(auto)]

mod allowing;
mod defining;
mod differing;
mod forming;
mod framing;
mod law;
mod listing;
mod refutation;
mod refuting;
mod seeking;
mod sides;
mod sought;
mod telling;
mod within;

pub use allowing::allowed_list;
pub use forming::{ListForm, difference_formula, list_formula};
pub use law::{list_laws, number_laws, short_laws};
pub use listing::Lists;
pub use refutation::Refute;
pub use refuting::refute;
