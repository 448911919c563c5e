//! Whether every table of a set is proper: each obligation of a table is tried in order, and a point of one is told as the fault
//! that the table shows there.
#![tactic(auto)]

mod answer;
mod covering;
mod faults;
mod kept;
mod law;
mod placing;
mod trying;

pub use answer::Cover;
pub use covering::{add_cert, cover};
pub use kept::{Kept, first_values};
pub use law::{closed_laws, kept_laws};
pub use placing::{Wanted, places};
