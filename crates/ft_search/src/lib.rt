//! The search for evidence that an area has no point of a formula, or for such a point.
#![tactic(auto)]

mod budget;
mod counts;
mod deciding;
mod halving;
mod kept;
mod law;
mod points;
mod reading;
mod room;
mod searching;
mod settling;
mod solution;
mod spent;
mod sweeping;
mod turns;

pub use law::search_laws;
pub use room::Room;
pub use searching::{Found, search};
pub use spent::SpentTree;
