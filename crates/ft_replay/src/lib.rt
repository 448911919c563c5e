//! The first scan of an allowed list at which the design differs from the requirement, found scan by scan.
#![tactic(auto)]

mod comparing;
mod law;
mod replayer;
mod replaying;
mod rows;
mod telling;

pub use law::{allowed_after_last, one_first_difference};
pub use replayer::Replayer;
pub use replaying::{Replayed, replay};
