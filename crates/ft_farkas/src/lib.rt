//! Elimination of unknowns from forced lines and bounds, with evidence for each answer.
#![tactic(auto)]

mod answer;
mod assigning;
mod dividing;
mod eliminating;
mod kept;
mod lending;
mod mixing;
mod numbers;
mod point;
mod room;
mod sources;
mod turning;

pub use answer::Eliminated;
pub use eliminating::eliminate;
pub use room::ElimRoom;
