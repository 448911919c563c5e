//! Lists of monitored values that were given with a set: the first scan that the set refuses.
#![tactic(auto)]

mod law;
mod ranging;
mod refusing;

pub use refusing::first_refused;
