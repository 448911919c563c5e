//! Worked sets: theorems over the definitions alone, and tests of what the crates below make of these sets.
#![tactic(auto)]

mod law;
#[cfg(test)]
mod making;
#[cfg(test)]
mod mixer;
#[cfg(test)]
mod relay;
#[cfg(test)]
mod replays;
#[cfg(test)]
mod tests;
#[cfg(test)]
mod traces;
#[cfg(test)]
mod watched;

pub use law::{
    late_relay_differs, mixer_is_proper, mixer_is_worked, relay_refines, trip_is_worked,
};
