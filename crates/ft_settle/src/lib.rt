//! From a formula as it is built to a settled one, whose atoms are canonical and each there once.
#![tactic(auto)]

mod atoms;
mod canonical;
mod law;
mod raw;
mod settling;

pub use law::settling_law;
pub use raw::Raw;
pub use settling::{is_moderate, settle};
