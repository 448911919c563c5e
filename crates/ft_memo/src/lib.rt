//! The running memories of a scan program: a timer keeps one number and a band one bit, in place of the list of the past.
#![tactic(auto)]

mod band;
mod timer;
mod told;

pub use band::Band;
pub use timer::Timer;
pub use told::Told;
