//! Both sides of a set, run over a trace as it is read, so that nothing of the trace is kept.
#![tactic(auto)]

mod law;
mod mark;
mod rows;
mod streaming;

pub use law::{mark_is_skipped, spelled_is_monitored};
pub use mark::after_mark;
pub use streaming::{Streamed, stream};
