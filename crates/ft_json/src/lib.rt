//! Reports as one line of JSON, for programs that read them.
#![tactic(auto)]

mod entries;
mod lists;
mod members;
mod rendering;
mod states;
mod telling;
mod values;

pub use rendering::{no_memory_json, report_json};
