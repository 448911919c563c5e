//! Reports: what a call ends with, its text line by line, and the status that belongs to it.
#![tactic(auto)]

mod coverage;
mod faults;
mod lines;
mod open;
mod rendering;
mod report;
mod short;
mod states;
mod titles;

pub use coverage::{gap_words, overlap_words, range_words};
pub use faults::{fault_line, stops_words};
pub use open::{short_words, spent_words};
pub use rendering::{report_text, status_for};
pub use report::{Report, Which};
pub use short::{Short, Subject};
pub use states::member_at;
pub use titles::obligation_name;
