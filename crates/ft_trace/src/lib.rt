//! Traces as text: a header of names and a record for each scan, read one record at a time and written.
#![tactic(auto)]

mod decimal;
mod fault;
mod field;
mod law;
mod reading;
mod row;
mod source;
mod writing;

pub use fault::TraceFault;
pub use law::{history_or_fault, one_history, written_is_spelled};
pub use reading::{End, TraceReader, read_trace};
pub use writing::write_trace;
