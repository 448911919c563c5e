//! What the tool reads from and writes to: shelves of named files and sinks of bytes, in memory and of the system,
//! each with a count of its faults; and the fetch of a whole file.
#![tactic(auto)]

mod counts;
mod entry;
mod fetching;
mod file_shelf;
mod mem_shelf;
mod mem_sink;
mod out_sink;
mod reads;
mod shelf;
mod sink;

pub use fetching::{FetchError, fetch};
pub use file_shelf::FileShelf;
pub use mem_shelf::MemShelf;
pub use mem_sink::MemSink;
pub use out_sink::OutSink;
pub use shelf::{Failed, Shelf};
pub use sink::Sink;
