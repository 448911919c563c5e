//! What every crate of the tool names: lists and texts, a box that contracts see as its value, copies,
//! ranges of whole numbers, exact division, places in a text, and the three answers No, Maybe and Yes.
#![tactic(auto)]

mod boxed;
mod division;
mod duplicate;
mod interval;
mod list;
mod memory;
mod place;
mod three;

pub use boxed::Boxed;
pub use division::{ceil_div, div_floor};
pub use duplicate::Duplicate;
pub use interval::{Range, Span};
pub use list::{List, Text};
pub use memory::NoMemory;
pub use place::Place;
pub use three::Three;
