//! A region for plain values in one block of raw memory, which is taken once and given back with the region.
#![tactic(auto)]

mod block;
mod id;
mod pool;

pub use id::{Id, Mark};
pub use pool::Pool;
