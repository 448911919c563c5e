//! The first fault of a tree of each kind that comes after names and before circles, but for terms that are not linear.
#![tactic(auto)]

mod examine;
mod fault;
mod gathering;
mod judging;
mod kinds;
mod lacking;
mod mismatch;
mod mismatches;
mod ranges;
mod reading;
mod shapes;
mod sides;

pub use examine::{Examine, examine_items};
pub use fault::ItemFault;
pub use judging::{
    judge_bands, judge_holds, judge_kinds, judge_ranges, judge_shapes, judge_sides, judge_tables,
};
pub use mismatch::Mismatches;
pub use ranges::{Bands, Holds, Ranges, set_range};
pub use shapes::Shapes;
pub use sides::Sides;
