//! What a set of tables means over whole lists of scans, and the evaluation of terms and conditions. The definitions stand in
//! `specs/`.
#![tactic(auto)]

mod arithmetic;
mod cells;
mod evaluating;
mod finding;
mod judge;
mod law;
mod look;
mod recall;
mod scope;
mod seen;
mod telling;
mod time;
mod trace;

pub use arithmetic::compare;
pub use evaluating::{truth_of, value_of};
pub use finding::first_cell;
pub use judge::fits_list;
pub use law::{
    allowed_by_scan, evaluation_laws, held_is_full_age, look_laws, maps_by_scan, memories_move,
    memory_laws, one_image, one_trace, outputs_alone, past_laws, row_laws, safety_laws, table_laws,
    time_laws, trace_laws, whole_laws,
};
pub use look::Look;
pub use scope::Scope;
pub use trace::Trace;
