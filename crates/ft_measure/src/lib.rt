//! Whether the terms of a set are linear: what is constant in an expression and its value, sizes, and the first place of a
//! tree where a product, a factor, a divisor or a size is at fault.
#![tactic(auto)]

mod arithmetic;
mod judging;
mod law;
mod leaves;
mod measure;
mod measuring;
mod operators;
mod sizes;
mod slope;
mod values;

pub use judging::{Slopes, judge_slopes};
pub use law::{linear_is_small, values_bounded};
pub use measure::Measure;
pub use measuring::{Measured, measure_expr};
pub use slope::{Slope, Why};
