//! Formulas over whole linear forms.
#![tactic(auto)]

mod area;
mod forcing;
mod formula;
mod judging;
mod law;
mod lin;
mod lines;
mod marks;
mod node;
mod part;
mod rules;
mod sums;
mod totals;

pub use area::Area;
pub use formula::{Formula, evaluate};
pub use judging::judge;
pub use law::{form_laws, part_laws, sum_laws};
pub use lin::Lin;
pub use lines::{Line, literal_constant, literal_factor};
pub use marks::Marks;
pub use node::Node;
pub use part::Part;
pub use rules::{contradict, single_span, tighten};
pub use totals::SumRoom;
