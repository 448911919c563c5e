//! The declared names of a set, and the first fault of its tree: the places of a tree in the order of its text, a walk
//! over them that any test can take, and the tests of names.
#![tactic(auto)]

mod asked;
mod card;
mod carding;
mod cards;
mod counts;
mod declare;
mod fault;
mod inspect;
mod law;
mod names;
mod resolving;
mod site;
mod stop;
mod unknown;
mod values;
mod walk;

pub use asked::{Asked, ExprKind};
pub use card::{Card, Values};
pub use cards::Cards;
pub use fault::NameFault;
pub use inspect::{Inspect, inspect_parts};
pub use law::{few_items, names_differ};
pub use names::Names;
pub use resolving::resolve;
pub use site::Site;
pub use stop::Stop;
pub use values::{bound_value, kind_values};
pub use walk::{Entries, Judge, Role, judge_set};
