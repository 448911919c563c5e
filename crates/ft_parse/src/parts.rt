use ft_base::{List, Text};
use ft_tree::{Item, Number};

/// The parts of a set's text.
#[derive(Drop)]
pub struct Parts {
    pub name: Text,
    pub period: Number,
    pub splits: Option<Number>,
    pub depth: Option<Number>,
    pub items: List<Item>,
}
