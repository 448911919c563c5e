ghost use Rattle.ft_tree.specs.meaning.Limits.{IsSet};

use crate::item::{Item, Number};
use ft_base::{List, Text};

/// The tree of a set's text. Its names are names, and the limits of sets hold.
#[derive(Drop)]
pub struct Tree {
    pub name: Text,
    pub period: Number,
    pub splits: Option<Number>,
    pub depth: Option<Number>,
    pub items: List<Item>,
    pub ghost lawful: { IsSet name period splits depth items },
}
