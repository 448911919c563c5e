use ft_base::Place;
use ft_tree::{Op, SectionWord};

/// Where an expression stands.
#[derive(Clone, Copy, Drop)]
pub struct Site {
    /// How many tokens stand before it.
    pub before: usize,
    /// The place of its first token.
    pub start: Place,
    /// Whether it is an entry of a header or row that has 32 entries already.
    pub is_beyond: bool,
}

/// An operator between two expressions, and its place.
#[derive(Clone, Copy, Drop)]
pub struct Operator {
    pub op: Op,
    pub place: Place,
}

/// The word of a section, and its place.
#[derive(Clone, Copy, Drop)]
pub struct SectionAt {
    pub word: SectionWord,
    pub place: Place,
}
