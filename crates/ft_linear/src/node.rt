use ft_base::{Boxed, List};

/// The tree of a formula over its atoms.
#[derive(Drop)]
pub enum Node {
    /// The atom with this number is true.
    At(u32),
    /// The part is false.
    Not(Boxed<Node>),
    /// Each part is true. With no part it is true.
    And(List<Node>),
    /// Some part is true. With no part it is false.
    Or(List<Node>),
}
