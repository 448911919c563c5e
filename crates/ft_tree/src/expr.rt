use ft_base::{Boxed, Place, Text};

/// An operator between two expressions.
#[derive(Clone, Copy, PartialEq, Eq, Drop)]
pub enum Op {
    Or,
    And,
    Eq,
    Ne,
    Lt,
    Le,
    Gt,
    Ge,
    Add,
    Sub,
    Mul,
    Div,
}

/// An expression as it was read. Its place is that of its operator or, where it has none, of its first token.
/// Parentheses leave no trace.
#[derive(Drop)]
pub enum Expr {
    /// A number.
    Num {
        value: u64,
        place: Place,
    },
    /// A name.
    Name {
        name: Text,
        place: Place,
    },
    /// `true` or `false`.
    Truth {
        value: bool,
        place: Place,
    },
    /// `prev(name)`: the value one scan before.
    Prev {
        name: Text,
        place: Place,
    },
    /// `age(name)`: the age of a memory.
    Age {
        name: Text,
        place: Place,
    },
    /// `not of`.
    Not {
        of: Boxed<Expr>,
        place: Place,
    },
    /// `-of`.
    Neg {
        of: Boxed<Expr>,
        place: Place,
    },
    /// `left op right`.
    Two {
        op: Op,
        left: Boxed<Expr>,
        right: Boxed<Expr>,
        place: Place,
    },
}
