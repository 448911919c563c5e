use ft_base::Boxed;

/// A number term. A variable or a memory is named by its place in the set, in order of declaration, from 0.
#[derive(Drop)]
pub enum Term {
    /// A number.
    Num(i64),
    /// A variable at this scan.
    Now(u32),
    /// A variable one scan before, and its `init` where there is none.
    Prev(u32),
    /// The age of a `held`.
    Age(u32),
    /// The number with its sign turned.
    Neg(Boxed<Term>),
    /// A sum.
    Add(Boxed<Term>, Boxed<Term>),
    /// A difference.
    Sub(Boxed<Term>, Boxed<Term>),
    /// A product with a number.
    Times(i64, Boxed<Term>),
    /// A quotient rounded down. The divisor is above 0.
    Div(Boxed<Term>, i64),
}

/// How two numbers are compared.
#[derive(Clone, Copy, PartialEq, Eq, Drop)]
pub enum Rel {
    /// Equal.
    Eq,
    /// Not equal.
    Ne,
    /// Less.
    Lt,
    /// Less or equal.
    Le,
    /// Greater.
    Gt,
    /// Greater or equal.
    Ge,
}

/// A condition. A `bool` variable used as one is compared with 1 by `Eq`.
#[derive(Drop)]
pub enum Cond {
    /// True.
    Yes,
    /// False.
    No,
    /// A comparison of two terms.
    Compare(Rel, Term, Term),
    /// The truth of a memory.
    Memory(u32),
    /// The other truth.
    Not(Boxed<Cond>),
    /// Both.
    And(Boxed<Cond>, Boxed<Cond>),
    /// One at least.
    Or(Boxed<Cond>, Boxed<Cond>),
}
