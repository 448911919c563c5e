ghost use Rattle.std.specs.Prelude.{◌≡◌};
ghost use Rattle.ft_names.specs.meaning.Parts.{operands};

use ft_tree::Op;

/// What an expression is by its outermost form.
#[derive(Clone, Copy, PartialEq, Eq, Drop)]
pub enum ExprKind {
    /// A number.
    Number,
    /// A term of type `bool`, which is a condition too.
    Truth,
    /// A term of an enum type, named by the number of the item that declares it.
    Members(u32),
    /// A condition that is no term.
    Condition,
    /// Neither a term nor a condition.
    Nothing,
}

/// What an expression has to be at its place.
#[derive(Clone, Copy, Drop)]
pub enum Asked {
    /// A condition.
    Condition,
    /// A term of this kind.
    Term(ExprKind),
    /// Nothing by its place alone: a side of a comparison, or a term for what has no type.
    Anything,
}

impl Asked {
    /// What the operands of an operator have to be.
    pub fn of_operands(op: Op) -> Asked
        ensures { result ≡ operands op }
    {
        match op {
            Op::Or | Op::And => Asked::Condition,
            Op::Eq | Op::Ne | Op::Lt | Op::Le | Op::Gt | Op::Ge => Asked::Anything,
            Op::Add | Op::Sub | Op::Mul | Op::Div => Asked::Term(ExprKind::Number),
        }
    }
}
