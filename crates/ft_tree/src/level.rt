ghost use Rattle.std.specs.Prelude.{◌≡◌};
ghost use Rattle.ft_tree.specs.meaning.Level.{is_looser, left_level, op_level, op_sign, rank, right_level};

use crate::expr::Op;

/// How tightly an expression binds, from the loosest.
#[derive(Clone, Copy, PartialEq, Eq, Drop)]
pub enum Level {
    /// By `or`.
    Disjunction,
    /// By `and`.
    Conjunction,
    /// `not`.
    Negation,
    /// By `=`, `<>`, `<`, `<=`, `>` or `>=`.
    Comparison,
    /// By `+` or `-`.
    Sum,
    /// By `*` or `div`.
    Product,
    /// A `-` before an operand.
    Unary,
    /// A number, a name, a truth, `prev`, `age`, or what stands in parentheses.
    Atom,
}

impl Level {
    fn rank(self) -> u8
        ensures { result ≡ rank self }
    {
        match self {
            Level::Disjunction => 0,
            Level::Conjunction => 1,
            Level::Negation => 2,
            Level::Comparison => 3,
            Level::Sum => 4,
            Level::Product => 5,
            Level::Unary => 6,
            Level::Atom => 7,
        }
    }

    /// Whether an expression of this level takes parentheses where one of the other may stand.
    pub fn is_looser(self, other: Level) -> bool
        ensures { result ≡ is_looser self other }
    {
        self.rank() < other.rank()
    }
}

impl Op {
    /// The level of what the operator makes.
    pub fn level(self) -> Level
        ensures { result ≡ op_level self }
    {
        match self {
            Op::Or => Level::Disjunction,
            Op::And => Level::Conjunction,
            Op::Eq | Op::Ne | Op::Lt | Op::Le | Op::Gt | Op::Ge => Level::Comparison,
            Op::Add | Op::Sub => Level::Sum,
            Op::Mul | Op::Div => Level::Product,
        }
    }

    /// The loosest level of its left operand. Operators of one level group to the left, and comparisons don't chain.
    pub fn left_level(self) -> Level
        ensures { result ≡ left_level self }
    {
        match self {
            Op::Eq | Op::Ne | Op::Lt | Op::Le | Op::Gt | Op::Ge => Level::Sum,
            _ => self.level(),
        }
    }

    /// The loosest level of its right operand.
    pub fn right_level(self) -> Level
        ensures { result ≡ right_level self }
    {
        match self {
            Op::Or => Level::Conjunction,
            Op::And => Level::Negation,
            Op::Eq | Op::Ne | Op::Lt | Op::Le | Op::Gt | Op::Ge => Level::Sum,
            Op::Add | Op::Sub => Level::Product,
            Op::Mul | Op::Div => Level::Unary,
        }
    }

    /// The sign or word of the operator.
    pub fn sign(self) -> &'static [u8]
        ensures { result.now ≡ op_sign self }
    {
        match self {
            Op::Or => b"or",
            Op::And => b"and",
            Op::Eq => b"=",
            Op::Ne => b"<>",
            Op::Lt => b"<",
            Op::Le => b"<=",
            Op::Gt => b">",
            Op::Ge => b">=",
            Op::Add => b"+",
            Op::Sub => b"-",
            Op::Mul => b"*",
            Op::Div => b"div",
        }
    }
}
