ghost use Rattle.std.specs.Prelude.{◌≡◌};
ghost use Rattle.ft_types.specs.meaning.Kinds.{are_alike, is_comparable, is_met, op_kind};

use ft_names::{Asked, ExprKind};
use ft_tree::Op;

/// Whether an expression of this kind is what is asked.
pub fn is_met(asked: Asked, kind: ExprKind) -> bool
    ensures { result ≡ is_met asked kind }
{
    match asked {
        Asked::Condition => kind == ExprKind::Condition || kind == ExprKind::Truth,
        Asked::Term(needed) => kind == needed,
        Asked::Anything => true,
    }
}

/// What an operator makes.
pub fn op_kind(op: Op) -> ExprKind
    ensures { result ≡ op_kind op }
{
    match op {
        Op::Add | Op::Sub | Op::Mul | Op::Div => ExprKind::Number,
        Op::Or | Op::And | Op::Eq | Op::Ne | Op::Lt | Op::Le | Op::Gt | Op::Ge => {
            ExprKind::Condition
        }
    }
}

// Whether both are numbers, truths, or members of one type.
fn are_alike(left: ExprKind, right: ExprKind) -> bool
    ensures { result ≡ are_alike left right }
{
    match left {
        ExprKind::Number | ExprKind::Truth | ExprKind::Members(_) => left == right,
        ExprKind::Condition | ExprKind::Nothing => false,
    }
}

/// Whether an operator may stand between expressions of these kinds, as far as it compares them.
pub fn is_comparable(op: Op, left: ExprKind, right: ExprKind) -> bool
    ensures { result ≡ is_comparable op left right }
{
    match op {
        Op::Eq | Op::Ne => are_alike(left, right),
        Op::Lt | Op::Le | Op::Gt | Op::Ge => {
            left == ExprKind::Number && right == ExprKind::Number
        }
        Op::Or | Op::And | Op::Add | Op::Sub | Op::Mul | Op::Div => true,
    }
}
