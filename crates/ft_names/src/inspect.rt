ghost use Rattle.std.specs.Prelude.{Option};
ghost use Rattle.ft_tree.specs.declared.expr.Expr.{Expr};
ghost use Rattle.ft_names.specs.declared.asked.Asked.{Asked};
ghost use Rattle.ft_names.specs.meaning.First.{Answers};
ghost use Rattle.ft_names.specs.meaning.Parts.{first_part};

use crate::asked::{Asked, ExprKind};
use crate::stop::Stop;
use ft_tree::Expr;

/// A test of one part of an expression.
pub trait Inspect {
    type Fault: Drop;

    /// The fault of a part, with what its place asks of it.
    ghost test: { Self → Asked → Expr → Option Self.Fault };

    /// One part, with what its place asks of it.
    fn part(&self, asked: Asked, expr: &Expr) -> Result<(), Stop<Self::Fault>>
        ensures { Answers result (test self.now asked expr.now) };
}

/// Looks for the first fault of the parts of an expression, in the order of the text. It passes over each part once.
#[tactic(auto, using(crate::specs::laws::Parts::first_parts))]
pub fn inspect_parts<I: Inspect>(
    inspector: &I,
    asked: Asked,
    expr: &Expr,
) -> Result<(), Stop<I::Fault>>
    ensures { Answers result (first_part (I.test inspector.now) asked expr.now) }
{
    match expr {
        Expr::Num { .. }
        | Expr::Name { .. }
        | Expr::Truth { .. }
        | Expr::Prev { .. }
        | Expr::Age { .. } => inspector.part(asked, expr),
        Expr::Not { of, .. } => {
            inspector.part(asked, expr)?;
            inspect_parts(inspector, Asked::Condition, of.get())
        }
        Expr::Neg { of, .. } => {
            inspector.part(asked, expr)?;
            inspect_parts(inspector, Asked::Term(ExprKind::Number), of.get())
        }
        Expr::Two {
            op,
            left,
            right,
            ..
        } => {
            inspect_parts(inspector, Asked::of_operands(*op), left.get())?;
            inspector.part(asked, expr)?;
            inspect_parts(inspector, Asked::of_operands(*op), right.get())
        }
    }
}
