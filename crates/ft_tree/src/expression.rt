ghost use Rattle.std.specs.Prelude.{◌≡◌, OnOk};
ghost use Rattle.ft_tree.specs.meaning.Expression.{expr_pieces, history, operand, spelled, truth_word};
ghost use Rattle.ft_tree.specs.writing.Writer.{put_all};

use crate::expr::Expr;
use crate::level::Level;
use crate::writer::Writer;
use ft_base::{NoMemory, Text};

/// The word of a truth.
pub fn truth(value: bool) -> &'static [u8]
    ensures { result.now ≡ truth_word value }
{
    if value { b"true" } else { b"false" }
}

#[tactic(auto, using(crate::proofs::ExprLemmas::expressions))]
fn level(expr: &Expr) -> Level
    ensures { result ≡ (spelled expr.now).level }
{
    match expr {
        Expr::Num { .. }
        | Expr::Name { .. }
        | Expr::Truth { .. }
        | Expr::Prev { .. }
        | Expr::Age { .. } => Level::Atom,
        Expr::Not { .. } => Level::Negation,
        Expr::Neg { .. } => Level::Unary,
        Expr::Two { op, .. } => op.level(),
    }
}

#[tactic(auto, using(crate::proofs::WritingLemmas::steps))]
fn write_history(writer: &mut Writer, word: &[u8], name: &Text) -> Result<(), NoMemory>
    ensures { OnOk result (writer.new ≡ put_all writer.old (history word.now name.now)) }
{
    writer.put(word)?;
    writer.put(b"(")?;
    writer.put(name.as_slice())?;
    writer.put(b")")
}

// An operand, in parentheses where it is looser than its place takes.
#[cycle(expressions)]
#[tactic(auto, using(crate::proofs::ExprLemmas::expressions), unfolding(crate::specs::meaning::Expression::operand))]
fn write_operand(writer: &mut Writer, expr: &Expr, needed: Level) -> Result<(), NoMemory>
    ensures { OnOk result (writer.new ≡ put_all writer.old (operand needed (spelled expr.now))) }
{
    if level(expr).is_looser(needed) {
        writer.put(b"(")?;
        write_expr(writer, expr)?;
        writer.put(b")")
    } else {
        write_expr(writer, expr)
    }
}

/// The tokens of an expression.
#[cycle(expressions)]
#[tactic(auto, using(crate::proofs::ExprLemmas::expressions), unfolding(crate::specs::meaning::Expression::operand))]
pub fn write_expr(writer: &mut Writer, expr: &Expr) -> Result<(), NoMemory>
    ensures { OnOk result (writer.new ≡ put_all writer.old (expr_pieces expr.now)) }
{
    match expr {
        Expr::Num { value, .. } => writer.put_number(*value),
        Expr::Name { name, .. } => writer.put(name.as_slice()),
        Expr::Truth { value, .. } => writer.put(truth(*value)),
        Expr::Prev { name, .. } => write_history(writer, b"prev", name),
        Expr::Age { name, .. } => write_history(writer, b"age", name),
        Expr::Not { of, .. } => {
            writer.put(b"not")?;
            write_operand(writer, of.get(), Level::Negation)
        }
        Expr::Neg { of, .. } => {
            writer.put_minus()?;
            write_operand(writer, of.get(), Level::Unary)
        }
        Expr::Two {
            op,
            left,
            right,
            ..
        } => {
            write_operand(writer, left.get(), op.left_level())?;
            writer.put(op.sign())?;
            write_operand(writer, right.get(), op.right_level())
        }
    }
}
