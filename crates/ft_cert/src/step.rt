ghost use Rattle.std.specs.Prelude.{◌≡◌, ◌≤ℤ◌, ◌<ℤ◌, ◌+ℤ◌, pos, length, IfSome, IfNone};
ghost use Rattle.ft_linear.specs.meaning.Formula.{FormulaView};
ghost use Rattle.ft_cert.specs.walk.Steps.{IsStepOf};

use crate::node::CertNode;
use ft_base::Span;
use ft_linear::{Formula, Part};

/// A step from a part to the parts that a node makes of it.
#[derive(Clone, Copy, Drop)]
pub enum Step {
    /// The part is closed.
    Close,
    /// An unknown gets one span, and then another.
    Cut {
        /// The unknown.
        unknown: u32,
        /// Its first span.
        low: Span,
        /// Its second span.
        high: Span,
    },
    /// An atom is true, and then false.
    Decide {
        /// The atom.
        atom: u32,
    },
    /// An unknown gets a span.
    Tighten {
        /// The unknown.
        unknown: u32,
        /// The span.
        span: Span,
    },
}

/// The two spans of a cut at a value. None exactly where one of them would be empty.
fn halves(span: Span, value: i64) -> Option<(Span, Span)>
    ensures some { IfSome result (λ h. (span.0 ≤ℤ value) × (value <ℤ span.1)) }
    ensures spans { IfSome result (λ h. (h.0 ≡ (span.0, value)) × (h.1 ≡ (value +ℤ pos 1, span.1))) }
    ensures none { IfNone result (span.0 ≤ℤ value → value <ℤ span.1 → ⊥) }
{
    if value < span.lo() || value >= span.hi() {
        return None;
    }
    let low = Span::new(span.lo(), value)?;
    let high = Span::new(value + 1, span.hi())?;
    Some((low, high))
}

/// The step of a cut of an unknown at a value. None exactly where the unknown isn't there, or has no value on one side.
pub fn cut_step(part: &Part, unknown: u32, value: i64) -> Option<Step>
    ensures { (f : FormulaView) → IsStepOf f part.now (CertNode.R unknown value) result }
{
    let spans = part.area().spans.as_slice();
    if unknown as usize >= spans.len() {
        return None;
    }
    let (low, high) = halves(spans[unknown as usize], value)?;
    Some(Step::Cut { unknown, low, high })
}

/// The step of a case on an atom. None exactly where the formula doesn't have the atom, or the atom is decided.
pub fn case_step(formula: &Formula, part: &Part, atom: u32) -> Option<Step>
    requires { length part.now.decided ≡ length formula.now.atoms }
    ensures { IsStepOf formula.now part.now (CertNode.C atom) result }
{
    if atom as usize >= formula.atoms().len() {
        return None;
    }
    match part.decided(atom) {
        None => Some(Step::Decide { atom }),
        Some(_) => None,
    }
}
