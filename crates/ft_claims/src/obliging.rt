//! From claims to the obligation that nothing meets them.
ghost use Rattle.std.specs.Prelude.{◌≡◌, length, IfOk};
ghost use Rattle.ft_linear.specs.meaning.Formula.{IsOver};
ghost use Rattle.ft_settle.specs.meaning.Settled.{settled};
ghost use Rattle.ft_claims.specs.building.Marking.{first_marks};
ghost use Rattle.ft_claims.specs.laws.FormulaLaws.{AreGood};
ghost use Rattle.ft_claims.specs.meaning.Areas.{finished, pair_unknowns, with_marks};
ghost use Rattle.ft_claims.specs.meaning.Formulas.{unknowns_of};

use crate::claim::Claim;
use crate::counting::numbers_by;
use crate::marking::{mark_pairs, mark_unknowns};
use crate::placing::{first_marks, marked_places};
use crate::settling::settled_by;
use crate::spanning::{spans_at, with_spans};
use crate::wholes::{Whole, whole_of};
use ft_base::{List, NoMemory, Span};
use ft_linear::{Area, Formula};
use std::alloc::Global;

/// The formula of some claims over the unknowns that it has, numbered in the order of their names; the unknowns of quotients
/// come behind those of names.
#[derive(Drop)]
pub struct Obliged {
    pub formula: Formula,
    /// The span of each unknown.
    pub area: Area,
    /// The names that the first unknowns stand for, in rising order.
    pub names: List<u32>,
}

// How many names there are. More than 2^32 are refused as want of memory.
fn base_of(names: usize) -> Result<u32, NoMemory>
    ensures { IfOk result (λ base. base ≡ names) }
{
    match u32::try_from(names) {
        Ok(base) => Ok(base),
        Err(_) => Err(NoMemory),
    }
}

// Marks of the names that a formula has, and of the unknowns of its pairs.
fn marks_of(alloc: Global, names: usize, whole: &Whole) -> Result<List<bool>, NoMemory>
    ensures { IfOk result (λ marks. marks ≡ with_marks (with_marks (first_marks names (length whole.now.pairs))
        (unknowns_of whole.now.formula)) (pair_unknowns whole.now.pairs)) }
{
    let mut marks = first_marks(alloc, names, whole.pairs.len())?;
    mark_unknowns(&whole.formula, &mut marks);
    mark_pairs(whole.pairs.as_slice(), &mut marks);
    Ok(marks)
}

/// What some claims over names with these spans oblige to: that no point of the area satisfies the formula. Each claim has
/// only names that have a span, and its divisors are positive.
///
/// It takes time about in proportion to the text of the claims, and to the number of names.
pub fn oblige(alloc: Global, spans: &[Span], parts: &[Claim]) -> Result<Obliged, NoMemory>
    requires good { AreGood spans.now parts.now }
    ensures formula { IfOk result (λ o. o.formula ≡ settled (finished spans.now parts.now).formula) }
    ensures spans { IfOk result (λ o. o.area.spans ≡ (finished spans.now parts.now).spans) }
    ensures names { IfOk result (λ o. o.names ≡ (finished spans.now parts.now).names) }
    ensures over { IfOk result (λ o. IsOver (length o.area.spans) o.formula) }
{
    let base = base_of(spans.len())?;
    let whole = whole_of(alloc, base, parts)?;
    let marks = marks_of(alloc, spans.len(), &whole)?;
    let numbers = numbers_by(alloc, marks.as_slice())?;
    let formula = settled_by(alloc, numbers.as_slice(), &whole.formula)?;
    let all = with_spans(alloc, spans, whole.pairs.as_slice())?;
    let places = marked_places(alloc, marks.as_slice())?;
    let spans_left = spans_at(alloc, all.as_slice(), places.as_slice())?;
    let names = marked_places(alloc, &marks.as_slice()[..spans.len()])?;
    Ok(Obliged {
        formula,
        area: Area { spans: spans_left },
        names,
    })
}
