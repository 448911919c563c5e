// Whether a forced literal leaves an unknown at most half of its values, by its own line and the bounds of its other unknowns.

ghost use Rattle.std.specs.Prelude.{◌≡◌, ◌≤◌, ◌<◌, ◌^◌, ℕ, ℤ, true, false, length, IfSome, IfNone};
ghost use Rattle.ft_linear.specs.meaning.Form.{HasUnknowns, span_at};
ghost use Rattle.ft_linear.specs.meaning.Formula.{IsOver};
ghost use Rattle.ft_linear.specs.meaning.Halving.{NoneHalves, is_half};
ghost use Rattle.ft_linear.specs.meaning.Marks.{AreFor, AreJudged};
ghost use Rattle.ft_linear.specs.meaning.Part.{forced};
ghost use Rattle.ft_linear.specs.meaning.Rules.{literal_form};
ghost use Rattle.ft_search.specs.searching.Single.{IsByForm, IsSingle, LeavesHalf, NoneBelow, NoneBy, NoneByForm};

use crate::points::width;
use ft_base::Span;
use ft_linear::{Formula, Lin, Marks, Part, single_span, sum_laws};

/// A literal that leaves an unknown a span of at most half of its values.
#[derive(Clone, Copy, Drop)]
pub(crate) struct Single {
    pub(crate) atom: u32,
    pub(crate) value: bool,
    pub(crate) unknown: u32,
    pub(crate) span: Span,
}

/// Whether a span has at most half of the values of another.
pub(crate) fn is_half(old: Span, new: Span) -> bool
    ensures { result ≡ is_half old new }
{
    2 * (width(new) + 1) <= width(old) + 1
}

/// The span that a literal of this form leaves an unknown, where it has at most half of its values.
fn halved_span(form: &Lin, value: bool, spans: &[Span], unknown: u32) -> Option<Span>
    requires over { HasUnknowns (length spans.now) form.now.factors }
    requires unknown { unknown < length spans.now }
    ensures some { IfSome result (LeavesHalf spans.now (literal_form value form.now) unknown) }
    ensures none { IfNone result ((s : ℤ × ℤ) → LeavesHalf spans.now (literal_form value form.now) unknown s → ⊥) }
{
    match single_span(form, value, spans, unknown) {
        Some(span) => {
            if is_half(spans[unknown as usize], span) {
                Some(span)
            } else {
                None
            }
        }
        None => None,
    }
}

/// The first unknown that a literal of this form halves.
fn by_form(form: &Lin, atom: u32, value: bool, spans: &[Span]) -> Option<Single>
    requires over { HasUnknowns (length spans.now) form.now.factors }
    ensures some { IfSome result (IsByForm spans.now form.now atom value) }
    ensures none { IfNone result (NoneByForm spans.now form.now value) }
{
    'factors: for factor in form.factors() {
        let unknown = factor.0;
        match halved_span(form, value, spans, unknown) {
            Some(span) => {
                return Some(Single {
                    atom,
                    value,
                    unknown,
                    span,
                });
            }
            None => {}
        }
    }
    None
}

/// Whether a literal of an atom of the formula is forced.
pub(crate) fn is_forced(
    formula: &Formula,
    part: &Part,
    marks: &Marks,
    atom: u32,
    value: bool,
) -> bool
    requires opened { AreFor formula.now part.now marks.now }
    requires judged { AreJudged formula.now part.now marks.now }
    requires atom { atom < length formula.now.atoms }
    ensures { result ≡ forced formula.now part.now atom value }
{
    marks.is_forced(atom as usize, value)
}

/// The first unknown that a literal halves.
fn by_literal(
    formula: &Formula,
    part: &Part,
    marks: &Marks,
    atom: u32,
    value: bool,
) -> Option<Single>
    requires opened { AreFor formula.now part.now marks.now }
    requires judged { AreJudged formula.now part.now marks.now }
    requires atom { atom < length formula.now.atoms }
    requires over { IsOver (length part.now.spans) formula.now }
    ensures some { IfSome result (IsSingle formula.now part.now) }
    ensures none { IfNone result (NoneBy formula.now part.now atom value) }
{
    sum_laws();
    if !is_forced(formula, part, marks, atom, value) {
        return None;
    }
    let form = &formula.atoms()[atom as usize];
    if form.factors().len() > 3 {
        return None;
    }
    by_form(form, atom, value, part.area().spans.as_slice())
}

/// The first unknown that one of the two literals of an atom halves.
fn by_atom(formula: &Formula, part: &Part, marks: &Marks, atom: u32) -> Option<Single>
    requires opened { AreFor formula.now part.now marks.now }
    requires judged { AreJudged formula.now part.now marks.now }
    requires atom { atom < length formula.now.atoms }
    requires over { IsOver (length part.now.spans) formula.now }
    ensures some { IfSome result (IsSingle formula.now part.now) }
    ensures yes { IfNone result (NoneBy formula.now part.now atom true) }
    ensures no { IfNone result (NoneBy formula.now part.now atom false) }
{
    let single = by_literal(formula, part, marks, atom, true);
    if single.is_some() {
        return single;
    }
    by_literal(formula, part, marks, atom, false)
}

/// The first literal that halves an unknown. The part is the one that was judged last.
pub(crate) fn halving(formula: &Formula, part: &Part, marks: &Marks) -> Option<Single>
    requires opened { AreFor formula.now part.now marks.now }
    requires judged { AreJudged formula.now part.now marks.now }
    requires atoms { length formula.now.atoms < 2 ^ 32 }
    requires over { IsOver (length part.now.spans) formula.now }
    ensures some { IfSome result (IsSingle formula.now part.now) }
    ensures none { IfNone result (NoneHalves formula.now part.now) }
{
    let count = formula.atoms().len() as u32;
    for atom in 0..count {
        let single = by_atom(formula, part, marks, atom);
        if single.is_some() {
            return single;
        }
    }
    None
}
