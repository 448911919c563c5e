//! Which names a formula has.
ghost use Rattle.std.specs.Prelude.{◌≡◌, map};
ghost use Rattle.std.specs.List.{flat_map};
ghost use Rattle.ft_claims.specs.meaning.Areas.{marked_at, pair_unknowns, with_marks};
ghost use Rattle.ft_claims.specs.meaning.Formulas.{unknowns_of};

use crate::sums::Sum;
use ft_base::List;
use ft_settle::Raw;

// Marks a name, where there is a place for it.
fn mark(name: u32, marks: &mut List<bool>)
    ensures { marks.new ≡ marked_at marks.old name }
{
    if (name as usize) < marks.len() {
        marks.set(name as usize, true);
    }
}

fn mark_factors(factors: &[(u32, i64)], marks: &mut List<bool>)
    ensures { marks.new ≡ with_marks marks.old (map (λ f. f.0) factors.now) }
{
    for factor in factors {
        mark(factor.0, marks);
    }
}

fn mark_form(form: &Sum, marks: &mut List<bool>)
    ensures { marks.new ≡ with_marks marks.old (map (λ f. f.0) form.now.factors) }
{
    mark_factors(form.factors.as_slice(), marks);
}

fn mark_pair(pair: &(Sum, i64), marks: &mut List<bool>)
    ensures { marks.new ≡ with_marks marks.old (map (λ f. f.0) pair.now.0.factors) }
{
    mark_form(&pair.0, marks);
}

/// Marks the unknowns of the forms of pairs.
pub(crate) fn mark_pairs(pairs: &[(Sum, i64)], marks: &mut List<bool>)
    ensures { marks.new ≡ with_marks marks.old (pair_unknowns pairs.now) }
{
    for pair in pairs {
        mark_pair(pair, marks);
    }
}

#[cycle(mark)]
fn mark_all(parts: &[Raw], marks: &mut List<bool>)
    ensures { marks.new ≡ with_marks marks.old (flat_map unknowns_of parts.now) }
{
    for part in parts {
        mark_unknowns(part, marks);
    }
}

/// Marks the unknowns of a formula.
#[cycle(mark)]
pub fn mark_unknowns(formula: &Raw, marks: &mut List<bool>)
    ensures { marks.new ≡ with_marks marks.old (unknowns_of formula.now) }
{
    match formula {
        Raw::Le(form) => mark_factors(form.factors(), marks),
        Raw::Not(inner) => mark_unknowns(inner.get(), marks),
        Raw::And(parts) => mark_all(parts.as_slice(), marks),
        Raw::Or(parts) => mark_all(parts.as_slice(), marks),
    }
}
