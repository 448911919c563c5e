//! Conditions as formulas over linear forms.
ghost use Rattle.std.specs.Prelude.{◌≡◌, IfOk};
ghost use Rattle.ft_settle.specs.declared.raw.Raw.TheVariants as raw;
ghost use Rattle.ft_claims.specs.meaning.Forms.{minus};
ghost use Rattle.ft_claims.specs.meaning.Formulas.{Collects, CollectsAll, less};

use crate::claim::Claim;
use crate::gathering::form_of;
use crate::pairs::Pairs;
use crate::sums::{Sum, constant, minus, plus};
use ft_base::{Boxed, List, NoMemory};
use ft_linear::Lin;
use ft_settle::Raw;
use std::alloc::Global;

/// That a form is at most 0. A form past the limits of one is refused as want of memory.
pub(crate) fn at_most_zero(form: Sum) -> Result<Raw, NoMemory>
    ensures { IfOk result (λ whole. whole ≡ raw.Le form) }
{
    let Sum { factors, constant } = form;
    match Lin::new(factors, constant) {
        Some(line) => Ok(Raw::Le(line)),
        None => Err(NoMemory),
    }
}

/// That a form is at most another.
pub(crate) fn at_most(alloc: Global, first: &Sum, second: &Sum) -> Result<Raw, NoMemory>
    ensures { IfOk result (λ whole. whole ≡ raw.Le (minus first.now second.now)) }
{
    at_most_zero(minus(alloc, first, second)?)
}

fn less(alloc: Global, first: &Sum, second: &Sum) -> Result<Raw, NoMemory>
    ensures { IfOk result (λ whole. whole ≡ raw.Le (less first.now second.now)) }
{
    let difference = minus(alloc, first, second)?;
    let one = constant(alloc, 1);
    at_most_zero(plus(alloc, &difference, &one)?)
}

/// The other truth of a formula.
pub(crate) fn denied(alloc: Global, inner: Raw) -> Result<Raw, NoMemory>
    ensures { IfOk result (λ whole. whole ≡ raw.Not inner) }
{
    Ok(Raw::Not(Boxed::new(alloc, inner)?))
}

/// The formulas of conditions. Their pairs are added to those that are there, from left to right.
#[cycle(formula)]
pub fn formulas_of(
    alloc: Global,
    base: u32,
    parts: &[Claim],
    pairs: &mut Pairs,
) -> Result<List<Raw>, NoMemory>
    ensures { IfOk result (λ list. CollectsAll base parts.now pairs.old pairs.new list) }
{
    let mut list = List::new(alloc);
    for part in parts {
        let formula = formula_of(alloc, base, part, pairs)?;
        list.push(formula)?;
    }
    Ok(list)
}

/// The formula of a condition. Its pairs are added to those that are there.
#[cycle(formula)]
pub fn formula_of(
    alloc: Global,
    base: u32,
    claim: &Claim,
    pairs: &mut Pairs,
) -> Result<Raw, NoMemory>
    ensures { IfOk result (λ formula. Collects base claim.now pairs.old pairs.new formula) }
{
    match claim {
        Claim::Le(a, b) => {
            let first = form_of(alloc, base, a, pairs)?;
            let second = form_of(alloc, base, b, pairs)?;
            let whole = at_most(alloc, &first, &second)?;
            Ok(whole)
        }
        Claim::Lt(a, b) => {
            let first = form_of(alloc, base, a, pairs)?;
            let second = form_of(alloc, base, b, pairs)?;
            let whole = less(alloc, &first, &second)?;
            Ok(whole)
        }
        Claim::Not(inner) => {
            let formula = formula_of(alloc, base, inner.get(), pairs)?;
            let whole = denied(alloc, formula)?;
            Ok(whole)
        }
        Claim::And(parts) => {
            let list = formulas_of(alloc, base, parts.as_slice(), pairs)?;
            Ok(Raw::And(list))
        }
        Claim::Or(parts) => {
            let list = formulas_of(alloc, base, parts.as_slice(), pairs)?;
            Ok(Raw::Or(list))
        }
    }
}
