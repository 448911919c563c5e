//! Terms as linear forms. Each different pair of a form and a divisor has an unknown of its own.
ghost use Rattle.std.specs.Prelude.{◌≡◌, ◌+◌, pos, ◌<ℤ◌, IfOk, OnOk};
ghost use Rattle.ft_claims.specs.meaning.Forms.{Gathers, quotient, unknown, with_entry};

use crate::claim::Sym;
use crate::pairs::Pairs;
use crate::sums::{Sum, constant, minus, plus, times, unknown};
use ft_base::{NoMemory, div_floor};
use std::alloc::Global;

// The unknown at a place behind the names.
fn unknown_at(alloc: Global, base: u32, place: usize) -> Result<Sum, NoMemory>
    ensures { IfOk result (λ form. form ≡ unknown (base + place)) }
{
    match u32::try_from(place) {
        Ok(place) => unknown(alloc, u64::from(base) + u64::from(place)),
        Err(_) => Err(NoMemory),
    }
}

// The quotient of a form: a number where the form is one, and else the unknown of its pair.
fn quotient(
    alloc: Global,
    base: u32,
    form: Sum,
    divisor: i64,
    pairs: &mut Pairs,
) -> Result<Sum, NoMemory>
    ensures pairs { OnOk result (pairs.new ≡ with_entry pairs.old form divisor) }
    ensures value { IfOk result (λ whole. whole ≡ quotient base pairs.new form divisor) }
{
    if divisor < 1 {
        return Err(NoMemory);
    }
    if form.factors.is_empty() {
        return Ok(constant(alloc, div_floor(form.constant, divisor)));
    }
    let place = pairs.place_in(form, divisor)?;
    unknown_at(alloc, base, place)
}

/// The form of a term. Its pairs are added to those that are there.
pub fn form_of(alloc: Global, base: u32, term: &Sym, pairs: &mut Pairs) -> Result<Sum, NoMemory>
    ensures { IfOk result (λ form. Gathers base term.now pairs.old pairs.new form) }
{
    match term {
        Sym::Num(number) => Ok(constant(alloc, *number)),
        Sym::Slot(name) => {
            let form = unknown(alloc, u64::from(*name))?;
            Ok(form)
        }
        Sym::Neg(inner) => {
            let form = form_of(alloc, base, inner.get(), pairs)?;
            let whole = times(alloc, -1, &form)?;
            Ok(whole)
        }
        Sym::Add(a, b) => {
            let first = form_of(alloc, base, a.get(), pairs)?;
            let second = form_of(alloc, base, b.get(), pairs)?;
            let whole = plus(alloc, &first, &second)?;
            Ok(whole)
        }
        Sym::Sub(a, b) => {
            let first = form_of(alloc, base, a.get(), pairs)?;
            let second = form_of(alloc, base, b.get(), pairs)?;
            let whole = minus(alloc, &first, &second)?;
            Ok(whole)
        }
        Sym::Times(factor, inner) => {
            let form = form_of(alloc, base, inner.get(), pairs)?;
            let whole = times(alloc, *factor, &form)?;
            Ok(whole)
        }
        Sym::Div(inner, divisor) => {
            let form = form_of(alloc, base, inner.get(), pairs)?;
            let whole = quotient(alloc, base, form, *divisor, pairs)?;
            Ok(whole)
        }
    }
}
