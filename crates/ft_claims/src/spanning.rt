//! The spans of the unknowns that stand for quotients.
ghost use Rattle.std.specs.Prelude.{◌≡◌, ◌<◌, pos, ◌<ℤ◌, length, map, All, IfOk};
ghost use Rattle.ft_base.specs.Division.{floor_of};
ghost use Rattle.ft_linear.specs.meaning.Form.{HasUnknowns, span_at};
ghost use Rattle.ft_claims.specs.building.Marking.{AreOver};
ghost use Rattle.ft_claims.specs.meaning.Areas.{quotient_span, with_spans};

use crate::sums::Sum;
use ft_base::{List, NoMemory, Span};
use ft_linear::Lin;
use std::alloc::Global;

// The form of a sum. One past the limits of a form is refused as want of memory.
fn form_of(alloc: Global, sum: &Sum) -> Result<Lin, NoMemory>
    ensures { IfOk result (λ form. form ≡ sum.now) }
{
    let factors = List::copy_of(alloc, sum.factors.as_slice())?;
    match Lin::new(factors, sum.constant) {
        Some(form) => Ok(form),
        None => Err(NoMemory),
    }
}

// A value divided and rounded down. A quotient that doesn't fit is refused as want of memory.
fn floor_of(value: i128, divisor: i64) -> Result<i64, NoMemory>
    requires { pos 0 <ℤ divisor }
    ensures { IfOk result (λ floor. floor ≡ floor_of value divisor) }
{
    match i64::try_from(value.div_euclid(i128::from(divisor))) {
        Ok(floor) => Ok(floor),
        Err(_) => Err(NoMemory),
    }
}

// The span of these ends. One past the limits of a span is refused as want of memory.
fn span_of(lo: i64, hi: i64) -> Result<Span, NoMemory>
    ensures { IfOk result (λ span. span ≡ (lo, hi)) }
{
    match Span::new(lo, hi) {
        Some(span) => Ok(span),
        None => Err(NoMemory),
    }
}

fn quotient_span(alloc: Global, spans: &[Span], pair: &(Sum, i64)) -> Result<Span, NoMemory>
    requires over { HasUnknowns (length spans.now) pair.now.0.factors }
    requires divisor { pos 0 <ℤ pair.now.1 }
    ensures { IfOk result (λ span. span ≡ quotient_span spans.now pair.now) }
{
    let form = form_of(alloc, &pair.0)?;
    let least = floor_of(form.least(spans), pair.1)?;
    let greatest = floor_of(form.most(spans), pair.1)?;
    span_of(least, greatest)
}

/// The spans, and behind them that of the quotient of each pair in turn.
pub(crate) fn with_spans(
    alloc: Global,
    spans: &[Span],
    pairs: &[(Sum, i64)],
) -> Result<List<Span>, NoMemory>
    requires { AreOver (length spans.now) pairs.now }
    ensures { IfOk result (λ all. all ≡ with_spans spans.now pairs.now) }
{
    let mut all = List::copy_of(alloc, spans)?;
    for pair in pairs {
        let span = quotient_span(alloc, all.as_slice(), pair)?;
        all.push(span)?;
    }
    Ok(all)
}

/// The spans of these unknowns.
pub(crate) fn spans_at(
    alloc: Global,
    spans: &[Span],
    places: &[u32],
) -> Result<List<Span>, NoMemory>
    requires { All (λ place. place < length spans.now) places.now }
    ensures { IfOk result (λ list. list ≡ map (span_at spans.now) places.now) }
{
    let mut list = List::new(alloc);
    for place in places {
        list.push(spans[*place as usize])?;
    }
    Ok(list)
}
