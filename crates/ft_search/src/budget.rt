// How many splits a search of an area can need.

ghost use Rattle.std.specs.Prelude.{◌≡◌, ◌<◌, ◌≤◌, ◌+◌, ◌*◌, ◌^◌, ◌≤ℤ◌, length, IfSome};
ghost use Rattle.ft_linear.specs.meaning.Formula.{FormulaView};
ghost use Rattle.ft_search.specs.laws.Budget.{AreNonempty, points_in, values_in};
ghost use Rattle.ft_search.specs.searching.Sizes.{IsEnough};

use crate::points::width;
use ft_base::Span;

/// So many times the values of a span, where that is at most a limit.
fn times_values(count: u32, span: Span, limit: u32) -> Option<u32>
    requires limit { limit ≤ 200001 }
    requires few { count ≤ limit }
    ensures full { span.0 ≤ℤ span.1 }
    ensures value { IfSome result (λ n. n ≡ count * values_in span) }
    ensures small { IfSome result (λ n. n ≤ limit) }
{
    let values = width(span) + 1;
    if values > i64::from(limit) {
        return None;
    }
    let product = u64::from(count) * values as u64;
    if product > u64::from(limit) {
        return None;
    }
    Some(product as u32)
}

/// How many points an area has, where these are at most so many.
fn points(spans: &[Span], limit: u32) -> Option<u32>
    requires some { 1 ≤ limit }
    requires limit { limit ≤ 200001 }
    ensures value { IfSome result (λ n. n ≡ points_in spans.now) }
    ensures small { IfSome result (λ n. n ≤ limit) }
    ensures nonempty { IfSome result (λ n. AreNonempty spans.now) }
{
    let mut count = 1;
    for span in spans {
        match times_values(count, *span, limit) {
            Some(more) => count = more,
            None => return None,
        }
    }
    Some(count)
}

/// Twice a number for each of so many atoms, where that is at most a limit.
fn doubled(count: u32, atoms: u32, limit: u32) -> Option<u32>
    requires few { count ≤ limit }
    requires limit { limit ≤ 200001 }
    ensures value { IfSome result (λ n. n ≡ count * 2 ^ atoms) }
    ensures small { IfSome result (λ n. n ≤ limit) }
{
    let mut choices = count;
    for atom in 0..atoms {
        if choices * 2 > limit {
            return None;
        }
        choices *= 2;
    }
    Some(choices)
}

/// The splits that a search of an area with so many atoms is given: those that are asked for, or as many as it can need where
/// that is less.
pub(crate) fn budget(spans: &[Span], atoms: u32, splits: u32) -> u32
    requires { splits ≤ 200000 }
    ensures few { result ≤ splits }
    ensures enough { (f : FormulaView) → length f.atoms ≡ atoms → result < splits → IsEnough f spans.now result }
{
    let limit = splits + 1;
    let Some(count) = points(spans, limit) else {
        return splits;
    };
    match doubled(count, atoms, limit) {
        Some(0) => splits,
        Some(choices) => choices - 1,
        None => splits,
    }
}
