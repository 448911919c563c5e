//! The measures of expressions without operands.
ghost use Rattle.std.specs.Prelude.{◌≡◌, pos};
ghost use Rattle.ft_measure.specs.meaning.Measures.{of_age, of_bounds, of_constant, of_name, of_prev, of_values};

use crate::measure::{LIMIT, Measure, capped, joined, unmeasured};
use ft_names::{Card, Values};

fn of_constant(value: i64) -> Measure
    ensures { result ≡ of_constant value }
{
    joined(true, false, Some(value), Some(capped(value.unsigned_abs())))
}

/// The measure of a number. One above 10^15 is large.
pub(crate) fn of_number(value: u64) -> Measure
    ensures { result ≡ of_constant (pos value) }
{
    if value > LIMIT {
        joined(true, false, None, Some(LIMIT + 1))
    } else {
        of_constant(value as i64)
    }
}

fn of_bounds(lo: i64, hi: i64) -> Measure
    ensures { result ≡ of_bounds lo hi }
{
    let size = lo.unsigned_abs().max(hi.unsigned_abs()).max(1);
    joined(false, false, None, Some(capped(size)))
}

fn of_values(values: Values) -> Measure
    ensures { result ≡ of_values values }
{
    match values {
        Values::Numbers { lo, hi } => of_bounds(lo, hi),
        _ => unmeasured(),
    }
}

/// The measure of a name.
pub(crate) fn of_name(card: Option<Card>) -> Measure
    ensures { result ≡ of_name card }
{
    match card {
        Some(Card::Constant(value)) => of_constant(value),
        Some(Card::Variable { values, .. }) => of_values(values),
        _ => unmeasured(),
    }
}

/// The measure of a variable's value one scan before.
pub(crate) fn of_prev(card: Option<Card>) -> Measure
    ensures { result ≡ of_prev card }
{
    match card {
        Some(Card::Variable { values, .. }) => of_values(values),
        _ => unmeasured(),
    }
}

/// The measure of a timer's age.
pub(crate) fn of_age(card: Option<Card>) -> Measure
    ensures { result ≡ of_age card }
{
    match card {
        Some(
            Card::Memory {
                hold: Some(hold),
                ..
            },
        ) => of_bounds(-1, hold),
        _ => unmeasured(),
    }
}
