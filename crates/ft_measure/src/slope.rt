//! What is wrong with a term at one place.
ghost use Rattle.std.specs.Prelude.{◌≡◌};
ghost use Rattle.std.specs.Option.{option_or};
ghost use Rattle.ft_measure.specs.meaning.Slopes.{factor_fault, is_divisor, is_beyond, operator_fault, product_fault, slope_at};

use crate::measure::{Measure, is_above};
use crate::sizes::magnitude;
use ft_base::Place;
use ft_tree::Op;

/// Why a term isn't linear.
#[derive(Clone, Copy, PartialEq, Eq, Drop)]
pub enum Why {
    /// No side of a product is constant.
    Product,
    /// The constant side of a product, the left one where both are, is beyond 1,000,000 either way.
    Factor,
    /// A divisor is no constant of 1 to 1,000,000.
    Divisor,
    /// A size is above 10^15.
    Size,
}

/// Where a term isn't linear, and why.
#[derive(Clone, Copy, Drop)]
pub struct Slope {
    pub why: Why,
    pub place: Place,
}

// Whether a magnitude is there and beyond 1,000,000.
fn is_beyond(magnitude: Option<u64>) -> bool
    ensures { result ≡ is_beyond magnitude }
{
    match magnitude {
        Some(size) => size > 1_000_000,
        None => false,
    }
}

fn is_divisor(value: Option<i64>) -> bool
    ensures { result ≡ is_divisor value }
{
    match value {
        Some(k) => k >= 1 && k <= 1_000_000,
        None => false,
    }
}

fn factor_fault(factor: Measure) -> Option<Why>
    ensures { result ≡ factor_fault factor }
{
    if is_beyond(magnitude(factor)) {
        Some(Why::Factor)
    } else {
        None
    }
}

fn product_fault(a: Measure, b: Measure) -> Option<Why>
    ensures { result ≡ product_fault a b }
{
    if a.constant {
        factor_fault(a)
    } else if b.constant {
        factor_fault(b)
    } else {
        Some(Why::Product)
    }
}

/// What is wrong with an operator between terms of these measures, but for the size of the whole.
pub(crate) fn operator_fault(op: Op, a: Measure, b: Measure) -> Option<Why>
    ensures { result ≡ operator_fault op a b }
{
    match op {
        Op::Mul => product_fault(a, b),
        Op::Div => if is_divisor(b.value) {
            None
        } else {
            Some(Why::Divisor)
        },
        Op::Add
        | Op::Sub
        | Op::Or
        | Op::And
        | Op::Eq
        | Op::Ne
        | Op::Lt
        | Op::Le
        | Op::Gt
        | Op::Ge => None,
    }
}

/// What is wrong at one place: with the operator, or else with the size of the whole.
pub(crate) fn slope_at(place: Place, why: Option<Why>, size: Option<u64>) -> Option<Slope>
    ensures { result ≡ slope_at place why size }
{
    match why {
        Some(why) => Some(Slope { why, place }),
        None => if is_above(size) {
            Some(Slope {
                why: Why::Size,
                place,
            })
        } else {
            None
        },
    }
}

/// The first of three that is there.
pub(crate) fn first_of_three(a: Option<Slope>, b: Option<Slope>, c: Option<Slope>) -> Option<Slope>
    ensures { result ≡ option_or a (option_or b c) }
{
    match a {
        Some(slope) => Some(slope),
        None => match b {
            Some(slope) => Some(slope),
            None => c,
        },
    }
}
