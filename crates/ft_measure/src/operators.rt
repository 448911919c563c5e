//! The measures of operator expressions by those of their operands.
ghost use Rattle.std.specs.Prelude.{◌≡◌, ◌+ℤ◌, ◌-ℤ◌};
ghost use Rattle.ft_measure.specs.meaning.Measures.{of_negation, of_operator, of_product, of_quotient, of_sum};
ghost use Rattle.ft_measure.specs.laws.Bounded.{IsBounded};

use crate::measure::{Measure, is_above, joined, unmeasured};
use crate::sizes::{both_sizes, product_size};
use crate::values::{difference_values, negated_value, product_values, quotient, sum_values};
use ft_tree::Op;

/// The measure of a negation.
#[tactic(auto, using(crate::proofs::BoundedLemmas::bounded))]
pub(crate) fn of_negation(a: Measure) -> Measure
    requires { IsBounded a }
    ensures { result ≡ of_negation a }
{
    joined(a.constant, a.large, negated_value(a.value), a.size)
}

#[tactic(auto, using(crate::proofs::BoundedLemmas::bounded))]
fn of_sum(a: Measure, b: Measure) -> Measure
    requires left { IsBounded a }
    requires right { IsBounded b }
    ensures { result ≡ of_sum ◌+ℤ◌ a b }
{
    joined(
        a.constant && b.constant,
        a.large || b.large,
        sum_values(a.value, b.value),
        both_sizes(a.size, b.size),
    )
}

#[tactic(auto, using(crate::proofs::BoundedLemmas::bounded))]
fn of_difference(a: Measure, b: Measure) -> Measure
    requires left { IsBounded a }
    requires right { IsBounded b }
    ensures { result ≡ of_sum ◌-ℤ◌ a b }
{
    joined(
        a.constant && b.constant,
        a.large || b.large,
        difference_values(a.value, b.value),
        both_sizes(a.size, b.size),
    )
}

// A product whose size is above 10^15 keeps no value, so only one of at most that size is computed.
#[tactic(auto, using(crate::proofs::BoundedLemmas::bounded))]
fn of_product(a: Measure, b: Measure) -> Measure
    requires left { IsBounded a }
    requires right { IsBounded b }
    ensures { result ≡ of_product a b }
{
    let size = product_size(a, b);
    let constant = a.constant && b.constant;
    let large = a.large || b.large;
    if is_above(size) {
        joined(constant, large, None, size)
    } else {
        joined(constant, large, product_values(a.value, b.value), size)
    }
}

fn of_quotient(a: Measure, b: Measure) -> Measure
    ensures { result ≡ of_quotient a b }
{
    joined(
        a.constant && b.constant,
        a.large || b.large,
        quotient(a.value, b.value),
        a.size,
    )
}

/// The measure of an operator between terms of these measures.
pub(crate) fn of_operator(op: Op, a: Measure, b: Measure) -> Measure
    requires left { IsBounded a }
    requires right { IsBounded b }
    ensures { result ≡ of_operator op a b }
{
    match op {
        Op::Add => of_sum(a, b),
        Op::Sub => of_difference(a, b),
        Op::Mul => of_product(a, b),
        Op::Div => of_quotient(a, b),
        Op::Or | Op::And | Op::Eq | Op::Ne | Op::Lt | Op::Le | Op::Gt | Op::Ge => unmeasured(),
    }
}
