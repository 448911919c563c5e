//! The values of constant terms by those of their operands.
ghost use Rattle.std.specs.Prelude.{◌≡◌, ◌≤◌, ◌+ℤ◌, ◌-ℤ◌, ◌*ℤ◌, ℤ, IfSome, Some, neg_ℤ, option_map, unsigned_abs};
ghost use Rattle.ft_measure.specs.meaning.Measures.{both_values, quotient};

use crate::arithmetic::{difference, negated, product, sum};

/// The negation of a value, where it is there.
pub(crate) fn negated_value(a: Option<i64>) -> Option<i64>
    requires { IfSome a (λ x. unsigned_abs x ≤ 1000000000000000) }
    ensures { result ≡ option_map neg_ℤ a }
{
    match a {
        Some(a) => Some(negated(a)),
        None => None,
    }
}

/// The sum of two values, where both are there.
pub(crate) fn sum_values(a: Option<i64>, b: Option<i64>) -> Option<i64>
    requires left { IfSome a (λ x. unsigned_abs x ≤ 1000000000000000) }
    requires right { IfSome b (λ x. unsigned_abs x ≤ 1000000000000000) }
    ensures { result ≡ both_values ◌+ℤ◌ a b }
{
    match (a, b) {
        (Some(a), Some(b)) => Some(sum(a, b)),
        _ => None,
    }
}

/// The difference of two values, where both are there.
pub(crate) fn difference_values(a: Option<i64>, b: Option<i64>) -> Option<i64>
    requires left { IfSome a (λ x. unsigned_abs x ≤ 1000000000000000) }
    requires right { IfSome b (λ x. unsigned_abs x ≤ 1000000000000000) }
    ensures { result ≡ both_values ◌-ℤ◌ a b }
{
    match (a, b) {
        (Some(a), Some(b)) => Some(difference(a, b)),
        _ => None,
    }
}

/// The product of two values, where both are there.
pub(crate) fn product_values(a: Option<i64>, b: Option<i64>) -> Option<i64>
    requires { (x y : ℤ) → a ≡ Some x → b ≡ Some y → unsigned_abs (x *ℤ y) ≤ 1000000000000000 }
    ensures { result ≡ both_values ◌*ℤ◌ a b }
{
    match (a, b) {
        (Some(a), Some(b)) => Some(product(a, b)),
        _ => None,
    }
}

/// The quotient of two values rounded down, where both are there and the divisor is above 0.
pub(crate) fn quotient(a: Option<i64>, k: Option<i64>) -> Option<i64>
    ensures { result ≡ quotient a k }
{
    match (a, k) {
        (Some(a), Some(k)) => if k >= 1 { Some(a.div_euclid(k)) } else { None },
        _ => None,
    }
}
