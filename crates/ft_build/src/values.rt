//! Values of constant expressions.
ghost use Rattle.std.specs.Prelude.{◌≡◌, ℤ, pos, neg_ℤ, ◌+ℤ◌, ◌-ℤ◌, ◌*ℤ◌};
ghost use Rattle.ft_build.specs.meaning.Terms.{both_value, kept, name_value, negated, operator_value, quotient};

use ft_base::div_floor;
use ft_names::Card;
use ft_tree::Op;

/// The greatest size of a term.
const LIMIT: u128 = 1_000_000_000_000_000;

// A value, where it is not beyond the limit.
#[tactic(auto, using(crate::proofs::ValueLemmas::fits))]
fn kept(value: i128) -> Option<i64>
    ensures { result ≡ kept value }
{
    if value.unsigned_abs() <= LIMIT {
        Some(value as i64)
    } else {
        None
    }
}

/// The value of a number.
pub fn number_value(value: u64) -> Option<i64>
    ensures { result ≡ kept (pos value) }
{
    kept(i128::from(value))
}

/// The value of a constant.
pub fn name_value(card: Option<Card>) -> Option<i64>
    ensures { result ≡ name_value card }
{
    match card {
        Some(Card::Constant(value)) => kept(i128::from(value)),
        _ => None,
    }
}

// The number with its sign turned.
#[tactic(auto, using(crate::proofs::ValueLemmas::wide))]
fn minus(a: i64) -> i128
    ensures { result ≡ neg_ℤ a }
{
    -i128::from(a)
}

#[tactic(auto, using(crate::proofs::ValueLemmas::wide))]
fn sum(a: i64, b: i64) -> i128
    ensures { result ≡ a +ℤ b }
{
    i128::from(a) + i128::from(b)
}

#[tactic(auto, using(crate::proofs::ValueLemmas::wide))]
fn difference(a: i64, b: i64) -> i128
    ensures { result ≡ a -ℤ b }
{
    i128::from(a) - i128::from(b)
}

#[tactic(auto, using(crate::proofs::ValueLemmas::wide))]
fn product(a: i64, b: i64) -> i128
    ensures { result ≡ a *ℤ b }
{
    i128::from(a) * i128::from(b)
}

// The quotient rounded down, where the divisor is above 0.
fn quotient(a: i64, k: i64) -> Option<i64>
    ensures { result ≡ quotient a k }
{
    if 1 <= k {
        kept(i128::from(div_floor(a, k)))
    } else {
        None
    }
}

fn both_value(op: Op, a: i64, b: i64) -> Option<i64>
    ensures { result ≡ both_value op a b }
{
    match op {
        Op::Add => kept(sum(a, b)),
        Op::Sub => kept(difference(a, b)),
        Op::Mul => kept(product(a, b)),
        Op::Div => quotient(a, b),
        Op::Or | Op::And | Op::Eq | Op::Ne | Op::Lt | Op::Le | Op::Gt | Op::Ge => None,
    }
}

/// The value of `-e`, by that of e.
pub fn negated(value: Option<i64>) -> Option<i64>
    ensures { result ≡ negated value }
{
    match value {
        Some(value) => kept(minus(value)),
        None => None,
    }
}

/// The value of an operator between two expressions, by theirs.
pub fn operator_value(op: Op, left: Option<i64>, right: Option<i64>) -> Option<i64>
    ensures { result ≡ operator_value op left right }
{
    match left {
        Some(a) => match right {
            Some(b) => both_value(op, a, b),
            None => None,
        },
        None => None,
    }
}
