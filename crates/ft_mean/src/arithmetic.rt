//! Arithmetic of numbers of at most 10^15 either way, and how numbers compare.
ghost use Rattle.std.specs.Prelude.{◌≡◌, ◌≤◌, ◌+ℤ◌, ◌-ℤ◌, ◌*ℤ◌, neg_ℤ, unsigned_abs};
ghost use Rattle.ft_mean.specs.meaning.Value.{compares};

use ft_core::Rel;

#[tactic(auto, using(crate::proofs::BoundLemmas::bounds))]
pub(crate) fn negated(a: i64) -> i64
    requires { unsigned_abs a ≤ 1000000000000000 }
    ensures { result ≡ neg_ℤ a }
{
    -a
}

#[tactic(auto, using(crate::proofs::BoundLemmas::bounds))]
pub(crate) fn sum(a: i64, b: i64) -> i64
    requires left { unsigned_abs a ≤ 1000000000000000 }
    requires right { unsigned_abs b ≤ 1000000000000000 }
    ensures { result ≡ a +ℤ b }
{
    a + b
}

#[tactic(auto, using(crate::proofs::BoundLemmas::bounds))]
pub(crate) fn difference(a: i64, b: i64) -> i64
    requires left { unsigned_abs a ≤ 1000000000000000 }
    requires right { unsigned_abs b ≤ 1000000000000000 }
    ensures { result ≡ a -ℤ b }
{
    a - b
}

/// The product, which is itself at most 10^15 either way.
#[tactic(auto, using(crate::proofs::BoundLemmas::bounds))]
pub(crate) fn product(a: i64, b: i64) -> i64
    requires { unsigned_abs (a *ℤ b) ≤ 1000000000000000 }
    ensures { result ≡ a *ℤ b }
{
    a * b
}

/// Whether two numbers compare so.
pub fn compare(relation: Rel, left: i64, right: i64) -> bool
    ensures { result ≡ compares relation left right }
{
    match relation {
        Rel::Eq => left == right,
        Rel::Ne => left != right,
        Rel::Lt => left < right,
        Rel::Le => left <= right,
        Rel::Gt => left > right,
        Rel::Ge => left >= right,
    }
}
