//! Arithmetic of numbers of at most 10^15 either way.
ghost use Rattle.std.specs.Prelude.{◌≡◌, ◌≤◌, ◌+ℤ◌, ◌-ℤ◌, ◌*ℤ◌, neg_ℤ, unsigned_abs};

#[tactic(auto, using(crate::proofs::SizeLemmas::arithmetic))]
pub(crate) fn negated(a: i64) -> i64
    requires { unsigned_abs a ≤ 1000000000000000 }
    ensures { result ≡ neg_ℤ a }
{
    -a
}

#[tactic(auto, using(crate::proofs::SizeLemmas::arithmetic))]
pub(crate) fn sum(a: i64, b: i64) -> i64
    requires left { unsigned_abs a ≤ 1000000000000000 }
    requires right { unsigned_abs b ≤ 1000000000000000 }
    ensures { result ≡ a +ℤ b }
{
    a + b
}

#[tactic(auto, using(crate::proofs::SizeLemmas::arithmetic))]
pub(crate) fn difference(a: i64, b: i64) -> i64
    requires left { unsigned_abs a ≤ 1000000000000000 }
    requires right { unsigned_abs b ≤ 1000000000000000 }
    ensures { result ≡ a -ℤ b }
{
    a - b
}

/// The product, which is itself at most 10^15 either way.
#[tactic(auto, using(crate::proofs::SizeLemmas::arithmetic))]
pub(crate) fn product(a: i64, b: i64) -> i64
    requires { unsigned_abs (a *ℤ b) ≤ 1000000000000000 }
    ensures { result ≡ a *ℤ b }
{
    a * b
}
