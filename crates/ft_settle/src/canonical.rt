// Canonical forms: divided by the greatest common divisor of the factors, and negated where the first is negative.

ghost use Rattle.std.specs.Prelude.{◌≡◌, ◌≤◌, ◌<◌, ◌↔◌, IsTrue, IfOk, ℕ, pos, neg_ℤ, ◌-ℤ◌, length, map, nat_le, unsigned_abs, true};
ghost use Rattle.std.specs.Prelude.{if◌then◌else◌};
ghost use Rattle.std.specs.Int.{IsGcd};
ghost use Rattle.ft_base.specs.Division.{floor_of};
ghost use Rattle.ft_linear.specs.meaning.Bounds.{value_most};
ghost use Rattle.ft_linear.specs.meaning.Form.{AreRising, IsSmall};
ghost use Rattle.ft_settle.specs.meaning.Raw.{moderate_most};
ghost use Rattle.ft_settle.specs.meaning.Canonical.{canonical, divided, gcd_of, is_positive};
ghost use Rattle.ft_settle.specs.meaning.Settled.{same_form};
ghost use Rattle.ft_settle.specs.settling.Factors.{quotient_of};

use ft_base::{List, NoMemory};
use ft_linear::{Lin, form_laws, literal_constant, literal_factor};
use std::alloc::Global;

/// The greatest common divisor.
fn gcd(first: u64, second: u64) -> u64
    ensures { IsGcd first second result }
{
    let mut greater = first;
    let mut less = second;
    while less != 0 {
        let rest = greater % less;
        greater = less;
        less = rest;
    }
    greater
}

/// The greatest common divisor of the factors.
fn gcd_of(factors: &[(u32, i64)]) -> u64
    requires some { 0 < length factors.now }
    requires rising { AreRising 0 factors.now }
    ensures value { result ≡ gcd_of factors.now }
    ensures positive { 0 < result }
    ensures small { result ≤ value_most }
{
    form_laws();
    let mut divisor = 0;
    for factor in factors {
        divisor = gcd(divisor, factor.1.unsigned_abs());
    }
    divisor
}

/// Whether the first factor isn't negative.
pub fn is_positive(factors: &[(u32, i64)]) -> bool
    ensures { result ≡ is_positive factors.now }
{
    match factors {
        [first, ..] => !(first.1 < 0),
        [] => true,
    }
}

/// Whether two forms are the same.
pub fn same_form(first: &Lin, second: &Lin) -> bool
    ensures { result ≡ same_form first.now second.now }
{
    first.constant() == second.constant() && first.factors() == second.factors()
}

/// A factor divided by a divisor of all.
fn quotient(factor: i64, divisor: u64) -> i64
    requires factor { IsSmall factor }
    requires positive { 0 < divisor }
    requires divisor { divisor ≤ value_most }
    ensures value { result ≡ floor_of factor (pos divisor) }
    ensures small { IsSmall result }
{
    factor.div_euclid(divisor as i64)
}

/// A constant divided, and rounded up.
fn rounded_up(constant: i64, divisor: u64) -> i64
    requires constant { unsigned_abs constant ≤ moderate_most }
    requires positive { 0 < divisor }
    requires divisor { divisor ≤ value_most }
    ensures value { result ≡ neg_ℤ (floor_of (neg_ℤ constant) (pos divisor)) }
    ensures small { unsigned_abs result ≤ moderate_most }
{
    -(-constant).div_euclid(divisor as i64)
}

/// The factors divided by a number, with their signs turned where the first is negative.
fn canonical_factors(
    alloc: Global,
    factors: &[(u32, i64)],
    divisor: u64,
    positive: bool,
) -> Result<List<(u32, i64)>, NoMemory>
    requires rising { AreRising 0 factors.now }
    requires positive { 0 < divisor }
    requires divisor { divisor ≤ value_most }
    ensures { IfOk result (λ list. list ≡ map (quotient_of positive divisor) factors.now) }
{
    form_laws();
    let mut list = List::new(alloc);
    for factor in factors {
        list.push((
            factor.0,
            literal_factor(positive, quotient(factor.1, divisor)),
        ))?;
    }
    Ok(list)
}

/// The canonical form of a form's atom.
pub fn canonical(alloc: Global, form: &Lin) -> Result<Lin, NoMemory>
    requires some { 0 < length form.now.factors }
    requires moderate { nat_le (unsigned_abs form.now.constant) moderate_most ≡ true }
    ensures { IfOk result (λ atom. atom ≡ canonical form.now) }
{
    form_laws();
    let divisor = gcd_of(form.factors());
    let positive = is_positive(form.factors());
    let constant = literal_constant(positive, rounded_up(form.constant(), divisor));
    let factors = canonical_factors(alloc, form.factors(), divisor, positive)?;
    Ok(Lin::of_proper(factors, constant))
}
