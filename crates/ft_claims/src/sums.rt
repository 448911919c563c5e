//! Sums of factors of unknowns.
ghost use Rattle.std.specs.Prelude.{◌≡◌, ◌++◌, [], ◌∷◌, ◌+ℤ◌, ◌*ℤ◌, map, IfOk, OnOk};
ghost use Rattle.std.specs.Cmp.{partial_equiv_from_equiv};
ghost use Rattle.ft_settle.specs.laws.Hashes.{form_alike, form_equiv, form_writes};
ghost use Rattle.ft_settle.specs.meaning.Settled.{same_form};
ghost use Rattle.ft_claims.specs.meaning.Forms.{Rises, constant_form, minus, plus, times, times_factors, unknown, with_factors, with_front};

use ft_base::{List, NoMemory};
use std::alloc::Global;
use std::hash::{Hash, Hasher};
use std::marker::Model;

/// A sum of whole factors of unknowns, and a constant. The unknowns rise strictly, and no factor is 0.
#[derive(Drop)]
pub struct Sum {
    pub(crate) factors: List<(u32, i64)>,
    pub(crate) constant: i64,
}

impl Model for Sum {
    ghost use Rattle.ft_linear.specs.meaning.Form.{LinView};
    ghost use Rattle.ft_claims.specs.meaning.Forms.{Rises};

    ghost Value = { LinView };

    ghost view = { λ sum. record { factors = sum.factors; constant = sum.constant } };

    ghost invariant = { λ sum. Rises 0 sum.factors };
}

impl PartialEq for Sum {
    ghost eq = { same_form };

    ghost laws = { partial_equiv_from_equiv form_equiv };

    fn eq(&self, other: &Sum) -> bool {
        self.constant == other.constant && self.factors.as_slice() == other.factors.as_slice()
    }
}

impl Eq for Sum {
    ghost laws = { form_equiv };
}

impl Hash for Sum {
    ghost hash_input = { form_writes };

    ghost respects_eq = { form_alike.fed };

    fn hash<H: Hasher>(&self, state: &mut H) {
        state.write_i64(self.constant);
        self.factors.as_slice().hash(state);
    }
}

// The sum of two numbers. One that doesn't fit is refused as want of memory.
fn added(first: i64, second: i64) -> Result<i64, NoMemory>
    ensures { IfOk result (λ sum. sum ≡ first +ℤ second) }
{
    match first.checked_add(second) {
        Some(sum) => Ok(sum),
        None => Err(NoMemory),
    }
}

fn multiplied(first: i64, second: i64) -> Result<i64, NoMemory>
    ensures { IfOk result (λ product. product ≡ first *ℤ second) }
{
    match first.checked_mul(second) {
        Some(product) => Ok(product),
        None => Err(NoMemory),
    }
}

/// The form that is a number.
pub(crate) fn constant(alloc: Global, number: i64) -> Sum
    ensures { result ≡ constant_form number }
{
    Sum {
        factors: List::new(alloc),
        constant: number,
    }
}

// The list with one factor.
fn one_factor(alloc: Global, name: u32, factor: i64) -> Result<List<(u32, i64)>, NoMemory>
    ensures { IfOk result (λ list. list ≡ (name, factor) ∷ []) }
{
    let mut factors = List::new(alloc);
    factors.push((name, factor))?;
    Ok(factors)
}

/// The form of an unknown. A number past 2^32 is refused as want of memory.
pub(crate) fn unknown(alloc: Global, number: u64) -> Result<Sum, NoMemory>
    ensures { IfOk result (λ form. form ≡ unknown number) }
{
    match u32::try_from(number) {
        Ok(name) => Ok(Sum {
            factors: one_factor(alloc, name, 1)?,
            constant: 0,
        }),
        Err(_) => Err(NoMemory),
    }
}

// Adds the sum of two factors of one unknown at the end, unless it is 0.
fn push_sum(
    factors: &mut List<(u32, i64)>,
    here: (u32, i64),
    there: (u32, i64),
) -> Result<(), NoMemory>
    ensures { OnOk result (factors.new ≡ factors.old ++ with_front here.0 (here.1 +ℤ there.1) []) }
{
    let factor = added(here.1, there.1)?;
    if factor == 0 {
        return Ok(());
    }
    factors.push((here.0, factor))
}

// The sum of two lists of factors, merged by their unknowns.
fn merged(
    alloc: Global,
    first: &[(u32, i64)],
    second: &[(u32, i64)],
) -> Result<List<(u32, i64)>, NoMemory>
    requires first { Rises 0 first.now }
    requires second { Rises 0 second.now }
    ensures { IfOk result (λ list. list ≡ with_factors first.now second.now) }
{
    let mut factors = List::new(alloc);
    let mut left = 0;
    let mut right = 0;
    while left < first.len() && right < second.len() {
        let here = first[left];
        let there = second[right];
        if here.0 < there.0 {
            factors.push(here)?;
            left += 1;
        } else if there.0 < here.0 {
            factors.push(there)?;
            right += 1;
        } else {
            push_sum(&mut factors, here, there)?;
            left += 1;
            right += 1;
        }
    }
    factors.extend(&first[left..])?;
    factors.extend(&second[right..])?;
    Ok(factors)
}

/// The sum of two forms.
pub(crate) fn plus(alloc: Global, first: &Sum, second: &Sum) -> Result<Sum, NoMemory>
    ensures { IfOk result (λ form. form ≡ plus first.now second.now) }
{
    let constant = added(first.constant, second.constant)?;
    let factors = merged(alloc, first.factors.as_slice(), second.factors.as_slice())?;
    Ok(Sum { factors, constant })
}

fn scaled(alloc: Global, by: i64, factors: &[(u32, i64)]) -> Result<List<(u32, i64)>, NoMemory>
    ensures { IfOk result (λ list. list ≡ map (λ f. (f.0, by *ℤ f.1)) factors.now) }
{
    let mut list = List::new(alloc);
    for factor in factors {
        list.push((factor.0, multiplied(by, factor.1)?))?;
    }
    Ok(list)
}

fn times_factors(
    alloc: Global,
    by: i64,
    factors: &[(u32, i64)],
) -> Result<List<(u32, i64)>, NoMemory>
    ensures { IfOk result (λ list. list ≡ times_factors by factors.now) }
{
    if by == 0 {
        return Ok(List::new(alloc));
    }
    scaled(alloc, by, factors)
}

/// A form times a number.
pub(crate) fn times(alloc: Global, by: i64, form: &Sum) -> Result<Sum, NoMemory>
    ensures { IfOk result (λ product. product ≡ times by form.now) }
{
    let constant = multiplied(by, form.constant)?;
    let factors = times_factors(alloc, by, form.factors.as_slice())?;
    Ok(Sum { factors, constant })
}

/// The difference of two forms.
pub(crate) fn minus(alloc: Global, first: &Sum, second: &Sum) -> Result<Sum, NoMemory>
    ensures { IfOk result (λ form. form ≡ minus first.now second.now) }
{
    let turned = times(alloc, -1, second)?;
    plus(alloc, first, &turned)
}
