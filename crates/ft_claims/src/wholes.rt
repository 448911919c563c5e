//! The formula of some conditions, with what makes the unknown of each quotient that quotient.
ghost use Rattle.std.specs.Prelude.{◌≡◌, ◌++◌, ◌+◌, [], ◌∷◌, pos, ◌-ℤ◌, IfOk, OnOk};
ghost use Rattle.ft_claims.specs.meaning.Formulas.{at_least, at_most, conjuncts, formula_of, entries_of};

use crate::claim::Claim;
use crate::formulating::{at_most, at_most_zero, formulas_of};
use crate::pairs::Pairs;
use crate::sums::{Sum, constant, minus, plus, times, unknown};
use ft_base::{List, NoMemory};
use ft_settle::Raw;
use std::alloc::Global;

/// A formula, and the pairs that have an unknown in it.
#[derive(Drop)]
pub struct Whole {
    pub(crate) formula: Raw,
    pub(crate) pairs: Pairs,
}

fn one_less(number: i64) -> Result<i64, NoMemory>
    ensures { IfOk result (λ rest. rest ≡ pos 1 -ℤ number) }
{
    match 1i64.checked_sub(number) {
        Some(rest) => Ok(rest),
        None => Err(NoMemory),
    }
}

// The number of the unknown at a place behind the names.
fn number_after(base: u32, place: usize) -> Result<u64, NoMemory>
    ensures { IfOk result (λ number. number ≡ base + place) }
{
    match u32::try_from(place) {
        Ok(place) => Ok(u64::from(base) + u64::from(place)),
        Err(_) => Err(NoMemory),
    }
}

fn add_conjuncts(
    alloc: Global,
    number: u64,
    pair: &(Sum, i64),
    list: &mut List<Raw>,
) -> Result<(), NoMemory>
    ensures { OnOk result (list.new ≡ list.old ++ at_most number pair.now ∷ at_least number pair.now ∷ []) }
{
    let whole = unknown(alloc, number)?;
    let multiple = times(alloc, pair.1, &whole)?;
    let first = at_most(alloc, &multiple, &pair.0)?;
    let rest = minus(alloc, &pair.0, &multiple)?;
    let number = constant(alloc, one_less(pair.1)?);
    let second = at_most_zero(plus(alloc, &rest, &number)?)?;
    list.push(first)?;
    list.push(second)?;
    Ok(())
}

fn conjuncts_of(
    alloc: Global,
    base: u32,
    pairs: &[(Sum, i64)],
    list: &mut List<Raw>,
) -> Result<(), NoMemory>
    ensures { OnOk result (list.new ≡ list.old ++ conjuncts base pairs.now) }
{
    for (at, pair) in pairs.iter().enumerate() {
        let number = number_after(base, at)?;
        add_conjuncts(alloc, number, pair, list)?;
    }
    Ok(())
}

/// The formula of some conditions over `base` names, and its pairs.
pub fn whole_of(alloc: Global, base: u32, parts: &[Claim]) -> Result<Whole, NoMemory>
    ensures formula { IfOk result (λ whole. whole.formula ≡ formula_of base parts.now) }
    ensures pairs { IfOk result (λ whole. whole.pairs ≡ entries_of base parts.now) }
{
    let mut pairs = Pairs::new(alloc);
    let mut list = formulas_of(alloc, base, parts, &mut pairs)?;
    conjuncts_of(alloc, base, pairs.as_slice(), &mut list)?;
    Ok(Whole {
        formula: Raw::And(list),
        pairs,
    })
}
