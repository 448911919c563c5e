//! Formulas with other numbers for their unknowns.
ghost use Rattle.std.specs.Prelude.{◌≡◌, map, IfOk};
ghost use Rattle.ft_settle.specs.declared.raw.Raw.TheVariants as raw;
ghost use Rattle.ft_claims.specs.meaning.Areas.{number_by, renumber, renumbered};

use crate::formulating::denied;
use ft_base::{List, NoMemory};
use ft_linear::Lin;
use ft_settle::Raw;
use std::alloc::Global;

// The number that stands for a name, and 0 past the end.
fn number_of(numbers: &[u32], name: u32) -> u32
    ensures { result ≡ number_by numbers.now name }
{
    match numbers.get(name as usize) {
        Some(number) => *number,
        None => 0,
    }
}

fn factors_by(
    alloc: Global,
    numbers: &[u32],
    factors: &[(u32, i64)],
) -> Result<List<(u32, i64)>, NoMemory>
    ensures { IfOk result (λ list. list ≡ map (λ f. (number_by numbers.now f.0, f.1)) factors.now) }
{
    let mut list = List::new(alloc);
    for factor in factors {
        list.push((number_of(numbers, factor.0), factor.1))?;
    }
    Ok(list)
}

// The form with other numbers. Where they don't rise it is refused as want of memory.
fn form_by(alloc: Global, numbers: &[u32], form: &Lin) -> Result<Lin, NoMemory>
    ensures { IfOk result (λ whole. whole ≡ renumbered (number_by numbers.now) form.now) }
{
    let factors = factors_by(alloc, numbers, form.factors())?;
    match Lin::new(factors, form.constant()) {
        Some(whole) => Ok(whole),
        None => Err(NoMemory),
    }
}

#[cycle(renumber)]
fn all_by(alloc: Global, numbers: &[u32], parts: &[Raw]) -> Result<List<Raw>, NoMemory>
    ensures { IfOk result (λ list. list ≡ map (renumber (number_by numbers.now)) parts.now) }
{
    let mut list = List::new(alloc);
    for part in parts {
        list.push(renumber(alloc, numbers, part)?)?;
    }
    Ok(list)
}

/// The formula with other numbers for its unknowns.
#[cycle(renumber)]
pub fn renumber(alloc: Global, numbers: &[u32], formula: &Raw) -> Result<Raw, NoMemory>
    ensures { IfOk result (λ whole. whole ≡ renumber (number_by numbers.now) formula.now) }
{
    match formula {
        Raw::Le(form) => {
            let whole = form_by(alloc, numbers, form)?;
            Ok(Raw::Le(whole))
        }
        Raw::Not(inner) => {
            let whole = renumber(alloc, numbers, inner.get())?;
            let denial = denied(alloc, whole)?;
            Ok(denial)
        }
        Raw::And(parts) => {
            let list = all_by(alloc, numbers, parts.as_slice())?;
            Ok(Raw::And(list))
        }
        Raw::Or(parts) => {
            let list = all_by(alloc, numbers, parts.as_slice())?;
            Ok(Raw::Or(list))
        }
    }
}
