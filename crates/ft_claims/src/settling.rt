//! Formulas with canonical atoms and their new numbers.
ghost use Rattle.std.specs.Prelude.{◌≡◌, IfOk, ℕ, ℤ};
ghost use Rattle.ft_settle.specs.meaning.Raw.{raw_truth};
ghost use Rattle.ft_settle.specs.meaning.Settled.{settled};
ghost use Rattle.ft_linear.specs.meaning.Formula.{truth_at};
ghost use Rattle.ft_claims.specs.meaning.Areas.{number_by, renumber};

use crate::numbering::renumber;
use ft_base::NoMemory;
use ft_linear::Formula;
use ft_settle::{Raw, is_moderate, settle};
use std::alloc::Global;

/// The settled formula with these numbers for its unknowns. Constants past what can be settled are refused as want of memory.
pub fn settled_by(alloc: Global, numbers: &[u32], formula: &Raw) -> Result<Formula, NoMemory>
    ensures value { IfOk result (λ whole. whole ≡ settled (renumber (number_by numbers.now) formula.now)) }
    ensures same { IfOk result (λ whole. (x : ℕ → ℤ) → truth_at whole x ≡ raw_truth x (renumber (number_by numbers.now) formula.now)) }
{
    let raw = renumber(alloc, numbers, formula)?;
    if !is_moderate(&raw) {
        return Err(NoMemory);
    }
    let whole = settle(alloc, &raw)?;
    Ok(whole)
}
