//! That two of some claims hold.
ghost use Rattle.std.specs.Prelude.{◌≡◌, ◌++◌, [], ◌∷◌, map, IfOk, OnOk};
ghost use Rattle.ft_claims.specs.declared.claim.Claim.TheVariants as claim;
ghost use Rattle.ft_claims.specs.meaning.Coverage.{claims_of, pairs, two};

use crate::joining::both;
use ft_base::{List, NoMemory};
use ft_claims::{Claim, Frame, claim_of, copy_of_claim};
use ft_core::{Cond, Tables};
use std::alloc::Global;

/// The claims of conditions.
pub(crate) fn claims_of(
    alloc: Global,
    tables: &Tables,
    frame: &Frame,
    conds: &[Cond],
) -> Result<List<Claim>, NoMemory>
    ensures { IfOk result (λ list. list ≡ claims_of tables.now frame.now conds.now) }
{
    let mut list = List::new(alloc);
    for cond in conds {
        list.push(claim_of(alloc, tables, frame, cond)?)?;
    }
    Ok(list)
}

// That two claims hold.
fn both_of(alloc: Global, first: &Claim, second: &Claim) -> Result<Claim, NoMemory>
    ensures { IfOk result (λ whole. whole ≡ claim.And (first.now ∷ second.now ∷ [])) }
{
    let first = copy_of_claim(alloc, first)?;
    let second = copy_of_claim(alloc, second)?;
    both(alloc, first, second)
}

// Adds that a claim holds with each of others.
fn add_pairs(
    alloc: Global,
    first: &Claim,
    others: &[Claim],
    list: &mut List<Claim>,
) -> Result<(), NoMemory>
    ensures { OnOk result (list.new ≡ list.old ++ map (λ other. claim.And (first.now ∷ other ∷ [])) others.now) }
{
    for other in others {
        list.push(both_of(alloc, first, other)?)?;
    }
    Ok(())
}

fn pairs(alloc: Global, claims: &[Claim]) -> Result<List<Claim>, NoMemory>
    ensures { IfOk result (λ list. list ≡ pairs claims.now) }
{
    let mut list = List::new(alloc);
    for at in 0..claims.len() {
        add_pairs(alloc, &claims[at], &claims[at + 1..], &mut list)?;
    }
    Ok(list)
}

/// That two of these claims hold.
pub(crate) fn two(alloc: Global, claims: &[Claim]) -> Result<Claim, NoMemory>
    ensures { IfOk result (λ whole. whole ≡ two claims.now) }
{
    Ok(Claim::Or(pairs(alloc, claims)?))
}
