//! Copies of claims.
ghost use Rattle.std.specs.Prelude.{◌≡◌, IfOk};

use crate::claim::Claim;
use crate::claims::denied;
use crate::terms::copy_of;
use ft_base::{List, NoMemory};
use std::alloc::Global;

/// Copies of claims, in order.
#[cycle(copy)]
pub fn copies_of_claims(alloc: Global, parts: &[Claim]) -> Result<List<Claim>, NoMemory>
    ensures { IfOk result (λ list. list ≡ parts.now) }
{
    let mut list = List::new(alloc);
    for part in parts {
        list.push(copy_of_claim(alloc, part)?)?;
    }
    Ok(list)
}

/// A copy of a claim.
#[cycle(copy)]
pub fn copy_of_claim(alloc: Global, claim: &Claim) -> Result<Claim, NoMemory>
    ensures { IfOk result (λ copy. copy ≡ claim.now) }
{
    match claim {
        Claim::Le(a, b) => {
            let first = copy_of(alloc, a)?;
            Ok(Claim::Le(first, copy_of(alloc, b)?))
        }
        Claim::Lt(a, b) => {
            let first = copy_of(alloc, a)?;
            Ok(Claim::Lt(first, copy_of(alloc, b)?))
        }
        Claim::Not(inner) => denied(alloc, copy_of_claim(alloc, inner.get())?),
        Claim::And(parts) => Ok(Claim::And(copies_of_claims(alloc, parts.as_slice())?)),
        Claim::Or(parts) => Ok(Claim::Or(copies_of_claims(alloc, parts.as_slice())?)),
    }
}
