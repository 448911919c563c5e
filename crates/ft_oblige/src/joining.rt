//! Two claims as one.
ghost use Rattle.std.specs.Prelude.{◌≡◌, [], ◌∷◌, IfOk};
ghost use Rattle.ft_claims.specs.declared.claim.Claim.TheVariants as claim;

use ft_base::NoMemory;
use ft_claims::{Claim, pair};
use std::alloc::Global;

/// That both hold.
pub(crate) fn both(alloc: Global, first: Claim, second: Claim) -> Result<Claim, NoMemory>
    ensures { IfOk result (λ whole. whole ≡ claim.And (first ∷ second ∷ [])) }
{
    Ok(Claim::And(pair(alloc, first, second)?))
}

/// That one of them holds.
pub(crate) fn either(alloc: Global, first: Claim, second: Claim) -> Result<Claim, NoMemory>
    ensures { IfOk result (λ whole. whole ≡ claim.Or (first ∷ second ∷ [])) }
{
    Ok(Claim::Or(pair(alloc, first, second)?))
}
