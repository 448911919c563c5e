//! The names that claims have.
ghost use Rattle.std.specs.Prelude.{◌≡◌, [], ◌∷◌, length, IfOk};
ghost use Rattle.ft_claims.specs.laws.FormulaLaws.{AreGood};
ghost use Rattle.ft_oblige.specs.meaning.Linked.{names_in};

use ft_base::{List, NoMemory, Span};
use ft_claims::{Claim, copy_of_claim, oblige};
use std::alloc::Global;

// A claim as the only one of a list.
fn alone(alloc: Global, claim: &Claim) -> Result<List<Claim>, NoMemory>
    ensures { IfOk result (λ parts. parts ≡ claim.now ∷ []) }
{
    let mut parts = List::new(alloc);
    parts.push(copy_of_claim(alloc, claim)?)?;
    Ok(parts)
}

/// The names that a claim's own formula has, in rising order. The claim has only names that have a span, and its divisors are
/// positive.
///
/// It takes time about in proportion to the text of the claim, and to the number of names.
pub fn names_of(alloc: Global, spans: &[Span], claim: &Claim) -> Result<List<u32>, NoMemory>
    requires good { AreGood spans.now (claim.now ∷ []) }
    ensures { IfOk result (λ names. names ≡ names_in (length spans.now) claim.now) }
{
    let parts = alone(alloc, claim)?;
    let obliged = oblige(alloc, spans, parts.as_slice())?;
    Ok(obliged.names)
}
