//! Claims with the names of their own formulas.
ghost use Rattle.std.specs.Prelude.{◌≡◌, [], ◌∷◌, map, length, IfOk};
ghost use Rattle.ft_claims.specs.laws.FormulaLaws.{AreGood};
ghost use Rattle.ft_compose.specs.meaning.Shared.{part_of};

use ft_base::{List, NoMemory, Span};
use ft_claims::{Claim, copy_of_claim};
use ft_oblige::names_of;
use std::alloc::Global;

/// A claim with the names of its own formula.
#[derive(Drop)]
pub struct Part {
    pub claim: Claim,
    pub names: List<u32>,
}

fn part_of(alloc: Global, spans: &[Span], claim: &Claim) -> Result<Part, NoMemory>
    requires good { AreGood spans.now (claim.now ∷ []) }
    ensures { IfOk result (λ part. part ≡ part_of (length spans.now) claim.now) }
{
    let names = names_of(alloc, spans, claim)?;
    let claim = copy_of_claim(alloc, claim)?;
    Ok(Part { claim, names })
}

/// Claims whose names have these spans, with the names of each.
pub(crate) fn parts_of(
    alloc: Global,
    spans: &[Span],
    claims: &[Claim],
) -> Result<List<Part>, NoMemory>
    requires good { AreGood spans.now claims.now }
    ensures { IfOk result (λ parts. parts ≡ map (part_of (length spans.now)) claims.now) }
{
    let mut parts = List::new(alloc);
    for claim in claims {
        parts.push(part_of(alloc, spans, claim)?)?;
    }
    Ok(parts)
}
