//! The obligations of facts.
ghost use Rattle.std.specs.Prelude.{◌≡◌, ◌≤◌, ◌<◌, ◌*◌, ◌++◌, [], ◌∷◌, ℕ, length, IfOk, OnOk, if◌then◌else◌};
ghost use Rattle.ft_oblige.specs.meaning.Blocks.{IsFactAt};
ghost use Rattle.ft_oblige.specs.meaning.Facts.{HasFact};
ghost use Rattle.ft_oblige.specs.meaning.Linked.{marked};
ghost use Rattle.ft_oblige.specs.meaning.Made.{IsNumbered};
ghost use Rattle.ft_oblige.specs.meaning.Obligations.{obligation_count};
ghost use Rattle.ft_compose.specs.building.Deciding.{IsFormed};
ghost use Rattle.ft_compose.specs.building.Forming.{AreFactParts};
ghost use Rattle.ft_compose.specs.building.Rounds.{claims_in};
ghost use Rattle.ft_compose.specs.meaning.FactForms.{IsFactForm};
ghost use Rattle.ft_compose.specs.meaning.Shared.{IsShared};

use crate::linking::linked;
use crate::owned::own;
use crate::part::Part;
use crate::sharing::Shared;
use ft_base::{List, NoMemory};
use ft_claims::{Claim, copy_of_claim, oblige};
use ft_core::{Block, Fact, Tables};
use ft_oblige::{Obligation, fact_at, labelled, part_laws};
use std::alloc::Global;

// Adds a copy of a claim, where it is marked.
fn add_if(
    alloc: Global,
    mark: bool,
    claim: &Claim,
    claims: &mut List<Claim>,
) -> Result<(), NoMemory>
    ensures { OnOk result (claims.new ≡ claims.old ++ (if mark then claim.now ∷ [] else [])) }
{
    if mark {
        claims.push(copy_of_claim(alloc, claim)?)
    } else {
        Ok(())
    }
}

// Adds copies of the claims that are marked.
fn add_marked(
    alloc: Global,
    marks: &[bool],
    others: &[Part],
    claims: &mut List<Claim>,
) -> Result<(), NoMemory>
    requires { length marks.now ≡ length others.now }
    ensures { OnOk result (claims.new ≡ claims.old ++ marked marks.now (claims_in others.now)) }
{
    for (at, part) in others.iter().enumerate() {
        add_if(alloc, marks[at], &part.claim, claims)?;
    }
    Ok(())
}

// The parts of the formula of a fact.
fn fact_parts(
    alloc: Global,
    tables: &Tables,
    shared: &Shared,
    anew: bool,
    block: &Block,
    fact: &Fact,
) -> Result<List<Claim>, NoMemory>
    requires shared { IsShared tables.now shared.now }
    requires there { (b : ℕ) × (f : ℕ) × IsFactAt tables.now b f block.now fact.now }
    ensures { IfOk result (AreFactParts tables.now anew block.now fact.now) }
{
    part_laws();
    let others = shared.others(anew);
    let mut parts = own(alloc, tables, &shared.definitions, anew, block, fact)?;
    let marks = linked(alloc, shared.spans.as_slice(), parts.as_slice(), others)?;
    add_marked(alloc, marks.as_slice(), others, &mut parts)?;
    Ok(parts)
}

/// The obligation of a fact with the names that its slots stand for.
#[derive(Drop)]
pub(crate) struct Formed {
    pub obligation: Obligation,
    pub names: List<u32>,
}

/// The obligation of a fact of a block with its names.
pub(crate) fn named_fact(
    alloc: Global,
    tables: &Tables,
    shared: &Shared,
    block: u32,
    fact: u32,
    anew: bool,
) -> Result<Formed, NoMemory>
    requires shared { IsShared tables.now shared.now }
    requires there { HasFact tables.now block fact }
    ensures { IfOk result (λ made. IsFormed tables.now block fact anew made.obligation made.names) }
{
    part_laws();
    let owner = tables.blocks.get(block as usize);
    let shown = owner.facts.get(fact as usize);
    let parts = fact_parts(alloc, tables, shared, anew, owner, shown)?;
    let obliged = oblige(alloc, shared.spans.as_slice(), parts.as_slice())?;
    let names = List::copy_of(alloc, obliged.names.as_slice())?;
    let obligation = labelled(alloc, tables, false, obliged)?;
    Ok(Formed { obligation, names })
}

/// The obligation of a fact of a block, by their places, at a scan that begins or follows another. It takes time about in
/// proportion to the text of its own parts, to the names of the other parts times the rounds until no more of them belong,
/// and to the number of names.
pub fn fact_obligation(
    alloc: Global,
    tables: &Tables,
    shared: &Shared,
    block: u32,
    fact: u32,
    anew: bool,
) -> Result<Obligation, NoMemory>
    requires shared { IsShared tables.now shared.now }
    requires there { HasFact tables.now block fact }
    ensures { IfOk result (IsFactForm tables.now block fact anew) }
{
    let made = named_fact(alloc, tables, shared, block, fact, anew)?;
    Ok(made.obligation)
}

/// The obligation with this number, which is above those of tables.
pub fn numbered_fact(
    alloc: Global,
    tables: &Tables,
    shared: &Shared,
    number: u32,
) -> Result<Obligation, NoMemory>
    requires shared { IsShared tables.now shared.now }
    requires above { 3 * length tables.now.tables < number }
    requires below { number ≤ obligation_count tables.now }
    ensures { IfOk result (IsNumbered tables.now number) }
{
    let at = fact_at(tables, number);
    let made = fact_obligation(alloc, tables, shared, at.block, at.fact, at.anew)?;
    Ok(made)
}
