//! What is known of the two scans of a fact beside its own block.
ghost use Rattle.std.specs.Prelude.{◌≡◌, ◌<◌, ◌++◌, [], ◌∷◌, map, IfOk, OnOk, if◌then◌else◌};
ghost use Rattle.std.specs.List.{flat_map};
ghost use Rattle.ft_core.specs.declared.tables.Section.TheVariants as section;
ghost use Rattle.ft_core.specs.meaning.Kinds.{inputs};
ghost use Rattle.ft_claims.specs.meaning.Names.{claim_of};
ghost use Rattle.ft_claims.specs.meaning.Parts.{definition};
ghost use Rattle.ft_oblige.specs.meaning.Blocks.{first_others, input_places, invariant_of, invariants, later_others};
ghost use Rattle.ft_compose.specs.meaning.Shared.{AreDefinitions};

use crate::definitions::{Definitions, definition};
use crate::frames::{now_frame, past_frame};
use ft_base::{List, NoMemory};
use ft_claims::{Claim, Frame, claim_of};
use ft_core::{Block, Fact, Section, Tables, Var};
use ft_oblige::add_claims;
use std::alloc::Global;

// Adds the place of an input.
fn add_input(places: &mut List<u32>, place: usize, var: &Var) -> Result<(), NoMemory>
    requires { place < 4294967296 }
    ensures { OnOk result (places.new ≡ places.old ++ (if inputs place var.now then place ∷ [] else [])) }
{
    if Section::In.defines(place, var) {
        places.push(place as u32)
    } else {
        Ok(())
    }
}

// The places of the inputs.
fn input_places(alloc: Global, tables: &Tables) -> Result<List<u32>, NoMemory>
    ensures { IfOk result (λ places. places ≡ input_places tables.now) }
{
    let mut places = List::new(alloc);
    for (place, var) in tables.vars.as_slice().iter().enumerate() {
        add_input(&mut places, place, var)?;
    }
    Ok(places)
}

// Adds that these variables have the values of their IN tables.
fn add_inputs(
    alloc: Global,
    tables: &Tables,
    all: &Definitions,
    frame: &Frame,
    places: &[u32],
    claims: &mut List<Claim>,
) -> Result<(), NoMemory>
    requires { AreDefinitions tables.now all.now }
    ensures { OnOk result (claims.new ≡ claims.old ++ map (definition tables.now section.In frame.now) places.now) }
{
    for place in places {
        claims.push(definition(alloc, tables, all, Section::In, frame, *place)?)?;
    }
    Ok(())
}

// Adds the condition of an invariant.
fn add_invariant(
    alloc: Global,
    tables: &Tables,
    frame: &Frame,
    fact: &Fact,
    claims: &mut List<Claim>,
) -> Result<(), NoMemory>
    ensures { OnOk result (claims.new ≡ claims.old ++ map (claim_of tables.now frame.now) (invariant_of fact.now)) }
{
    match fact {
        Fact::Invariant { cond, .. } => claims.push(claim_of(alloc, tables, frame, cond)?),
        Fact::Goal { .. } => Ok(()),
    }
}

// Adds the invariants among some facts.
fn add_facts(
    alloc: Global,
    tables: &Tables,
    frame: &Frame,
    facts: &[Fact],
    claims: &mut List<Claim>,
) -> Result<(), NoMemory>
    ensures { OnOk result (claims.new ≡ claims.old ++ map (claim_of tables.now frame.now) (flat_map invariant_of facts.now)) }
{
    for fact in facts {
        add_invariant(alloc, tables, frame, fact, claims)?;
    }
    Ok(())
}

// Adds the invariants of blocks.
fn add_blocks(
    alloc: Global,
    tables: &Tables,
    frame: &Frame,
    blocks: &[Block],
    claims: &mut List<Claim>,
) -> Result<(), NoMemory>
    ensures { OnOk result (claims.new ≡ claims.old ++ map (claim_of tables.now frame.now)
        (flat_map (λ block. flat_map invariant_of block.facts) blocks.now)) }
{
    for block in blocks {
        add_facts(alloc, tables, frame, block.facts.as_slice(), claims)?;
    }
    Ok(())
}

/// What else is known of a scan that begins.
pub(crate) fn first_others(
    alloc: Global,
    tables: &Tables,
    all: &Definitions,
) -> Result<List<Claim>, NoMemory>
    requires { AreDefinitions tables.now all.now }
    ensures { IfOk result (λ claims. claims ≡ first_others tables.now) }
{
    let places = input_places(alloc, tables)?;
    let now = now_frame(tables, true);
    let mut claims = List::new(alloc);
    add_inputs(alloc, tables, all, &now, places.as_slice(), &mut claims)?;
    add_claims(alloc, tables, &now, tables.first.as_slice(), &mut claims)?;
    add_claims(alloc, tables, &now, tables.always.as_slice(), &mut claims)?;
    Ok(claims)
}

/// What else is known of any other scan and the scan before it.
pub(crate) fn later_others(
    alloc: Global,
    tables: &Tables,
    all: &Definitions,
) -> Result<List<Claim>, NoMemory>
    requires { AreDefinitions tables.now all.now }
    ensures { IfOk result (λ claims. claims ≡ later_others tables.now) }
{
    let places = input_places(alloc, tables)?;
    let now = now_frame(tables, false);
    let past = past_frame(tables);
    let mut claims = List::new(alloc);
    add_blocks(alloc, tables, &past, tables.blocks.as_slice(), &mut claims)?;
    add_inputs(alloc, tables, all, &now, places.as_slice(), &mut claims)?;
    add_inputs(alloc, tables, all, &past, places.as_slice(), &mut claims)?;
    add_claims(alloc, tables, &now, tables.always.as_slice(), &mut claims)?;
    add_claims(alloc, tables, &past, tables.always.as_slice(), &mut claims)?;
    add_claims(alloc, tables, &now, tables.step.as_slice(), &mut claims)?;
    Ok(claims)
}
