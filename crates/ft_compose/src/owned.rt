//! The own parts of a fact: it is false, and what its block takes and uses is true.
ghost use Rattle.std.specs.Prelude.{◌≡◌, ◌++◌, map, slice_get, Some, IfOk, OnOk};
ghost use Rattle.ft_oblige.specs.meaning.Blocks.{fact_claim, fact_of, found_claim, own, own_section, take_claim, use_claim};
ghost use Rattle.ft_compose.specs.meaning.Shared.{AreDefinitions};

use crate::definitions::{Definitions, definition};
use crate::frames::now_frame;
use ft_base::{List, NoMemory};
use ft_claims::{Claim, Frame, claim_of, denied};
use ft_core::{Block, Fact, Section, Tables, Take};
use ft_oblige::move_of;
use std::alloc::Global;

fn fact_claim(
    alloc: Global,
    tables: &Tables,
    all: &Definitions,
    frame: &Frame,
    fact: &Fact,
) -> Result<Claim, NoMemory>
    requires { AreDefinitions tables.now all.now }
    ensures { IfOk result (λ whole. whole ≡ fact_claim tables.now frame.now fact.now) }
{
    match fact {
        Fact::Invariant { cond, .. } => claim_of(alloc, tables, frame, cond),
        Fact::Goal { con } => definition(alloc, tables, all, Section::Out, frame, *con),
    }
}

// The section of the side whose table defines a variable.
fn own_section(tables: &Tables, variable: u32) -> Section
    ensures { result ≡ own_section tables.now variable }
{
    let Some(var) = tables.vars.as_slice().get(variable as usize) else {
        return Section::Sof;
    };
    if Section::Req.defines(variable as usize, var) {
        Section::Req
    } else {
        Section::Sof
    }
}

fn take_claim(
    alloc: Global,
    tables: &Tables,
    all: &Definitions,
    frame: &Frame,
    taken: Take,
) -> Result<Claim, NoMemory>
    requires { AreDefinitions tables.now all.now }
    ensures { IfOk result (λ whole. whole ≡ take_claim tables.now frame.now taken) }
{
    match taken {
        Take::Variable(variable) => {
            let section = own_section(tables, variable);
            definition(alloc, tables, all, section, frame, variable)
        }
        Take::Memory(memory) => move_of(alloc, tables, frame, memory),
    }
}

fn add_takes(
    alloc: Global,
    tables: &Tables,
    all: &Definitions,
    frame: &Frame,
    takes: &[Take],
    claims: &mut List<Claim>,
) -> Result<(), NoMemory>
    requires { AreDefinitions tables.now all.now }
    ensures { OnOk result (claims.new ≡ claims.old ++ map (take_claim tables.now frame.now) takes.now) }
{
    for taken in takes {
        claims.push(take_claim(alloc, tables, all, frame, *taken)?)?;
    }
    Ok(())
}

// The claim of a fact that is used, and one that is true where there is none at this place of the block.
fn claim_in(
    alloc: Global,
    tables: &Tables,
    all: &Definitions,
    frame: &Frame,
    block: &Block,
    fact: u32,
) -> Result<Claim, NoMemory>
    requires { AreDefinitions tables.now all.now }
    ensures { IfOk result (λ whole. whole ≡ found_claim tables.now frame.now (slice_get block.now.facts fact)) }
{
    match block.facts.as_slice().get(fact as usize) {
        Some(found) => fact_claim(alloc, tables, all, frame, found),
        None => Ok(Claim::And(List::new(alloc))),
    }
}

fn use_claim(
    alloc: Global,
    tables: &Tables,
    all: &Definitions,
    frame: &Frame,
    used: (u32, u32),
) -> Result<Claim, NoMemory>
    requires { AreDefinitions tables.now all.now }
    ensures { IfOk result (λ whole. whole ≡ use_claim tables.now frame.now used) }
{
    match tables.blocks.as_slice().get(used.0 as usize) {
        Some(block) => claim_in(alloc, tables, all, frame, block, used.1),
        None => Ok(Claim::And(List::new(alloc))),
    }
}

fn add_uses(
    alloc: Global,
    tables: &Tables,
    all: &Definitions,
    frame: &Frame,
    uses: &[(u32, u32)],
    claims: &mut List<Claim>,
) -> Result<(), NoMemory>
    requires { AreDefinitions tables.now all.now }
    ensures { OnOk result (claims.new ≡ claims.old ++ map (use_claim tables.now frame.now) uses.now) }
{
    for used in uses {
        claims.push(use_claim(alloc, tables, all, frame, *used)?)?;
    }
    Ok(())
}

/// The own parts of a fact of a block.
pub(crate) fn own(
    alloc: Global,
    tables: &Tables,
    all: &Definitions,
    anew: bool,
    block: &Block,
    fact: &Fact,
) -> Result<List<Claim>, NoMemory>
    requires { AreDefinitions tables.now all.now }
    ensures { IfOk result (λ claims. claims ≡ own tables.now anew block.now fact.now) }
{
    let frame = now_frame(tables, anew);
    let fact = fact_claim(alloc, tables, all, &frame, fact)?;
    let mut claims = List::new(alloc);
    claims.push(denied(alloc, fact)?)?;
    add_takes(
        alloc,
        tables,
        all,
        &frame,
        block.takes.as_slice(),
        &mut claims,
    )?;
    add_uses(
        alloc,
        tables,
        all,
        &frame,
        block.uses.as_slice(),
        &mut claims,
    )?;
    Ok(claims)
}
