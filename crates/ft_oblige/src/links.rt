//! The links of memories that are bits to what they remember.
ghost use Rattle.std.specs.Prelude.{◌≡◌, ◌++◌, map, Some, slice_get, IfOk, OnOk};
ghost use Rattle.ft_claims.specs.meaning.Coverage.{links};
ghost use Rattle.ft_claims.specs.meaning.Parts.{link_of};
ghost use Rattle.ft_oblige.specs.building.Linking.{held_link, hyst_link, is_bit, lower_link, upper_link};

use crate::joining::{both, either};
use ft_base::{List, NoMemory};
use ft_claims::{Claim, Frame, Sym, claim_of, denied, is_one, memory_name, sym_of};
use ft_core::{Cond, Memory, Tables, Term};
use std::alloc::Global;

// That the bit of a memory is 1.
fn bit(alloc: Global, tables: &Tables, frame: &Frame, memory: u32) -> Result<Claim, NoMemory>
    ensures { IfOk result (λ whole. whole ≡ is_bit tables.now frame.now memory) }
{
    let name = memory_name(tables, frame.this, memory)?;
    is_one(alloc, name)
}

// That a timer is false or its condition holds.
fn held_link(
    alloc: Global,
    tables: &Tables,
    frame: &Frame,
    memory: u32,
    cond: &Cond,
) -> Result<Claim, NoMemory>
    ensures { IfOk result (λ whole. whole ≡ held_link tables.now frame.now memory cond.now) }
{
    let mine = bit(alloc, tables, frame, memory)?;
    let not_mine = denied(alloc, mine)?;
    let condition = claim_of(alloc, tables, frame, cond)?;
    either(alloc, not_mine, condition)
}

// That a band is true or its term is below the upper bound.
fn upper_link(
    alloc: Global,
    tables: &Tables,
    frame: &Frame,
    memory: u32,
    term: &Term,
    hi: i64,
) -> Result<Claim, NoMemory>
    ensures { IfOk result (λ whole. whole ≡ upper_link tables.now frame.now memory term.now hi) }
{
    let below = Claim::Lt(sym_of(alloc, tables, frame, term)?, Sym::Num(hi));
    let mine = bit(alloc, tables, frame, memory)?;
    either(alloc, below, mine)
}

// That a band is false or its term is above the lower bound.
fn lower_link(
    alloc: Global,
    tables: &Tables,
    frame: &Frame,
    memory: u32,
    term: &Term,
    lo: i64,
) -> Result<Claim, NoMemory>
    ensures { IfOk result (λ whole. whole ≡ lower_link tables.now frame.now memory term.now lo) }
{
    let value = sym_of(alloc, tables, frame, term)?;
    let above = denied(alloc, Claim::Le(value, Sym::Num(lo)))?;
    let mine = bit(alloc, tables, frame, memory)?;
    let not_mine = denied(alloc, mine)?;
    either(alloc, above, not_mine)
}

fn hyst_link(
    alloc: Global,
    tables: &Tables,
    frame: &Frame,
    memory: u32,
    term: &Term,
    lo: i64,
    hi: i64,
) -> Result<Claim, NoMemory>
    ensures { IfOk result (λ whole. whole ≡ hyst_link tables.now frame.now memory term.now lo hi) }
{
    let upper = upper_link(alloc, tables, frame, memory, term, hi)?;
    let lower = lower_link(alloc, tables, frame, memory, term, lo)?;
    both(alloc, upper, lower)
}

fn link_of(
    alloc: Global,
    tables: &Tables,
    frame: &Frame,
    place: u32,
    memory: &Memory,
) -> Result<Claim, NoMemory>
    ensures { IfOk result (λ whole. whole ≡ link_of tables.now frame.now place (Some memory.now)) }
{
    match memory {
        Memory::Held { cond, .. } => held_link(alloc, tables, frame, place, cond),
        Memory::Hyst { term, lo, hi, .. } => {
            hyst_link(alloc, tables, frame, place, term, *lo, *hi)
        }
    }
}

// The link of the memory at this place, and a claim that is true where there is none.
fn link_at(alloc: Global, tables: &Tables, frame: &Frame, place: u32) -> Result<Claim, NoMemory>
    ensures { IfOk result (λ whole. whole ≡ link_of tables.now frame.now place (slice_get tables.now.memories place)) }
{
    match tables.memories.as_slice().get(place as usize) {
        Some(memory) => link_of(alloc, tables, frame, place, memory),
        None => Ok(Claim::And(List::new(alloc))),
    }
}

/// Adds the links of these memories.
pub(crate) fn add_links(
    alloc: Global,
    tables: &Tables,
    frame: &Frame,
    places: &[u32],
    parts: &mut List<Claim>,
) -> Result<(), NoMemory>
    ensures { OnOk result (parts.new ≡ parts.old ++ links tables.now frame.now places.now) }
{
    for place in places {
        parts.push(link_at(alloc, tables, frame, *place)?)?;
    }
    Ok(())
}
