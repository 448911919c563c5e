//! The moves of memories from the numbers that they kept before to the ones that they keep now.
ghost use Rattle.std.specs.Prelude.{◌≡◌, [], ◌∷◌, pos, Some, slice_get, if◌then◌else◌, IfOk};
ghost use Rattle.ft_claims.specs.declared.claim.Claim.TheVariants as claim;
ghost use Rattle.ft_claims.specs.meaning.Names.{claim_of};
ghost use Rattle.ft_claims.specs.meaning.Parts.{move_of};
ghost use Rattle.ft_oblige.specs.building.Moving.{age_begins, age_ends, age_grows, age_is_full, age_restarts, had_age, has_grown};
ghost use Rattle.ft_oblige.specs.building.Moving.{band_falls, band_rises, band_stays, bit_before, is_below, is_low, is_short, keeps};
ghost use Rattle.ft_oblige.specs.building.Moving.{older, same_bit};

use crate::joining::{both, either};
use ft_base::{List, NoMemory};
use ft_claims::{Claim, Frame, Sym, claim_of, denied, equal, memory_name, pair, sum, sym_of};
use ft_core::{Cond, Memory, Tables, Term};
use std::alloc::Global;

// That each of three holds.
fn each_of_three(
    alloc: Global,
    first: Claim,
    second: Claim,
    third: Claim,
) -> Result<Claim, NoMemory>
    ensures { IfOk result (λ whole. whole ≡ claim.And (first ∷ second ∷ third ∷ [])) }
{
    let mut parts = pair(alloc, first, second)?;
    parts.push(third)?;
    Ok(Claim::And(parts))
}

// That a memory of the scan whose names begin at `base` keeps a number.
fn keeps(
    alloc: Global,
    tables: &Tables,
    base: u32,
    place: u32,
    number: i64,
) -> Result<Claim, NoMemory>
    ensures { IfOk result (λ whole. whole ≡ keeps tables.now base place number) }
{
    let name = memory_name(tables, base, place)?;
    equal(alloc, name, Sym::Num(number))
}

fn age_ends(
    alloc: Global,
    tables: &Tables,
    frame: &Frame,
    place: u32,
    cond: &Cond,
) -> Result<Claim, NoMemory>
    ensures { IfOk result (λ whole. whole ≡ age_ends tables.now frame.now place cond.now) }
{
    let condition = claim_of(alloc, tables, frame, cond)?;
    let not_condition = denied(alloc, condition)?;
    let no_age = keeps(alloc, tables, frame.this, place, -1)?;
    both(alloc, not_condition, no_age)
}

fn age_begins(
    alloc: Global,
    tables: &Tables,
    frame: &Frame,
    place: u32,
    cond: &Cond,
) -> Result<Claim, NoMemory>
    ensures { IfOk result (λ whole. whole ≡ age_begins tables.now frame.now place cond.now) }
{
    let condition = claim_of(alloc, tables, frame, cond)?;
    let zero = keeps(alloc, tables, frame.this, place, 0)?;
    both(alloc, condition, zero)
}

// The move of a timer at a scan that begins.
fn age_at_first(
    alloc: Global,
    tables: &Tables,
    frame: &Frame,
    place: u32,
    cond: &Cond,
) -> Result<Claim, NoMemory>
    ensures { IfOk result (λ whole. whole ≡ claim.Or (age_ends tables.now frame.now place cond.now
        ∷ age_begins tables.now frame.now place cond.now ∷ [])) }
{
    let ends = age_ends(alloc, tables, frame, place, cond)?;
    let begins = age_begins(alloc, tables, frame, place, cond)?;
    either(alloc, ends, begins)
}

fn age_restarts(
    alloc: Global,
    tables: &Tables,
    frame: &Frame,
    place: u32,
    cond: &Cond,
) -> Result<Claim, NoMemory>
    ensures { IfOk result (λ whole. whole ≡ age_restarts tables.now frame.now place cond.now) }
{
    let condition = claim_of(alloc, tables, frame, cond)?;
    let none_before = keeps(alloc, tables, frame.prior, place, -1)?;
    let zero = keeps(alloc, tables, frame.this, place, 0)?;
    each_of_three(alloc, condition, none_before, zero)
}

// That the condition of a timer was true one scan before.
fn had_age(alloc: Global, tables: &Tables, frame: &Frame, place: u32) -> Result<Claim, NoMemory>
    ensures { IfOk result (λ whole. whole ≡ had_age tables.now frame.now place) }
{
    let before = memory_name(tables, frame.prior, place)?;
    denied(alloc, Claim::Lt(before, Sym::Num(0)))
}

// The age of a timer before, with the milliseconds since then.
fn older(alloc: Global, tables: &Tables, frame: &Frame, place: u32) -> Result<Sym, NoMemory>
    ensures { IfOk result (λ term. term ≡ older tables.now frame.now place) }
{
    let before = memory_name(tables, frame.prior, place)?;
    sum(alloc, before, Sym::Num(tables.period))
}

// That this age is at most the hold.
fn is_short(
    alloc: Global,
    tables: &Tables,
    frame: &Frame,
    place: u32,
    hold: i64,
) -> Result<Claim, NoMemory>
    ensures { IfOk result (λ whole. whole ≡ is_short tables.now frame.now place hold) }
{
    let age = older(alloc, tables, frame, place)?;
    Ok(Claim::Le(age, Sym::Num(hold)))
}

// That the age of a timer is the one before with the milliseconds since then.
fn has_grown(alloc: Global, tables: &Tables, frame: &Frame, place: u32) -> Result<Claim, NoMemory>
    ensures { IfOk result (λ whole. whole ≡ has_grown tables.now frame.now place) }
{
    let age = older(alloc, tables, frame, place)?;
    let name = memory_name(tables, frame.this, place)?;
    equal(alloc, name, age)
}

// That the condition of a timer is true, and was true one scan before.
fn goes_on(
    alloc: Global,
    tables: &Tables,
    frame: &Frame,
    place: u32,
    cond: &Cond,
) -> Result<List<Claim>, NoMemory>
    ensures { IfOk result (λ parts. parts ≡ claim_of tables.now frame.now cond.now ∷ had_age tables.now frame.now place ∷ []) }
{
    let condition = claim_of(alloc, tables, frame, cond)?;
    let had = had_age(alloc, tables, frame, place)?;
    pair(alloc, condition, had)
}

fn age_grows(
    alloc: Global,
    tables: &Tables,
    frame: &Frame,
    place: u32,
    cond: &Cond,
    hold: i64,
) -> Result<Claim, NoMemory>
    ensures { IfOk result (λ whole. whole ≡ age_grows tables.now frame.now place cond.now hold) }
{
    let mut parts = goes_on(alloc, tables, frame, place, cond)?;
    let short = is_short(alloc, tables, frame, place, hold)?;
    parts.push(short)?;
    let grown = has_grown(alloc, tables, frame, place)?;
    parts.push(grown)?;
    Ok(Claim::And(parts))
}

// That this age is past the hold.
fn is_long(
    alloc: Global,
    tables: &Tables,
    frame: &Frame,
    place: u32,
    hold: i64,
) -> Result<Claim, NoMemory>
    ensures { IfOk result (λ whole. whole ≡ claim.Not (is_short tables.now frame.now place hold)) }
{
    let short = is_short(alloc, tables, frame, place, hold)?;
    denied(alloc, short)
}

fn age_is_full(
    alloc: Global,
    tables: &Tables,
    frame: &Frame,
    place: u32,
    cond: &Cond,
    hold: i64,
) -> Result<Claim, NoMemory>
    ensures { IfOk result (λ whole. whole ≡ age_is_full tables.now frame.now place cond.now hold) }
{
    let mut parts = goes_on(alloc, tables, frame, place, cond)?;
    let long = is_long(alloc, tables, frame, place, hold)?;
    parts.push(long)?;
    let full = keeps(alloc, tables, frame.this, place, hold)?;
    parts.push(full)?;
    Ok(Claim::And(parts))
}

// The two ways in which a timer forgets the age before.
fn age_anew(
    alloc: Global,
    tables: &Tables,
    frame: &Frame,
    place: u32,
    cond: &Cond,
) -> Result<List<Claim>, NoMemory>
    ensures { IfOk result (λ parts. parts ≡ age_ends tables.now frame.now place cond.now
        ∷ age_restarts tables.now frame.now place cond.now ∷ []) }
{
    let ends = age_ends(alloc, tables, frame, place, cond)?;
    let restarts = age_restarts(alloc, tables, frame, place, cond)?;
    pair(alloc, ends, restarts)
}

// The move of a timer at any other scan.
fn age_later(
    alloc: Global,
    tables: &Tables,
    frame: &Frame,
    place: u32,
    cond: &Cond,
    hold: i64,
) -> Result<Claim, NoMemory>
    ensures { IfOk result (λ whole. whole ≡ claim.Or (age_ends tables.now frame.now place cond.now
        ∷ age_restarts tables.now frame.now place cond.now ∷ age_grows tables.now frame.now place cond.now hold
        ∷ age_is_full tables.now frame.now place cond.now hold ∷ [])) }
{
    let mut ways = age_anew(alloc, tables, frame, place, cond)?;
    let grows = age_grows(alloc, tables, frame, place, cond, hold)?;
    ways.push(grows)?;
    let full = age_is_full(alloc, tables, frame, place, cond, hold)?;
    ways.push(full)?;
    Ok(Claim::Or(ways))
}

// That a term is below the upper bound of a band.
fn is_below(
    alloc: Global,
    tables: &Tables,
    frame: &Frame,
    term: &Term,
    hi: i64,
) -> Result<Claim, NoMemory>
    ensures { IfOk result (λ whole. whole ≡ is_below tables.now frame.now term.now hi) }
{
    let value = sym_of(alloc, tables, frame, term)?;
    Ok(Claim::Lt(value, Sym::Num(hi)))
}

// That a term is at most the lower bound of a band.
fn is_low(
    alloc: Global,
    tables: &Tables,
    frame: &Frame,
    term: &Term,
    lo: i64,
) -> Result<Claim, NoMemory>
    ensures { IfOk result (λ whole. whole ≡ is_low tables.now frame.now term.now lo) }
{
    let value = sym_of(alloc, tables, frame, term)?;
    Ok(Claim::Le(value, Sym::Num(lo)))
}

fn band_rises(
    alloc: Global,
    tables: &Tables,
    frame: &Frame,
    place: u32,
    term: &Term,
    hi: i64,
) -> Result<Claim, NoMemory>
    ensures { IfOk result (λ whole. whole ≡ band_rises tables.now frame.now place term.now hi) }
{
    let below = is_below(alloc, tables, frame, term, hi)?;
    let high = denied(alloc, below)?;
    let one = keeps(alloc, tables, frame.this, place, 1)?;
    both(alloc, high, one)
}

fn band_falls(
    alloc: Global,
    tables: &Tables,
    frame: &Frame,
    place: u32,
    term: &Term,
    lo: i64,
    hi: i64,
) -> Result<Claim, NoMemory>
    ensures { IfOk result (λ whole. whole ≡ band_falls tables.now frame.now place term.now lo hi) }
{
    let below = is_below(alloc, tables, frame, term, hi)?;
    let low = is_low(alloc, tables, frame, term, lo)?;
    let one = keeps(alloc, tables, frame.this, place, 1)?;
    let not_one = denied(alloc, one)?;
    each_of_three(alloc, below, low, not_one)
}

// A truth as a bit.
fn bit_of(start: bool) -> i64
    ensures { result ≡ if start then pos 1 else pos 0 }
{
    if start { 1 } else { 0 }
}

// What a band was before, or its start where the scan begins.
fn bit_before(tables: &Tables, frame: &Frame, place: u32, start: bool) -> Result<Sym, NoMemory>
    ensures { IfOk result (λ term. term ≡ bit_before tables.now frame.now place start) }
{
    if frame.anew {
        Ok(Sym::Num(bit_of(start)))
    } else {
        memory_name(tables, frame.prior, place)
    }
}

// That the bit of a band is what it was before.
fn same_bit(
    alloc: Global,
    tables: &Tables,
    frame: &Frame,
    place: u32,
    start: bool,
) -> Result<Claim, NoMemory>
    ensures { IfOk result (λ whole. whole ≡ same_bit tables.now frame.now place start) }
{
    let before = bit_before(tables, frame, place, start)?;
    let name = memory_name(tables, frame.this, place)?;
    equal(alloc, name, before)
}

fn band_stays(
    alloc: Global,
    tables: &Tables,
    frame: &Frame,
    place: u32,
    term: &Term,
    lo: i64,
    hi: i64,
    start: bool,
) -> Result<Claim, NoMemory>
    ensures { IfOk result (λ whole. whole ≡ band_stays tables.now frame.now place term.now lo hi start) }
{
    let below = is_below(alloc, tables, frame, term, hi)?;
    let low = is_low(alloc, tables, frame, term, lo)?;
    let not_low = denied(alloc, low)?;
    let same = same_bit(alloc, tables, frame, place, start)?;
    each_of_three(alloc, below, not_low, same)
}

// The move of a band.
fn band_move(
    alloc: Global,
    tables: &Tables,
    frame: &Frame,
    place: u32,
    term: &Term,
    lo: i64,
    hi: i64,
    start: bool,
) -> Result<Claim, NoMemory>
    ensures { IfOk result (λ whole. whole ≡ claim.Or (band_rises tables.now frame.now place term.now hi
        ∷ band_falls tables.now frame.now place term.now lo hi ∷ band_stays tables.now frame.now place term.now lo hi start ∷ [])) }
{
    let mut ways = List::new(alloc);
    let rises = band_rises(alloc, tables, frame, place, term, hi)?;
    ways.push(rises)?;
    let falls = band_falls(alloc, tables, frame, place, term, lo, hi)?;
    ways.push(falls)?;
    let stays = band_stays(alloc, tables, frame, place, term, lo, hi, start)?;
    ways.push(stays)?;
    Ok(Claim::Or(ways))
}

fn move_at(
    alloc: Global,
    tables: &Tables,
    frame: &Frame,
    place: u32,
    memory: &Memory,
) -> Result<Claim, NoMemory>
    ensures { IfOk result (λ whole. whole ≡ move_of tables.now frame.now place (Some memory.now)) }
{
    match memory {
        Memory::Held { cond, hold, .. } => {
            if frame.anew {
                age_at_first(alloc, tables, frame, place, cond)
            } else {
                age_later(alloc, tables, frame, place, cond, *hold)
            }
        }
        Memory::Hyst {
            term,
            lo,
            hi,
            start,
            ..
        } => band_move(alloc, tables, frame, place, term, *lo, *hi, *start),
    }
}

/// The move of a memory from the number that it kept before to the one that it keeps now, and a claim that is true where there
/// is no such memory.
pub fn move_of(alloc: Global, tables: &Tables, frame: &Frame, place: u32) -> Result<Claim, NoMemory>
    ensures { IfOk result (λ whole. whole ≡ move_of tables.now frame.now place (slice_get tables.now.memories place)) }
{
    match tables.memories.as_slice().get(place as usize) {
        Some(memory) => move_at(alloc, tables, frame, place, memory),
        None => Ok(Claim::And(List::new(alloc))),
    }
}
