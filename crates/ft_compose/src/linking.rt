//! Which of the other parts belong to the formula of a fact, by rounds over the names that are reached.
ghost use Rattle.std.specs.Prelude.{◌≡◌, ◌<◌, false, length, replicate, IfOk};
ghost use Rattle.std.specs.List.{flat_map, list_any};
ghost use Rattle.ft_claims.specs.laws.FormulaLaws.{AreGood};
ghost use Rattle.ft_claims.specs.meaning.Areas.{marked_at, with_marks};
ghost use Rattle.ft_oblige.specs.meaning.Linked.{AreSettled, names_in};
ghost use Rattle.ft_compose.specs.building.Rounds.{AreNamed, IsFirst, IsRound, IsStep, IsStill, Keeps, belongs, claims_in, is_reached};

use crate::part::Part;
use ft_base::{List, NoMemory, Span};
use ft_claims::Claim;
use ft_oblige::names_of;
use std::alloc::Global;

/// The names that are reached, by a mark at the place of each, and the other parts that belong.
#[derive(Drop)]
pub struct Links {
    pub reached: List<bool>,
    pub marks: List<bool>,
}

// Reaches a name, where there is a place for it.
fn reach(reached: &mut List<bool>, name: u32)
    ensures { reached.new ≡ marked_at reached.old name }
{
    if (name as usize) < reached.len() {
        reached.set(name as usize, true);
    }
}

fn reach_all(reached: &mut List<bool>, names: &[u32])
    ensures { reached.new ≡ with_marks reached.old names.now }
{
    for name in names {
        reach(reached, *name);
    }
}

fn is_reached(reached: &[bool], name: u32) -> bool
    ensures { result ≡ is_reached reached.now name }
{
    match reached.get(name as usize) {
        Some(mark) => *mark,
        None => false,
    }
}

// Whether one of these names is reached.
fn meets(reached: &[bool], names: &[u32]) -> bool
    ensures { result ≡ list_any (is_reached reached.now) names.now }
{
    let mut met = false;
    for name in names {
        met |= is_reached(reached, *name);
    }
    met
}

// Whether a part with these names belongs: it has none, or one that is reached.
fn belongs(reached: &[bool], names: &[u32]) -> bool
    ensures { result ≡ belongs reached.now names.now }
{
    names.is_empty() || meets(reached, names)
}

// Marks the part at this place and reaches its names, where it isn't marked and belongs, and says whether it did.
fn link(links: &mut Links, at: usize, names: &[u32]) -> bool
    requires { at < length links.old.marks }
    ensures { IsStep at names.now links.old links.new result }
{
    if *links.marks.get(at) || !belongs(links.reached.as_slice(), names) {
        return false;
    }
    links.marks.set(at, true);
    reach_all(&mut links.reached, names);
    true
}

// Marks the parts that belong, one after another, and says whether there was one.
fn round(links: &mut Links, others: &[Part]) -> bool
    requires { length links.old.marks ≡ length others.now }
    ensures { IsRound others.now links.old links.new result }
{
    let mut grew = false;
    for (at, part) in others.iter().enumerate() {
        grew |= link(links, at, part.names.as_slice());
    }
    grew
}

// Marks parts until no more belong. Each round but the last marks one.
fn settle(links: &mut Links, others: &[Part])
    requires { length links.old.marks ≡ length others.now }
    ensures keeps { Keeps others.now links.old links.new }
    ensures still { IsStill others.now links.new }
{
    for _ in 0..others.len() {
        if !round(links, others) {
            return;
        }
    }
}

// The names of these claims, reached.
fn reached_by(alloc: Global, spans: &[Span], own: &[Claim]) -> Result<List<bool>, NoMemory>
    requires good { AreGood spans.now own.now }
    ensures { IfOk result (λ reached. reached ≡ with_marks (replicate (length spans.now) false)
        (flat_map (names_in (length spans.now)) own.now)) }
{
    let mut reached = List::from_vec(Vec::from_elem(alloc, false, spans.len())?);
    for claim in own {
        let names = names_of(alloc, spans, claim)?;
        reach_all(&mut reached, names.as_slice());
    }
    Ok(reached)
}

// The names of the own parts are reached, and no other part is marked.
fn begun(alloc: Global, spans: &[Span], own: &[Claim], others: usize) -> Result<Links, NoMemory>
    requires good { AreGood spans.now own.now }
    ensures { IfOk result (IsFirst (length spans.now) own.now others) }
{
    let reached = reached_by(alloc, spans, own)?;
    let marks = List::from_vec(Vec::from_elem(alloc, false, others)?);
    Ok(Links { reached, marks })
}

/// Marks of the other parts that belong to the formula of a fact with these own parts, whose names have these spans. It takes
/// time about in proportion to the names of the parts, times the rounds that are needed.
pub(crate) fn linked(
    alloc: Global,
    spans: &[Span],
    own: &[Claim],
    others: &[Part],
) -> Result<List<bool>, NoMemory>
    requires good { AreGood spans.now own.now }
    requires named { AreNamed (length spans.now) others.now }
    ensures settled { IfOk result (AreSettled (length spans.now) own.now (claims_in others.now)) }
    ensures long { IfOk result (λ marks. length marks ≡ length others.now) }
{
    let mut links = begun(alloc, spans, own, others.len())?;
    settle(&mut links, others);
    Ok(links.marks)
}
