//! Whether the facts of a set's blocks are shown: each obligation of a fact is made, tried and dropped in order.
ghost use Rattle.std.specs.Prelude.{◌≡◌, ◌≤◌, ◌<◌, ◌+◌, ◌*◌, false, length, IfOk};
ghost use Rattle.ft_core.specs.declared.tables.Block.{Block};
ghost use Rattle.ft_core.specs.meaning.Order.{IsOrder};
ghost use Rattle.ft_blocks.specs.meaning.Cycles.{block_reads};
ghost use Rattle.ft_blocks.specs.meaning.Faults.{HasNoBlockFault};
ghost use Rattle.ft_blocks.specs.meaning.Goals.{HasGoals};
ghost use Rattle.ft_mean.specs.judge.Safe.{KeepsSizes};
ghost use Rattle.ft_mean.specs.meaning.Proper.{AllProper};
ghost use Rattle.ft_oblige.specs.meaning.Blocks.{IsFactAt};
ghost use Rattle.ft_oblige.specs.meaning.Facts.{HasFact, IsFactNumbered};
ghost use Rattle.ft_oblige.specs.meaning.Obligations.{obligation_count};
ghost use Rattle.ft_oblige.specs.meaning.Tried.{IsPointIn};
ghost use Rattle.ft_cover.specs.building.KeptView.{kept_view};
ghost use Rattle.ft_compose.specs.building.Deciding.{AreCellsBy, AreFactsClosed, IsAttempt, IsFormed, IsGoalThere, IsStep};
ghost use Rattle.ft_compose.specs.meaning.Decided.{IsBlocks, IsStop};
ghost use Rattle.ft_compose.specs.meaning.Shared.{IsShared};

use crate::blocks::{Blocks, Cells};
use crate::facts::{Formed, named_fact};
use crate::law::deciding_laws;
use crate::seeing::goal_cells;
use crate::sharing::Shared;
use ft_base::{List, NoMemory};
use ft_blocks::Graph;
use ft_cert::Cert;
use ft_core::{Fact, Tables};
use ft_cover::{add_cert, first_values};
use ft_oblige::{FactAt, Obligation, Slot, Tried, count, fact_at, try_formula};
use std::alloc::Global;

/// What is learned of an obligation of a fact.
#[derive(Drop)]
pub(crate) enum Attempt {
    /// It has no point.
    Closed(Cert),
    /// It has one, or the search for one was spent.
    Stopped(Blocks),
}

// The cells of a fact that fails at the values.
fn cells_at(
    alloc: Global,
    tables: &Tables,
    shared: &Shared,
    anew: bool,
    fact: &Fact,
    slots: &[Slot],
    values: &[i64],
    names: &[u32],
) -> Result<Cells, NoMemory>
    requires shared { IsShared tables.now shared.now }
    requires there { IsGoalThere tables.now fact.now }
    requires keeps { KeepsSizes tables.now.vars tables.now.memories (kept_view tables.now false anew slots.now values.now) }
    ensures { IfOk result (AreCellsBy tables.now anew names.now (kept_view tables.now false anew slots.now values.now) fact.now) }
{
    match fact {
        Fact::Invariant { .. } => Ok(Cells {
            req: None,
            out: None,
        }),
        Fact::Goal { con } => {
            let all = &shared.definitions;
            let spans = shared.spans.as_slice();
            let cells = goal_cells(alloc, tables, all, anew, slots, values, spans, names, *con)?;
            Ok(cells)
        }
    }
}

// The fact at some places.
fn fact_in(tables: &Tables, at: FactAt) -> &Fact
    requires { HasFact tables.now at.block at.fact }
    ensures { (block : Block) × IsFactAt tables.now at.block at.fact block result.now }
{
    let owner = tables.blocks.get(at.block as usize);
    owner.facts.get(at.fact as usize)
}

// What a point of the obligation of a fact shows.
fn fails_at(
    alloc: Global,
    tables: &Tables,
    shared: &Shared,
    number: u32,
    at: FactAt,
    obligation: Obligation,
    names: &[u32],
    point: &[i64],
) -> Result<Blocks, NoMemory>
    requires shared { IsShared tables.now shared.now }
    requires above { 3 * length tables.now.tables < number }
    requires below { number ≤ obligation_count tables.now }
    requires about { IsFactNumbered tables.now number at }
    requires formed { IsFormed tables.now at.block at.fact at.anew obligation names.now }
    requires point { IsPointIn obligation.formula obligation.area.spans point.now }
    ensures { IfOk result (IsStop tables.now number) }
{
    deciding_laws();
    let fact = fact_in(tables, at);
    let slots = obligation.slots.as_slice();
    let values = first_values(alloc, point, slots.len())?;
    let cells = cells_at(
        alloc,
        tables,
        shared,
        at.anew,
        fact,
        slots,
        values.as_slice(),
        names,
    )?;
    Ok(Blocks::Fails {
        obligation: number,
        cells,
        values,
        labels: obligation.labels,
    })
}

// Makes the obligation of a fact with this number and tries it.
fn try_fact(
    alloc: Global,
    tables: &Tables,
    shared: &Shared,
    number: u32,
) -> Result<Attempt, NoMemory>
    requires shared { IsShared tables.now shared.now }
    requires above { 3 * length tables.now.tables < number }
    requires below { number ≤ obligation_count tables.now }
    ensures { IfOk result (IsAttempt tables.now number) }
{
    deciding_laws();
    let at = fact_at(tables, number);
    let made = named_fact(alloc, tables, shared, at.block, at.fact, at.anew)?;
    let Formed { obligation, names } = made;
    let tried = try_formula(alloc, &obligation.formula, &obligation.area, tables.splits)?;
    match tried {
        Tried::Closed(cert) => Ok(Attempt::Closed(cert)),
        Tried::Point(point) => {
            let found = fails_at(
                alloc,
                tables,
                shared,
                number,
                at,
                obligation,
                names.as_slice(),
                point.as_slice(),
            )?;
            Ok(Attempt::Stopped(found))
        }
        Tried::Spent(tree) => Ok(Attempt::Stopped(Blocks::Spent {
            obligation: number,
            tree,
        })),
    }
}

// Tries the next obligation, where those of facts before it are closed: it is closed too, or the answer.
fn go_on(
    alloc: Global,
    tables: &Tables,
    shared: &Shared,
    keep: bool,
    before: u32,
    certs: &mut List<Cert>,
) -> Result<Option<Blocks>, NoMemory>
    requires proper { AllProper tables.now }
    requires shared { IsShared tables.now shared.now }
    requires first { 3 * length tables.now.tables ≤ before }
    requires last { before < obligation_count tables.now }
    requires fits { before < 4294967295 }
    requires closed { AreFactsClosed tables.now keep before certs.old }
    ensures { IfOk result (IsStep tables.now keep (before + 1) certs.new) }
{
    deciding_laws();
    let tried = try_fact(alloc, tables, shared, before + 1)?;
    match tried {
        Attempt::Closed(cert) => {
            add_cert(keep, cert, certs)?;
            Ok(None)
        }
        Attempt::Stopped(found) => Ok(Some(found)),
    }
}

// Tries the obligations of all facts in order.
fn first_open(
    alloc: Global,
    tables: &Tables,
    graph: &Graph,
    shared: &Shared,
    keep: bool,
) -> Result<Blocks, NoMemory>
    requires proper { AllProper tables.now }
    requires goals { HasGoals tables.now.vars tables.now.blocks }
    requires order { IsOrder (block_reads tables.now.blocks) graph.now.order }
    requires shared { IsShared tables.now shared.now }
    ensures { IfOk result (IsBlocks tables.now keep) }
{
    deciding_laws();
    let mut certs = List::new(alloc);
    let first = 3 * tables.tables.len() as u32;
    let last = count(tables);
    for before in first..last {
        let found = go_on(alloc, tables, shared, keep, before, &mut certs)?;
        if let Some(blocks) = found {
            return Ok(blocks);
        }
    }
    Ok(Blocks::AllShown { certs })
}

/// Tries the obligations of the facts of a set with proper tables in order, each at a scan that begins and at one that follows
/// another, and answers the first that isn't closed. What the obligations share is made once; each is made, tried and dropped. With
/// `keep` the certificates of all of them are kept. `NoMemory` is want of memory, or a row or a column past 2^32.
pub fn decide_blocks(
    alloc: Global,
    tables: &Tables,
    graph: &Graph,
    keep: bool,
) -> Result<Blocks, NoMemory>
    requires proper { AllProper tables.now }
    requires blocks { HasNoBlockFault tables.now.vars tables.now.blocks }
    requires order { IsOrder (block_reads tables.now.blocks) graph.now.order }
    requires goals { HasGoals tables.now.vars tables.now.blocks }
    ensures answer { IfOk result (IsBlocks tables.now keep) }
{
    let shared = Shared::of(alloc, tables)?;
    let found = first_open(alloc, tables, graph, &shared, keep)?;
    Ok(found)
}
