//! The obligations of a set by number.
ghost use Rattle.std.specs.Prelude.{◌≡◌, ◌≤◌, ◌<◌, ◌*◌, ◌∷◌, ◌+◌, length, IfOk};
ghost use Rattle.std.specs.List.{sum_by};
ghost use Rattle.ft_claims.specs.meaning.Coverage.{cover_parts};
ghost use Rattle.ft_oblige.specs.building.Numbering.{IsAbout, IsFormBy};
ghost use Rattle.ft_oblige.specs.meaning.Made.{IsCoverage, IsNumbered, meant};
ghost use Rattle.ft_oblige.specs.meaning.Obligations.{obligation_count};

use crate::covering::{cover_frame, cover_spans};
use crate::labelling::{labels_of, slots_of};
use crate::links::add_links;
use crate::made::Obligation;
use crate::nodes::{TableFault, fault_node};
use crate::number_law::number_laws;
use crate::reading::read_memories;
use ft_base::{List, NoMemory};
use ft_claims::{Claim, Obliged, oblige, point_laws};
use ft_core::{Block, Grid, Tables};
use std::alloc::Global;

// How many facts these blocks show.
fn facts(blocks: &[Block]) -> usize
    requires { sum_by (λ block. length block.facts) blocks.now ≤ 400 }
    ensures value { result ≡ sum_by (λ block. length block.facts) blocks.now }
    ensures few { result ≤ 400 }
{
    let mut sum = 0;
    for block in blocks {
        sum += block.facts.len();
    }
    sum
}

// Three for each table and two for each fact.
fn counted(tables: usize, facts: usize) -> u32
    requires tables { tables ≤ 400 }
    requires facts { facts ≤ 400 }
    ensures { result ≡ 3 * tables + 2 * facts }
{
    3 * tables as u32 + 2 * facts as u32
}

/// How many obligations a set has.
pub fn count(tables: &Tables) -> u32
    ensures { result ≡ obligation_count tables.now }
{
    counted(tables.tables.len(), facts(tables.blocks.as_slice()))
}

/// What some claims over the names of two scans oblige to, with the label and the slot of each name that the formula has: of a bit
/// where every memory is one, and else the age of a timer.
pub fn labelled(
    alloc: Global,
    tables: &Tables,
    bits: bool,
    obliged: Obliged,
) -> Result<Obligation, NoMemory>
    ensures { IfOk result (IsFormBy tables.now bits obliged) }
{
    let Obliged {
        formula,
        area,
        names,
    } = obliged;
    let slots = slots_of(alloc, tables, names.as_slice())?;
    let labels = labels_of(alloc, tables, bits, slots.as_slice())?;
    Ok(Obligation {
        formula,
        area,
        labels,
        slots,
    })
}

// The claims of the obligation that a table doesn't show a fault.
fn cover_parts(
    alloc: Global,
    tables: &Tables,
    fault: TableFault,
    grid: &Grid,
    memories: &[u32],
) -> Result<List<Claim>, NoMemory>
    ensures { IfOk result (λ parts. parts ≡ cover_parts tables.now (meant fault) grid.now memories.now) }
{
    let frame = cover_frame(tables);
    let mut parts = List::new(alloc);
    let node = fault_node(alloc, tables, &frame, fault, grid)?;
    parts.push(node)?;
    add_links(alloc, tables, &frame, memories, &mut parts)?;
    Ok(parts)
}

/// The obligation that the table at this place doesn't show a fault. It takes time about in proportion to the text of the
/// table and of the memories that it reads, where it has as many conditions as terms, and to the number of names.
pub fn coverage(
    alloc: Global,
    tables: &Tables,
    table: u32,
    fault: TableFault,
) -> Result<Obligation, NoMemory>
    requires { table < length tables.now.tables }
    ensures { IfOk result (IsCoverage tables.now table fault) }
{
    point_laws();
    let grid = &tables.tables.get(table as usize).grid;
    let memories = read_memories(alloc, tables, grid)?;
    let parts = cover_parts(alloc, tables, fault, grid, memories.as_slice())?;
    let spans = cover_spans(alloc, tables)?;
    let obliged = oblige(alloc, spans.as_slice(), parts.as_slice())?;
    let made = labelled(alloc, tables, true, obliged)?;
    Ok(made)
}

// The place of the table that an obligation is about, and the fault.
fn about(number: u32) -> (u32, TableFault)
    requires { 1 ≤ number }
    ensures { IsAbout number result.0 (meant result.1) }
{
    let before = number - 1;
    match before % 3 {
        0 => (before / 3, TableFault::Gap),
        1 => (before / 3, TableFault::Overlap),
        _ => (before / 3, TableFault::Range),
    }
}

/// The obligation with this number, from 1.
pub fn obligation(alloc: Global, tables: &Tables, number: u32) -> Result<Obligation, NoMemory>
    requires some { 1 ≤ number }
    requires last { number ≤ 3 * length tables.now.tables }
    ensures { IfOk result (IsNumbered tables.now number) }
{
    number_laws();
    let (table, fault) = about(number);
    let made = coverage(alloc, tables, table, fault)?;
    Ok(made)
}
