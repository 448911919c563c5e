//! The memories that a table reads, also through memories.
ghost use Rattle.std.specs.Prelude.{◌≡◌, [], ◌∷◌, true, not, slice_get, slice_index_or, Some, IfOk, OnOk};
ghost use Rattle.std.specs.List.{flat_map};
ghost use Rattle.ft_core.specs.meaning.Reads.{cond_reads, grid_reads, memory_reads, of_memory, term_reads};
ghost use Rattle.ft_claims.specs.meaning.Shown.{AreReadMemories};
ghost use Rattle.ft_oblige.specs.building.Finding.{Finds, FindsAll, Follows, IsFresh};

use ft_base::{List, NoMemory};
use ft_claims::marked_places;
use ft_core::{Cond, Grid, Memory, Tables};
use std::alloc::Global;

/// The memories that were found: a mark at the place of each, and their places in the order in which they were found.
#[derive(Drop)]
pub struct Found {
    pub marks: List<bool>,
    pub list: List<u32>,
}

// Whether there is a memory at this place that wasn't found.
fn is_new(marks: &[bool], place: u32) -> bool
    ensures { result ≡ not (slice_index_or marks.now place true) }
{
    match marks.get(place as usize) {
        Some(mark) => !*mark,
        None => false,
    }
}

// Finds the memory at this place.
fn find(found: &mut Found, place: u32) -> Result<(), NoMemory>
    ensures { OnOk result (Finds (of_memory place ∷ []) found.old found.new) }
{
    if !is_new(found.marks.as_slice(), place) {
        return Ok(());
    }
    found.marks.set(place as usize, true);
    found.list.push(place)
}

// Finds the memories that a condition reads. Its terms read none.
#[tactic(auto, using(crate::proofs::FindLemmas::cond_parts))]
fn find_in(found: &mut Found, cond: &Cond) -> Result<(), NoMemory>
    ensures { OnOk result (Finds (cond_reads cond.now) found.old found.new) }
{
    match cond {
        Cond::Yes | Cond::No => Ok(()),
        Cond::Compare(_, _, _) => Ok(()),
        Cond::Memory(place) => find(found, *place),
        Cond::Not(inner) => find_in(found, inner.get()),
        Cond::And(a, b) | Cond::Or(a, b) => {
            find_in(found, a.get())?;
            find_in(found, b.get())
        }
    }
}

fn find_in_all(found: &mut Found, conds: &[Cond]) -> Result<(), NoMemory>
    ensures { OnOk result (Finds (flat_map cond_reads conds.now) found.old found.new) }
{
    for cond in conds {
        find_in(found, cond)?;
    }
    Ok(())
}

fn find_in_rows(found: &mut Found, rows: &[List<Cond>]) -> Result<(), NoMemory>
    ensures { OnOk result (Finds (flat_map (flat_map cond_reads) rows.now) found.old found.new) }
{
    for row in rows {
        find_in_all(found, row.as_slice())?;
    }
    Ok(())
}

// Finds the memories that a table reads itself.
fn find_in_grid(found: &mut Found, grid: &Grid) -> Result<(), NoMemory>
    ensures { OnOk result (Finds (grid_reads grid.now) found.old found.new) }
{
    match grid {
        Grid::Normal { columns, rows, .. } => {
            find_in_all(found, columns.as_slice())?;
            find_in_all(found, rows.as_slice())?;
            Ok(())
        }
        Grid::Inverted { rows, grid, .. } => {
            find_in_all(found, rows.as_slice())?;
            find_in_rows(found, grid.as_slice())?;
            Ok(())
        }
        Grid::Vector { columns, .. } => {
            find_in_all(found, columns.as_slice())?;
            Ok(())
        }
    }
}

// Finds the memories that a memory reads itself.
fn find_in_memory(found: &mut Found, memory: &Memory) -> Result<(), NoMemory>
    ensures { OnOk result (Finds (memory_reads (Some memory.now)) found.old found.new) }
{
    match memory {
        Memory::Held { cond, .. } => find_in(found, cond),
        Memory::Hyst { .. } => Ok(()),
    }
}

// Finds the memories that the memory at this place reads itself, where there is one.
fn find_at(found: &mut Found, memories: &[Memory], place: u32) -> Result<(), NoMemory>
    ensures { OnOk result (Finds (memory_reads (slice_get memories.now place)) found.old found.new) }
{
    match memories.get(place as usize) {
        Some(memory) => find_in_memory(found, memory),
        None => Ok(()),
    }
}

// The same of the memory that was found after so many others, where there is one.
fn follow(found: &mut Found, memories: &[Memory], next: usize) -> Result<(), NoMemory>
    ensures { OnOk result (Follows memories.now next found.old found.new) }
{
    if next < found.list.len() {
        let place = *found.list.get(next);
        find_at(found, memories, place)
    } else {
        Ok(())
    }
}

// No memory is found.
fn none_found(alloc: Global, memories: usize) -> Result<Found, NoMemory>
    ensures { IfOk result (IsFresh memories) }
{
    Ok(Found {
        marks: List::from_vec(Vec::from_elem(alloc, false, memories)?),
        list: List::new(alloc),
    })
}

// Finds the memories that a table reads, also through memories. Each that is found is read once.
fn found_by(alloc: Global, tables: &Tables, grid: &Grid) -> Result<Found, NoMemory>
    ensures { IfOk result (FindsAll tables.now (grid_reads grid.now)) }
{
    let mut found = none_found(alloc, tables.memories.len())?;
    find_in_grid(&mut found, grid)?;
    for next in 0..tables.memories.len() {
        follow(&mut found, tables.memories.as_slice(), next)?;
    }
    Ok(found)
}

/// The memories that a table reads, also through memories, in order of declaration. It takes time in proportion to the table
/// and these memories.
pub(crate) fn read_memories(
    alloc: Global,
    tables: &Tables,
    grid: &Grid,
) -> Result<List<u32>, NoMemory>
    ensures { IfOk result (AreReadMemories tables.now (grid_reads grid.now)) }
{
    let found = found_by(alloc, tables, grid)?;
    let places = marked_places(alloc, found.marks.as_slice())?;
    Ok(places)
}
