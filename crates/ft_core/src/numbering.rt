//! What the variables and memories of a set read of each other, by a numbering of the caller's.
ghost use Rattle.std.specs.Prelude.{◌≡◌, ◌≤◌, ◌<◌, ◌+◌, ℕ, length, map, slice_index_or, IsTrue, IfOk};
ghost use Rattle.std.specs.List.{Contains, list_all};
ghost use Rattle.ft_core.specs.walk.Gathering.{AreRenumbered};
ghost use Rattle.ft_core.specs.meaning.Grids.{is_shaped};
ghost use Rattle.ft_core.specs.meaning.Items.{AreReads, IsNumbering, OrderGivesSetOrder};
ghost use Rattle.ft_core.specs.meaning.Order.{AreItems};

use crate::gathering::{empty_lists, plain_reads};
use crate::tables::{Memory, Table};
use ft_base::{List, NoMemory};
use std::alloc::Global;

// The numbers of these items.
fn numbers_of(alloc: Global, numbers: &[u32], items: &[u32]) -> Result<List<u32>, NoMemory>
    requires { (k : ℕ) → Contains items.now k → k < length numbers.now }
    ensures { IfOk result (λ list. list ≡ map (λ k. slice_index_or numbers.now k 0) items.now) }
{
    let mut list = List::new(alloc);
    for item in items {
        list.push(numbers[*item as usize])?;
    }
    Ok(list)
}

// The lists of what items read, with other numbers for the items.
fn renumbered(
    alloc: Global,
    numbers: &[u32],
    reads: &List<List<u32>>,
) -> Result<List<List<u32>>, NoMemory>
    requires numbering { IsNumbering (length reads.now) numbers.now }
    requires items { AreItems reads.now }
    ensures { IfOk result (AreRenumbered numbers.now reads.now) }
{
    let mut lists = List::from_vec(empty_lists(alloc, reads.len())?);
    for item in 0..reads.len() {
        let list = numbers_of(alloc, numbers, reads.get(item).as_slice())?;
        lists.set(numbers[item] as usize, list);
    }
    Ok(lists)
}

/// What each variable and each memory of a set reads of the others within one scan, as `order` takes it. The numbers are those
/// of the variables by their places, and after them those of the memories: list n is that of the item with number n.
///
/// It takes time in proportion to the tables and memories.
pub fn reads_within(
    alloc: Global,
    vars: usize,
    memories: &[Memory],
    tables: &[Table],
    numbers: &[u32],
) -> Result<List<List<u32>>, NoMemory>
    requires shapes { IsTrue (list_all (λ table. is_shaped table.grid) tables.now) }
    requires few { vars + length memories.now ≤ 10000 }
    requires numbering { IsNumbering (vars + length memories.now) numbers.now }
    ensures reads { IfOk result (AreReads vars memories.now tables.now numbers.now) }
    ensures items { IfOk result AreItems }
{
    let reads = plain_reads(alloc, vars, memories, tables)?;
    renumbered(alloc, numbers, &reads)
}

/// An order of what the items of a set read gives the order that a checked set has.
pub fn order_gives_set_order()
    ensures { OrderGivesSetOrder }
{}
