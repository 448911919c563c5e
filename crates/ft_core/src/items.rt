ghost use Rattle.std.specs.Prelude.{length, IfOk};
ghost use Rattle.ft_core.specs.meaning.Items.{IsScanOrder};

use crate::gathering::plain_reads;
use crate::ordering::{OrderFault, order};
use crate::tables::Tables;
use ft_base::{List, NoMemory};
use std::alloc::Global;

/// An order of the variables and memories of a set in which each reads, within one scan, only earlier ones. An item below the
/// number of variables is the variable at that place, and one from there on a memory.
///
/// It takes time in proportion to the tables and memories.
pub fn scan_order(alloc: Global, tables: &Tables) -> Result<List<u32>, NoMemory>
    ensures { IfOk result (IsScanOrder (length tables.now.vars) tables.now.memories tables.now.tables) }
{
    let reads = plain_reads(
        alloc,
        tables.vars.len(),
        tables.memories.as_slice(),
        tables.tables.as_slice(),
    )?;
    match order(alloc, &reads) {
        Ok(items) => Ok(items),
        Err(OrderFault::NoMemory) => Err(NoMemory),
        // The set was checked: its reads go round in no circle.
        Err(OrderFault::Cycle { .. }) => unreachable!(),
    }
}
