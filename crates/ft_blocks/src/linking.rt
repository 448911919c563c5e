ghost use Rattle.std.specs.Prelude.{length, IfOk, IfErr, OnOk, IsOkUnless};
ghost use Rattle.ft_core.specs.checked.Distinct.{AreDistinct};
ghost use Rattle.ft_core.specs.meaning.Order.{IsOrder};
ghost use Rattle.ft_blocks.specs.meaning.Cycles.{HasNoBlockCycle, block_reads};
ghost use Rattle.ft_blocks.specs.meaning.Faults.{HasNoBlockFault, IsBlockFault};
ghost use Rattle.ft_blocks.specs.meaning.Goals.{HasGoals, HaveGoals, block_goals};
ghost use Rattle.ft_blocks.specs.steps.Faults.{IsBlockCycleFault, IsGoalFault};

use crate::fault::BlockFault;
use crate::goals::{block_goals, differ, need_goals};
use crate::links::Graph;
use crate::reads::{block_reads, names_at};
use ft_base::List;
use ft_core::{OrderFault, Tables, order};
use std::alloc::Global;

// An order of the blocks in which each uses only earlier ones, or their first circle.
fn block_order(alloc: Global, tables: &Tables) -> Result<List<u32>, BlockFault>
    ensures order { IfOk result (IsOrder (block_reads tables.now.blocks)) }
    ensures none { OnOk result (HasNoBlockCycle tables.now.blocks) }
    ensures cycle { IfErr result (IsBlockCycleFault tables.now.blocks) }
{
    let blocks = tables.blocks.as_slice();
    let reads = block_reads(alloc, blocks)?;
    match order(alloc, &reads) {
        Ok(places) => Ok(places),
        Err(OrderFault::NoMemory) => Err(BlockFault::NoMemory),
        Err(OrderFault::Cycle { items }) => {
            let names = names_at(alloc, blocks, items.as_slice())?;
            Err(BlockFault::BlockCycle { names })
        }
    }
}

// Looks for a controlled variable that is the goal of no block, and where there is none for one that is a goal twice.
fn judge_goals(alloc: Global, tables: &Tables) -> Result<(), BlockFault>
    ensures every { OnOk result (HaveGoals tables.now.vars (block_goals tables.now.blocks) (length tables.now.vars)) }
    ensures once { OnOk result (AreDistinct (block_goals tables.now.blocks)) }
    ensures fault { IfErr result (IsGoalFault tables.now.vars tables.now.blocks) }
{
    let vars = tables.vars.as_slice();
    let goals = block_goals(alloc, tables.blocks.as_slice())?;
    need_goals(alloc, vars, goals.as_slice())?;
    differ(alloc, vars, goals.as_slice())?;
    Ok(())
}

/// An order of the blocks of a set in which each uses only earlier ones, where each controlled variable is the goal of exactly one
/// block. Else the first fault of the blocks: of the kinds BlockCycle, GoalMissing, ShownTwice the first that occurs; or want of memory.
pub fn graph(alloc: Global, tables: &Tables) -> Result<Graph, BlockFault>
    ensures order { IfOk result (λ graph. IsOrder (block_reads tables.now.blocks) graph.order) }
    ensures goals { OnOk result (HasGoals tables.now.vars tables.now.blocks) }
    ensures no_fault { OnOk result (HasNoBlockFault tables.now.vars tables.now.blocks) }
    ensures fault { IfErr result (IsBlockFault tables.now.vars tables.now.blocks) }
    ensures only { HasNoBlockFault tables.now.vars tables.now.blocks → IsOkUnless result BlockFault.NoMemory }
{
    let order = block_order(alloc, tables)?;
    judge_goals(alloc, tables)?;
    Ok(Graph { order })
}
