ghost use Rattle.std.specs.Prelude.{◌<◌, ◌-◌, ◌^◌, length, IfOk, IfErr, IsOkUnless};
ghost use Rattle.ft_tree.specs.declared.tree.Tree.{Tree as TreeSpec};
ghost use Rattle.ft_core.specs.meaning.Order.{IsOrder};
ghost use Rattle.ft_parse.specs.meaning.Parse.{Spells};
ghost use Rattle.ft_blocks.specs.meaning.Cycles.{block_reads};
ghost use Rattle.ft_blocks.specs.meaning.Faults.{HasNoBlockFault};
ghost use Rattle.ft_blocks.specs.meaning.Goals.{HasGoals};
ghost use Rattle.ft_admit.specs.meaning.SetFaults.{IsSetFault, IsSetOfText};
ghost use Rattle.ft_admit.specs.meaning.TreeFaults.{HasNoFault};
ghost use Rattle.ft_admit.specs.meaning.Trees.{set_of_tree};

use crate::set_fault::SetFault;
use crate::typing::type_set;
use ft_blocks::{Graph, graph};
use ft_core::Tables;
use ft_parse::parse;
use std::alloc::Global;

/// The checked set that a text spells, with an order of its blocks, or the first fault: of the kinds from Syntax to ShownTwice the
/// first that occurs, at its first place in the text; or want of memory. The text is shorter than 2^32 - 1 bytes.
pub fn admit(alloc: Global, text: &[u8]) -> Result<(Tables, Graph), SetFault>
    requires { length text.now < 2 ^ 32 - 1 }
    ensures set { IfOk result (λ admitted. IsSetOfText text.now admitted.0) }
    ensures order { IfOk result (λ admitted. IsOrder (block_reads admitted.0.blocks) admitted.1.order) }
    ensures goals { IfOk result (λ admitted. HasGoals admitted.0.vars admitted.0.blocks) }
    ensures no_fault { IfOk result (λ admitted. HasNoBlockFault admitted.0.vars admitted.0.blocks) }
    ensures fault { IfErr result (IsSetFault text.now) }
    ensures only { (tree : TreeSpec) → Spells text.now tree → HasNoFault tree
        → HasNoBlockFault (set_of_tree tree).vars (set_of_tree tree).blocks → IsOkUnless result SetFault.NoMemory }
{
    let tree = parse(alloc, text)?;
    let tables = type_set(alloc, &tree)?;
    let graph = graph(alloc, &tables)?;
    Ok((tables, graph))
}
