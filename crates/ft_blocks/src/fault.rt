ghost use Rattle.std.specs.Prelude.{◌≡◌};

use ft_base::{List, NoMemory, Text};

/// Why the blocks of a set make no proof, in the order in which the kinds are asked for.
#[derive(Drop)]
pub enum BlockFault {
    /// These blocks use each other in a circle. The first is the first declared that lies on one.
    BlockCycle { names: List<Text> },
    /// No block has this controlled variable as a goal. It is the first declared of which that is so.
    GoalMissing { name: Text },
    /// A goal stands twice: the variable of the first goal in the text that an earlier one has too.
    ShownTwice { name: Text },
    /// Memory was refused.
    NoMemory,
}

impl From<NoMemory> for BlockFault {
    ghost use Rattle.ft_blocks.specs.declared.fault.BlockFault.TheVariants.{NoMemory};

    ghost from_gives = { λ _ fault. fault ≡ NoMemory };

    fn from(_refused: NoMemory) -> BlockFault {
        BlockFault::NoMemory
    }
}
