ghost use Rattle.std.specs.Prelude.{◌≡◌, ◌+◌, ◌<◌, ◌^◌};
ghost use Rattle.ft_names.specs.naming.Counting.{counted};

use ft_tree::Item;

// How many variables, memories and blocks stand before an item.
#[derive(Clone, Copy, Drop)]
pub struct Counts {
    pub variables: u32,
    pub memories: u32,
    pub blocks: u32,
}

impl Counts {
    // How many stand before the next item.
    pub fn after(self, item: &Item) -> Counts
        requires variables { self.variables + 1 < 2 ^ 32 }
        requires memories { self.memories + 1 < 2 ^ 32 }
        requires blocks { self.blocks + 1 < 2 ^ 32 }
        ensures { result ≡ counted self item.now }
    {
        match item {
            Item::Variable { .. } => Counts {
                variables: self.variables + 1,
                memories: self.memories,
                blocks: self.blocks,
            },
            Item::Held { .. } | Item::Hyst { .. } => Counts {
                variables: self.variables,
                memories: self.memories + 1,
                blocks: self.blocks,
            },
            Item::Block { .. } => Counts {
                variables: self.variables,
                memories: self.memories,
                blocks: self.blocks + 1,
            },
            _ => self,
        }
    }
}
