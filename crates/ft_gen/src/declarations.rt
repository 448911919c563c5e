//! The variables and the memory for a number.
ghost use Rattle.std.specs.Prelude.{◌≡◌, ◌∷◌, [], ◌++◌, codes, map, IfOk, OnOk};
ghost use Rattle.ft_gen.specs.building.Drafts.{item_of};
ghost use Rattle.ft_gen.specs.building.Items.{held_memory, numbered, ranged, switched, switch_type};

use crate::maker::Maker;
use crate::making::{bound, number_bound, pair, word};
use ft_base::{NoMemory, Text};
use ft_tree::{Item, Kind, Op, Plain, SectionWord, VarWord};
use std::alloc::Global;

/// The type of two members.
pub fn switch_type(alloc: Global) -> Result<Item, NoMemory>
    ensures { IfOk result (λ item. item ≡ switch_type) }
{
    let name = word(alloc, b"sw")?;
    let off = word(alloc, b"off")?;
    let on = word(alloc, b"on")?;
    Ok(Item::EnumType {
        name,
        members: pair(alloc, off, on)?,
    })
}

impl Maker {
    /// A variable from 0 to a number, at first 0.
    pub fn ranged(self, kind: VarWord, letter: &[u8], top: u64) -> Result<Item, NoMemory>
        ensures { IfOk result (λ item. item ≡ item_of (ranged kind (numbered letter.now self.number) top)) }
    {
        Ok(Item::Variable {
            kind,
            name: self.word(letter)?,
            of: Kind::Range(number_bound(0), number_bound(top)),
            init: number_bound(0),
        })
    }

    /// A variable of the type of two members, at first off.
    pub fn switched(self, kind: VarWord, letter: &[u8]) -> Result<Item, NoMemory>
        ensures { IfOk result (λ item. item ≡ item_of (switched kind (numbered letter.now self.number))) }
    {
        let name = self.word(letter)?;
        let of = word(self.alloc, b"sw")?;
        let init = Text::copy_of(self.alloc, b"off")?;
        Ok(Item::Variable {
            kind,
            name,
            of: Kind::Named(of),
            init: bound(Plain::Name(init)),
        })
    }

    /// The memory of what was high for 100 ms.
    pub fn held_memory(self) -> Result<Item, NoMemory>
        ensures { IfOk result (λ item. item ≡ item_of (held_memory self.number)) }
    {
        let name = self.word(b"h")?;
        let cond = self.against(b"m", Op::Ge, 4 * u64::from(self.number))?;
        Ok(Item::Held {
            side: SectionWord::Req,
            name,
            cond,
            hold: number_bound(100),
        })
    }
}
