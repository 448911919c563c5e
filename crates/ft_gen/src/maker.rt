//! The names for a number, as words and in expressions.
ghost use Rattle.std.specs.Prelude.{◌≡◌, ◌∷◌, [], codes, IfOk};
ghost use Rattle.ft_tree.specs.declared.expr.Expr.TheVariants.{Age, Name, Num, Prev, Two};
ghost use Rattle.ft_tree.specs.meaning.Bare.{start};
ghost use Rattle.ft_gen.specs.building.Drafts.{word_of};
ghost use Rattle.ft_gen.specs.building.Items.{numbered};

use crate::making::{START, joined, number, numbered};
use ft_base::NoMemory;
use ft_tree::{Expr, Op, Word};
use std::alloc::Global;

/// What makes the items for a number.
#[derive(Clone, Copy, Drop)]
pub struct Maker {
    pub alloc: Global,
    pub number: u32,
}

impl Maker {
    /// The name of this letter.
    pub fn word(self, letter: &[u8]) -> Result<Word, NoMemory>
        ensures { IfOk result (λ word. word ≡ word_of (numbered letter.now self.number)) }
    {
        Ok(Word {
            text: numbered(self.alloc, letter, self.number)?,
            place: START,
        })
    }

    /// The value of the name.
    pub fn named(self, letter: &[u8]) -> Result<Expr, NoMemory>
        ensures { IfOk result (λ expr. expr ≡ Name (numbered letter.now self.number) start) }
    {
        Ok(Expr::Name {
            name: numbered(self.alloc, letter, self.number)?,
            place: START,
        })
    }

    /// The value of the count one scan before.
    pub fn last_count(self) -> Result<Expr, NoMemory>
        ensures { IfOk result (λ expr. expr ≡ Prev (numbered (codes "s") self.number) start) }
    {
        Ok(Expr::Prev {
            name: numbered(self.alloc, b"s", self.number)?,
            place: START,
        })
    }

    /// The age of the memory.
    pub fn age(self) -> Result<Expr, NoMemory>
        ensures { IfOk result (λ expr. expr ≡ Age (numbered (codes "h") self.number) start) }
    {
        Ok(Expr::Age {
            name: numbered(self.alloc, b"h", self.number)?,
            place: START,
        })
    }

    /// The name of this letter against a number.
    pub fn against(self, letter: &[u8], op: Op, value: u64) -> Result<Expr, NoMemory>
        ensures { IfOk result (λ expr. expr ≡ Two op (Name (numbered letter.now self.number) start) (Num value start) start) }
    {
        joined(self.alloc, op, self.named(letter)?, number(value))
    }
}
