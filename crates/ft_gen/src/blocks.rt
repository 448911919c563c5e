//! The blocks for a number.
ghost use Rattle.std.specs.Prelude.{◌≡◌, ◌∷◌, [], codes, map, IfOk};
ghost use Rattle.ft_tree.specs.declared.expr.Op.TheVariants.{Or};
ghost use Rattle.ft_tree.specs.declared.item.FactItem.TheVariants.{Shows};
ghost use Rattle.ft_gen.specs.building.Drafts.{expr_of, item_of, joined, word_of};
ghost use Rattle.ft_gen.specs.building.Items.{aimed_block, blocks, counting, elapsed, idle, numbered, shown_block};

use crate::maker::Maker;
use crate::making::{joined, negated, number, only, pair};
use ft_base::{List, NoMemory};
use ft_tree::{Expr, FactItem, Item, Op, Word};

impl Maker {
    // The names of two letters.
    fn words(self, first: &[u8], second: &[u8]) -> Result<List<Word>, NoMemory>
        ensures { IfOk result (λ words. words
            ≡ word_of (numbered first.now self.number) ∷ word_of (numbered second.now self.number) ∷ []) }
    {
        pair(self.alloc, self.word(first)?, self.word(second)?)
    }

    // No scan is counted, and the memory's condition doesn't hold.
    fn idle(self) -> Result<Expr, NoMemory>
        ensures { IfOk result (λ expr. expr ≡ expr_of (idle self.number)) }
    {
        let none = self.against(b"s", Op::Eq, 0)?;
        let no_age = negated(self.alloc, number(1))?;
        let unset = joined(self.alloc, Op::Eq, self.age()?, no_age)?;
        joined(self.alloc, Op::And, none, unset)
    }

    // How old the memory is, by the count.
    fn elapsed(self) -> Result<Expr, NoMemory>
        ensures { IfOk result (λ expr. expr ≡ expr_of (elapsed self.number)) }
    {
        let scans = joined(self.alloc, Op::Mul, number(50), self.named(b"s")?)?;
        joined(self.alloc, Op::Sub, scans, number(50))
    }

    // Scans are counted, and the memory is as old as they say.
    fn counting(self) -> Result<Expr, NoMemory>
        ensures { IfOk result (λ expr. expr ≡ expr_of (counting self.number)) }
    {
        let some = self.against(b"s", Op::Ge, 1)?;
        let old = joined(self.alloc, Op::Eq, self.age()?, self.elapsed()?)?;
        joined(self.alloc, Op::And, some, old)
    }

    // The count tells the memory's age.
    fn shown_fact(self) -> Result<FactItem, NoMemory>
        ensures { IfOk result (λ fact. fact
            ≡ Shows (word_of (numbered (codes "t") self.number)) (expr_of (joined Or (idle self.number) (counting self.number)))) }
    {
        let name = self.word(b"t")?;
        let cond = joined(self.alloc, Op::Or, self.idle()?, self.counting()?)?;
        Ok(FactItem::Shows { name, cond })
    }

    // The block that shows that the count tells the memory's age.
    fn shown_block(self) -> Result<Item, NoMemory>
        ensures { IfOk result (λ item. item ≡ item_of (shown_block self.number)) }
    {
        let name = self.word(b"a")?;
        let takes = self.words(b"h", b"s")?;
        let facts = only(self.alloc, self.shown_fact()?)?;
        Ok(Item::Block {
            name,
            takes,
            uses: List::new(self.alloc),
            facts,
        })
    }

    // The block of the controlled variable's goal.
    fn aimed_block(self) -> Result<Item, NoMemory>
        ensures { IfOk result (λ item. item ≡ item_of (aimed_block self.number)) }
    {
        let name = self.word(b"b")?;
        let takes = self.words(b"c", b"o")?;
        let uses = only(self.alloc, self.word(b"t")?)?;
        let goal = FactItem::Goal {
            con: self.word(b"c")?,
        };
        Ok(Item::Block {
            name,
            takes,
            uses,
            facts: only(self.alloc, goal)?,
        })
    }

    /// The blocks.
    pub fn blocks(self) -> Result<List<Item>, NoMemory>
        ensures { IfOk result (λ items. items ≡ map item_of (blocks self.number)) }
    {
        pair(self.alloc, self.shown_block()?, self.aimed_block()?)
    }
}
