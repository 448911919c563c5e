//! The tables for a number.
ghost use Rattle.std.specs.Prelude.{◌≡◌, ◌∷◌, [], true, codes, map, IfOk};
ghost use Rattle.ft_tree.specs.declared.expr.Expr.TheVariants.{Truth};
ghost use Rattle.ft_tree.specs.declared.item.Item.TheVariants.{Normal};
ghost use Rattle.ft_tree.specs.meaning.Bare.{start};
ghost use Rattle.ft_gen.specs.building.Drafts.{expr_of, row_of, word_of};
ghost use Rattle.ft_gen.specs.building.Items.{applied_rows, count_rows, counted_on, high_after, input_rows, numbered, output_rows, required_rows};

use crate::maker::Maker;
use crate::making::{always, denied, joined, name, number, only, pair, row, triple};
use ft_base::{List, NoMemory};
use ft_tree::{Expr, Item, Op, Row, SectionWord};

impl Maker {
    /// A table of one column that always holds.
    pub fn table(
        self,
        section: SectionWord,
        letter: &[u8],
        rows: List<Row>,
    ) -> Result<Item, NoMemory>
        ensures { IfOk result (λ item. item ≡ Normal section (word_of (numbered letter.now self.number)) (Truth true start ∷ []) rows) }
    {
        let target = self.word(letter)?;
        let columns = only(self.alloc, always())?;
        Ok(Item::Normal {
            section,
            target,
            columns,
            rows,
        })
    }

    /// The input is a quarter of the monitored variable.
    pub fn input_rows(self) -> Result<List<Row>, NoMemory>
        ensures { IfOk result (λ rows. rows ≡ map row_of (input_rows self.number)) }
    {
        let quarter = self.against(b"m", Op::Div, 4)?;
        only(self.alloc, row(self.alloc, always(), quarter)?)
    }

    /// The controlled variable is on while the memory holds.
    pub fn required_rows(self) -> Result<List<Row>, NoMemory>
        ensures { IfOk result (λ rows. rows ≡ map row_of (required_rows self.number)) }
    {
        let held = row(self.alloc, self.named(b"h")?, name(self.alloc, b"on")?)?;
        let other = denied(self.alloc, self.named(b"h")?)?;
        let other = row(self.alloc, other, name(self.alloc, b"off")?)?;
        pair(self.alloc, held, other)
    }

    // The input is high, and the count one scan before is so.
    fn high_after(self, op: Op) -> Result<Expr, NoMemory>
        ensures { IfOk result (λ expr. expr ≡ expr_of (high_after self.number op)) }
    {
        let high = self.against(b"i", Op::Ge, u64::from(self.number))?;
        let last = joined(self.alloc, op, self.last_count()?, number(3))?;
        joined(self.alloc, Op::And, high, last)
    }

    // One more than one scan before.
    fn counted_on(self) -> Result<Expr, NoMemory>
        ensures { IfOk result (λ expr. expr ≡ expr_of (counted_on self.number)) }
    {
        joined(self.alloc, Op::Add, self.last_count()?, number(1))
    }

    /// The scans in a row with a high input are counted, up to three.
    pub fn count_rows(self) -> Result<List<Row>, NoMemory>
        ensures { IfOk result (λ rows. rows ≡ map row_of (count_rows self.number)) }
    {
        let low = self.against(b"i", Op::Lt, u64::from(self.number))?;
        let low = row(self.alloc, low, number(0))?;
        let more = row(self.alloc, self.high_after(Op::Lt)?, self.counted_on()?)?;
        let full = row(self.alloc, self.high_after(Op::Eq)?, number(3))?;
        triple(self.alloc, low, more, full)
    }

    /// The output is on from three on.
    pub fn output_rows(self) -> Result<List<Row>, NoMemory>
        ensures { IfOk result (λ rows. rows ≡ map row_of (output_rows self.number)) }
    {
        let full = self.against(b"s", Op::Eq, 3)?;
        let full = row(self.alloc, full, name(self.alloc, b"on")?)?;
        let other = self.against(b"s", Op::Lt, 3)?;
        let other = row(self.alloc, other, name(self.alloc, b"off")?)?;
        pair(self.alloc, full, other)
    }

    /// The controlled variable is the output.
    pub fn applied_rows(self) -> Result<List<Row>, NoMemory>
        ensures { IfOk result (λ rows. rows ≡ map row_of (applied_rows self.number)) }
    {
        let output = self.named(b"o")?;
        only(self.alloc, row(self.alloc, always(), output)?)
    }
}
