ghost use Rattle.std.specs.Prelude.{◌≡◌, ◌≤◌, ◌∷◌, [], ◌++◌, codes, map, IfOk, OnOk};
ghost use Rattle.std.specs.List.{flat_map, range_with_len};
ghost use Rattle.ft_tree.specs.meaning.Canonical.{canonical};
ghost use Rattle.ft_gen.specs.building.Drafts.{item_of};
ghost use Rattle.ft_gen.specs.building.Items.{first_tables, items_for, items_of, last_tables, variables};
ghost use Rattle.ft_gen.specs.meaning.Generated.{generated};
ghost use Rattle.ft_gen.specs.meaning.Places.{HasNoPlaces};

use crate::declarations::switch_type;
use crate::maker::Maker;
use crate::making::{START, numbered, only, pair, triple};
use ft_base::{List, NoMemory};
use ft_tree::{Item, Number, SectionWord, Tree, VarWord};
use std::alloc::Global;

// Adds items at the end.
fn append(items: &mut List<Item>, more: List<Item>) -> Result<(), NoMemory>
    ensures { OnOk result (items.new ≡ items.old ++ more) }
{
    for item in more.into_vec() {
        items.push(item)?;
    }
    Ok(())
}

impl Maker {
    fn variables(self) -> Result<List<Item>, NoMemory>
        ensures { IfOk result (λ items. items ≡ map item_of (variables self.number)) }
    {
        let mut items = List::new(self.alloc);
        items.push(self.ranged(VarWord::Mon, b"m", 1000)?)?;
        items.push(self.switched(VarWord::Con, b"c")?)?;
        items.push(self.ranged(VarWord::Input, b"i", 250)?)?;
        items.push(self.switched(VarWord::Output, b"o")?)?;
        items.push(self.ranged(VarWord::SofVar, b"s", 3)?)?;
        Ok(items)
    }

    fn first_tables(self) -> Result<List<Item>, NoMemory>
        ensures { IfOk result (λ items. items ≡ map item_of (first_tables self.number)) }
    {
        let input = self.table(SectionWord::In, b"i", self.input_rows()?)?;
        let required = self.table(SectionWord::Req, b"c", self.required_rows()?)?;
        pair(self.alloc, input, required)
    }

    fn last_tables(self) -> Result<List<Item>, NoMemory>
        ensures { IfOk result (λ items. items ≡ map item_of (last_tables self.number)) }
    {
        let count = self.table(SectionWord::Sof, b"s", self.count_rows()?)?;
        let output = self.table(SectionWord::Sof, b"o", self.output_rows()?)?;
        let applied = self.table(SectionWord::Out, b"c", self.applied_rows()?)?;
        triple(self.alloc, count, output, applied)
    }

    // The items for the number.
    fn items(self) -> Result<List<Item>, NoMemory>
        ensures { IfOk result (λ items. items ≡ items_for self.number) }
    {
        let mut items = self.variables()?;
        items.push(self.held_memory()?)?;
        append(&mut items, self.first_tables()?)?;
        append(&mut items, self.last_tables()?)?;
        append(&mut items, self.blocks()?)?;
        Ok(items)
    }
}

// The items of the set for n.
fn items(alloc: Global, n: u32) -> Result<List<Item>, NoMemory>
    requires { n ≤ 60 }
    ensures { IfOk result (λ items. items ≡ items_of n) }
{
    let mut items = only(alloc, switch_type(alloc)?)?;
    for count in 0..n {
        let number = count + 1;
        append(&mut items, Maker { alloc, number }.items()?)?;
    }
    Ok(items)
}

/// The tree of the set `genN` for n, from 1 to 60: five variables, a memory, five tables and two blocks for each number from 1 to n.
/// The tree isn't read from a text, so that the place of each of its parts is 1:1.
pub fn generate(alloc: Global, n: u32) -> Result<Tree, NoMemory>
    requires least { 1 ≤ n }
    requires greatest { n ≤ 60 }
    ensures text { IfOk result (λ tree. canonical tree ≡ generated n) }
    ensures places { IfOk result HasNoPlaces }
{
    let name = numbered(alloc, b"gen", n)?;
    let items = items(alloc, n)?;
    Ok(Tree {
        name,
        period: Number {
            value: 50,
            place: START,
        },
        splits: None,
        depth: None,
        items,
    })
}
