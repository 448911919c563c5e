ghost use Rattle.std.specs.Prelude.{◌≡◌};
ghost use Rattle.ft_names.specs.meaning.Cards.{cards_of};
ghost use Rattle.ft_names.specs.meaning.Declared.{listing};
ghost use Rattle.ft_names.specs.meaning.First.{Answers, first_of};
ghost use Rattle.ft_types.specs.meaning.PlaceFaults.{first_mismatch, first_wrong_side};
ghost use Rattle.ft_types.specs.meaning.Ranges.{first_bad_range, item_band, item_hold};
ghost use Rattle.ft_types.specs.meaning.Shapes.{item_shape};
ghost use Rattle.ft_types.specs.meaning.Targets.{first_table_fault};

use crate::examine::examine_items;
use crate::fault::ItemFault;
use crate::gathering::gather_set;
use crate::lacking::{Lacks, found};
use crate::mismatch::Mismatches;
use crate::ranges::{Bands, Holds, Ranges, set_range};
use crate::shapes::Shapes;
use crate::sides::Sides;
use ft_names::{Cards, Names, Stop, few_items, judge_set};
use ft_tree::Tree;
use std::alloc::Global;

/// Looks for the first place of a tree where something stands that may not be read there, that the table's section doesn't
/// define, or that no block may take.
pub fn judge_sides(alloc: Global, cards: &Cards, tree: &Tree) -> Result<(), Stop<ItemFault>>
    requires { cards.now ≡ cards_of tree.now.items }
    ensures answers { Answers result (first_wrong_side tree.now.items) }
{
    judge_set(&Sides { alloc, cards }, tree.items.as_slice())
}

/// Looks for the first expression or name of a tree that is of the wrong kind.
pub fn judge_kinds(cards: &Cards, tree: &Tree) -> Result<(), Stop<ItemFault>>
    requires { cards.now ≡ cards_of tree.now.items }
    ensures answers { Answers result (first_mismatch tree.now.items) }
{
    judge_set(&Mismatches { cards }, tree.items.as_slice())
}

/// Looks for the first number of a tree that is out of its range: the period, the splits, the depth, a bound or an `init`.
#[tactic(auto, using(ft_names::specs::laws::First::firsts))]
pub fn judge_ranges(names: &Names, tree: &Tree) -> Result<(), Stop<ItemFault>>
    requires { names.now ≡ listing 0 tree.now.items }
    ensures { Answers result (first_bad_range tree.now.period tree.now.splits tree.now.depth tree.now.items) }
{
    set_range(tree.period, tree.splits, tree.depth)?;
    let items = tree.items.as_slice();
    examine_items(&Ranges { names, items }, items)
}

/// Looks for the first hold of a tree that is out of its range.
pub fn judge_holds(names: &Names, tree: &Tree) -> Result<(), Stop<ItemFault>>
    requires { names.now ≡ listing 0 tree.now.items }
    ensures { Answers result (first_of (item_hold tree.now.items) tree.now.items) }
{
    let items = tree.items.as_slice();
    examine_items(&Holds { names, items }, items)
}

/// Looks for the first band of a tree whose lower bound isn't below the upper one.
pub fn judge_bands(names: &Names, tree: &Tree) -> Result<(), Stop<ItemFault>>
    requires { names.now ≡ listing 0 tree.now.items }
    ensures { Answers result (first_of (item_band tree.now.items) tree.now.items) }
{
    let items = tree.items.as_slice();
    examine_items(&Bands { names, items }, items)
}

/// Looks for the first row of a tree that has not as many entries as its table's header.
pub fn judge_shapes(alloc: Global, tree: &Tree) -> Result<(), Stop<ItemFault>>
    ensures { Answers result (first_of item_shape tree.now.items) }
{
    examine_items(&Shapes { alloc }, tree.items.as_slice())
}

/// Looks for the first variable of a tree that lacks a table, and where there is none for the first that a section defines a
/// second time.
pub fn judge_tables(alloc: Global, tree: &Tree) -> Result<(), Stop<ItemFault>>
    ensures { Answers result (first_table_fault tree.now.items) }
{
    few_items();
    let items = tree.items.as_slice();
    let gathered = gather_set(alloc, items)?;
    let lacks = Lacks {
        alloc,
        titles: &gathered.titles,
        items,
    };
    examine_items(&lacks, items)?;
    found(gathered.second)
}
