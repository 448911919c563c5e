ghost use Rattle.std.specs.Prelude.{◌≡◌, None, IfOk, OnOk};
ghost use Rattle.ft_names.specs.meaning.Cards.{cards_of};
ghost use Rattle.ft_names.specs.meaning.Declared.{listing};
ghost use Rattle.ft_admit.specs.meaning.TypeFaults.{AnswersType, fault_before_circles};
ghost use Rattle.ft_admit.specs.stages.Chain.{grid_fault, number_fault, place_fault};

use crate::fault::TypeFault;
use ft_measure::judge_slopes;
use ft_names::{Cards, Names, resolve};
use ft_tree::Tree;
use ft_types::{
    judge_bands, judge_holds, judge_kinds, judge_ranges, judge_shapes, judge_sides, judge_tables,
};
use std::alloc::Global;

/// The declared names of a tree, and what they stand for.
#[derive(Drop)]
pub struct Known {
    pub names: Names,
    pub cards: Cards,
}

// Looks for what stands on a wrong side, is of a wrong kind or isn't linear.
fn judge_places(alloc: Global, cards: &Cards, tree: &Tree) -> Result<(), TypeFault>
    requires { cards.now ≡ cards_of tree.now.items }
    ensures { AnswersType result (place_fault tree.now) }
{
    judge_sides(alloc, cards, tree)?;
    judge_kinds(cards, tree)?;
    judge_slopes(cards, tree)?;
    Ok(())
}

// Looks for numbers out of their ranges.
fn judge_numbers(names: &Names, tree: &Tree) -> Result<(), TypeFault>
    requires { names.now ≡ listing 0 tree.now.items }
    ensures { AnswersType result (number_fault tree.now) }
{
    judge_ranges(names, tree)?;
    judge_holds(names, tree)?;
    judge_bands(names, tree)?;
    Ok(())
}

// Looks for rows of a wrong length, and for tables that are wanting or twice there.
fn judge_grids(alloc: Global, tree: &Tree) -> Result<(), TypeFault>
    ensures { AnswersType result (grid_fault tree.now) }
{
    judge_shapes(alloc, tree)?;
    judge_tables(alloc, tree)?;
    Ok(())
}

/// What the names of a tree stand for, where it has no fault from NoVariable to TwoTables.
pub fn judge_tree(alloc: Global, tree: &Tree) -> Result<Known, TypeFault>
    ensures answers { AnswersType result (fault_before_circles tree.now) }
    ensures names { IfOk result (λ known. known.names ≡ listing 0 tree.now.items) }
    ensures cards { IfOk result (λ known. known.cards ≡ cards_of tree.now.items) }
{
    let names = resolve(alloc, tree)?;
    // The cards keep names of their own.
    let cards = Cards::of(alloc, resolve(alloc, tree)?, tree)?;
    judge_places(alloc, &cards, tree)?;
    judge_numbers(&names, tree)?;
    judge_grids(alloc, tree)?;
    Ok(Known { names, cards })
}
