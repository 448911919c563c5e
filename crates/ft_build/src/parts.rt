ghost use Rattle.std.specs.Prelude.{◌≡◌, IsTrue, IfOk};
ghost use Rattle.ft_tree.specs.meaning.Limits.{is_option};
ghost use Rattle.ft_names.specs.meaning.Cards.{cards_of, under};
ghost use Rattle.ft_names.specs.meaning.Declared.{listing};
ghost use Rattle.ft_build.specs.meaning.Sets.{or_default, set_in, set_of};

use crate::blocks::build_blocks;
use crate::clauses::build_clauses;
use crate::memories::build_memories;
use crate::tables::build_tables;
use crate::variables::build_vars;
use ft_base::{List, NoMemory, Text};
use ft_core::{Block, Cond, Memory, Table, Var};
use ft_names::{Cards, Names, few_items};
use ft_tree::{NatWord, Number, Tree};
use std::alloc::Global;

/// The parts of a set, as those of a checked one, in the order of the text. Nothing of them is checked.
#[derive(Drop)]
pub struct Parts {
    pub name: Text,
    /// From one scan to the next, in milliseconds.
    pub period: i64,
    /// How many splits a search may make.
    pub splits: u32,
    /// How many scans a short list may have.
    pub depth: u32,
    pub vars: List<Var>,
    pub memories: List<Memory>,
    pub tables: List<Table>,
    /// What the environment keeps at scan 0.
    pub first: List<Cond>,
    /// What it keeps at each scan.
    pub always: List<Cond>,
    /// What it keeps from each scan to the next.
    pub step: List<Cond>,
    pub blocks: List<Block>,
}

// A number of a set's head, and what it is where it isn't there.
fn or_default(default: u32, number: Option<Number>) -> u32
    requires { IsTrue (is_option number) }
    ensures { result ≡ or_default default number }
{
    match number {
        Some(number) => number.value as u32,
        None => default,
    }
}

fn build_parts(alloc: Global, names: &Names, cards: &Cards, tree: &Tree) -> Result<Parts, NoMemory>
    requires names { names.now ≡ listing 0 tree.now.items }
    ensures { IfOk result (λ parts. parts ≡ set_in (under cards.now) tree.now.name tree.now.period tree.now.splits tree.now.depth
        tree.now.items) }
{
    few_items();
    let items = tree.items.as_slice();
    Ok(Parts {
        name: List::copy_of(alloc, tree.name.as_slice())?,
        period: tree.period.value as i64,
        splits: or_default(200_000, tree.splits),
        depth: or_default(4, tree.depth),
        vars: build_vars(alloc, names, cards, items)?,
        memories: build_memories(alloc, names, cards, items)?,
        tables: build_tables(alloc, cards, items)?,
        first: build_clauses(alloc, cards, NatWord::First, items)?,
        always: build_clauses(alloc, cards, NatWord::Always, items)?,
        step: build_clauses(alloc, cards, NatWord::Step, items)?,
        blocks: build_blocks(alloc, cards, items)?,
    })
}

/// The parts of the set that a tree spells. They are a function of the tree, whatever faults it has: a name that stands for nothing
/// of the kind that is wanted counts as the number 0, the condition `false` or the first variable, and bounds that are no range
/// count as 0 alone.
pub fn build_set(
    alloc: Global,
    names: &Names,
    cards: &Cards,
    tree: &Tree,
) -> Result<Parts, NoMemory>
    requires names { names.now ≡ listing 0 tree.now.items }
    requires cards { cards.now ≡ cards_of tree.now.items }
    ensures { IfOk result (λ parts. parts ≡ set_of tree.now.name tree.now.period tree.now.splits tree.now.depth tree.now.items) }
{
    build_parts(alloc, names, cards, tree)
}
