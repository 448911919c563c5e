ghost use Rattle.std.specs.Prelude.{◌≡◌, ◌++◌, map, IfOk, OnOk};
ghost use Rattle.std.specs.List.{flat_map};
ghost use Rattle.ft_names.specs.meaning.Cards.{under};
ghost use Rattle.ft_build.specs.meaning.Blocks.{block_of, build_block, card_take, card_use, fact_of, take_of, use_of};

use crate::conditions::build_cond;
use crate::expressions::variable_place;
use ft_base::{List, NoMemory};
use ft_core::{Block, Fact, Take};
use ft_names::{Card, Cards};
use ft_tree::{FactItem, Item, Word};
use std::alloc::Global;

fn card_take(card: Option<Card>) -> Take
    ensures { result ≡ card_take card }
{
    match card {
        Some(Card::Memory { place, .. }) => Take::Memory(place),
        _ => Take::Variable(variable_place(card)),
    }
}

fn card_use(card: Option<Card>) -> (u32, u32)
    ensures { result ≡ card_use card }
{
    match card {
        Some(Card::Invariant { block, fact }) => (block, fact),
        _ => (0, 0),
    }
}

// What names after `takes` stand for.
fn build_takes(alloc: Global, cards: &Cards, words: &[Word]) -> Result<List<Take>, NoMemory>
    ensures { IfOk result (λ list. list ≡ map (take_of (under cards.now)) words.now) }
{
    let mut list = List::new(alloc);
    for word in words {
        list.push(card_take(cards.find(word.text.as_slice())))?;
    }
    Ok(list)
}

// What names after `uses` stand for.
fn build_uses(alloc: Global, cards: &Cards, words: &[Word]) -> Result<List<(u32, u32)>, NoMemory>
    ensures { IfOk result (λ list. list ≡ map (use_of (under cards.now)) words.now) }
{
    let mut list = List::new(alloc);
    for word in words {
        list.push(card_use(cards.find(word.text.as_slice())))?;
    }
    Ok(list)
}

fn build_fact(alloc: Global, cards: &Cards, fact: &FactItem) -> Result<Fact, NoMemory>
    ensures { IfOk result (λ f. f ≡ fact_of (under cards.now) fact.now) }
{
    match fact {
        FactItem::Shows { name, cond } => Ok(Fact::Invariant {
            name: List::copy_of(alloc, name.text.as_slice())?,
            cond: build_cond(alloc, cards, cond)?,
        }),
        FactItem::Goal { con } => Ok(Fact::Goal {
            con: variable_place(cards.find(con.text.as_slice())),
        }),
    }
}

fn build_facts(alloc: Global, cards: &Cards, facts: &[FactItem]) -> Result<List<Fact>, NoMemory>
    ensures { IfOk result (λ list. list ≡ map (fact_of (under cards.now)) facts.now) }
{
    let mut list = List::new(alloc);
    for fact in facts {
        list.push(build_fact(alloc, cards, fact)?)?;
    }
    Ok(list)
}

fn build_block(
    alloc: Global,
    cards: &Cards,
    name: &Word,
    takes: &[Word],
    uses: &[Word],
    facts: &[FactItem],
) -> Result<Block, NoMemory>
    ensures { IfOk result (λ block. block ≡ block_of (under cards.now) name.now.text takes.now uses.now facts.now) }
{
    Ok(Block {
        name: List::copy_of(alloc, name.text.as_slice())?,
        takes: build_takes(alloc, cards, takes)?,
        uses: build_uses(alloc, cards, uses)?,
        facts: build_facts(alloc, cards, facts)?,
    })
}

// Adds the block that an item is, where it is one.
fn add_block(
    blocks: &mut List<Block>,
    alloc: Global,
    cards: &Cards,
    item: &Item,
) -> Result<(), NoMemory>
    ensures { OnOk result (blocks.new ≡ blocks.old ++ build_block (under cards.now) item.now) }
{
    match item {
        Item::Block {
            name,
            takes,
            uses,
            facts,
        } => {
            let block = build_block(
                alloc,
                cards,
                name,
                takes.as_slice(),
                uses.as_slice(),
                facts.as_slice(),
            )?;
            blocks.push(block)
        }
        _ => Ok(()),
    }
}

/// The blocks among items, in the order of the text.
pub fn build_blocks(alloc: Global, cards: &Cards, items: &[Item]) -> Result<List<Block>, NoMemory>
    ensures { IfOk result (λ blocks. blocks ≡ flat_map (build_block (under cards.now)) items.now) }
{
    let mut blocks = List::new(alloc);
    for item in items {
        add_block(&mut blocks, alloc, cards, item)?;
    }
    Ok(blocks)
}
