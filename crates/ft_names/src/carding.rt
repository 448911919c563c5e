ghost use Rattle.std.specs.Prelude.{◌≡◌, ◌+◌, ◌<◌, ◌^◌, ◌++◌, ◌∷◌, [], IsTrue, IfOk, OnOk, length, map};
ghost use Rattle.std.specs.List.{enumerate_from, flat_map, list_all, sum_by};
ghost use Rattle.ft_tree.specs.meaning.Limits.{facts_of, is_item};
ghost use Rattle.ft_names.specs.declared.card.Card.TheVariants.{Block, Invariant, Member, TypeName};
ghost use Rattle.ft_names.specs.declared.card.Values.TheVariants.{Members};
ghost use Rattle.ft_names.specs.meaning.Declared.{listing};
ghost use Rattle.ft_names.specs.meaning.Cards.{cards_of, fact_cards, item_cards, member_card};
ghost use Rattle.ft_names.specs.naming.Counting.{cards_in, counts_before};

use crate::card::{Card, Values};
use crate::counts::Counts;
use crate::names::Names;
use crate::values::{bound_value, constant_value, kind_values, range_values};
use ft_base::{List, NoMemory};
use ft_tree::{FactItem, Item, Word};
use std::alloc::Global;

// Adds the cards of the members of the enum type that an item declares.
fn add_members(list: &mut List<Card>, members: &[Word], item: u32) -> Result<(), NoMemory>
    requires { length members.now < 2 ^ 32 }
    ensures { OnOk result (list.new ≡ list.old ++ cards_in (map (member_card item) (enumerate_from 0 members.now))) }
{
    for position in 0..members.len() {
        list.push(Card::Member {
            item,
            position: position as u32,
        })?;
    }
    Ok(())
}

// Adds the card of the invariant that a fact shows.
fn add_fact(
    list: &mut List<Card>,
    fact: &FactItem,
    block: u32,
    position: u32,
) -> Result<(), NoMemory>
    ensures { OnOk result (list.new ≡ list.old ++ cards_in (fact_cards block (position, fact.now))) }
{
    match fact {
        FactItem::Shows { .. } => list.push(Card::Invariant {
            block,
            fact: position,
        }),
        FactItem::Goal { .. } => Ok(()),
    }
}

// Adds the cards of the invariants that the facts of a block show.
fn add_facts(list: &mut List<Card>, facts: &[FactItem], block: u32) -> Result<(), NoMemory>
    requires { length facts.now < 2 ^ 32 }
    ensures { OnOk result (list.new ≡ list.old ++ cards_in (flat_map (fact_cards block) (enumerate_from 0 facts.now))) }
{
    for (position, fact) in facts.iter().enumerate() {
        add_fact(list, fact, block, position as u32)?;
    }
    Ok(())
}

// Adds the cards of an enum type and of its members.
fn add_enum(list: &mut List<Card>, members: &[Word], item: u32) -> Result<(), NoMemory>
    requires { length members.now < 2 ^ 32 }
    ensures { OnOk result (list.new ≡ list.old ++ TypeName (Members item (length members.now))
        ∷ cards_in (map (member_card item) (enumerate_from 0 members.now))) }
{
    list.push(Card::TypeName(Values::Members {
        item,
        count: members.len() as u32,
    }))?;
    add_members(list, members, item)
}

// Adds the cards of a block and of the invariants that it shows.
fn add_block(list: &mut List<Card>, facts: &[FactItem], block: u32) -> Result<(), NoMemory>
    requires { length facts.now < 2 ^ 32 }
    ensures { OnOk result (list.new ≡ list.old ++ Block block ∷ cards_in (flat_map (fact_cards block) (enumerate_from 0 facts.now))) }
{
    list.push(Card::Block(block))?;
    add_facts(list, facts, block)
}

// Adds the cards of the names that an item declares.
fn add_item(
    list: &mut List<Card>,
    names: &Names,
    items: &[Item],
    item: &Item,
    number: u32,
    counts: Counts,
) -> Result<(), NoMemory>
    requires named { names.now ≡ listing 0 items.now }
    requires lawful { IsTrue (list_all is_item items.now) }
    requires here { IsTrue (is_item item.now) }
    requires facts { facts_of item.now < 2 ^ 32 }
    requires counts { counts ≡ counts_before items.now number }
    ensures { OnOk result (list.new ≡ list.old ++ cards_in (item_cards items.now number item.now)) }
{
    match item {
        Item::Constant { .. } => list.push(Card::Constant(constant_value(item))),
        Item::RangeType { lo, hi, .. } => {
            list.push(Card::TypeName(range_values(names, items, lo, hi)))
        }
        Item::EnumType { members, .. } => add_enum(list, members.as_slice(), number),
        Item::Variable { kind, of, .. } => list.push(Card::Variable {
            place: counts.variables,
            kind: *kind,
            values: kind_values(names, items, of),
        }),
        Item::Held { side, hold, .. } => list.push(Card::Memory {
            place: counts.memories,
            side: *side,
            hold: Some(bound_value(names, items, hold)),
        }),
        Item::Hyst { side, .. } => list.push(Card::Memory {
            place: counts.memories,
            side: *side,
            hold: None,
        }),
        Item::Normal { .. } | Item::Inverted { .. } | Item::Vector { .. } | Item::Nat { .. } => {
            Ok(())
        }
        Item::Block { facts, .. } => add_block(list, facts.as_slice(), counts.blocks),
    }
}

/// What each declared name of items stands for, in order of declaration.
pub fn card_list(alloc: Global, names: &Names, items: &[Item]) -> Result<List<Card>, NoMemory>
    requires named { names.now ≡ listing 0 items.now }
    requires lawful { IsTrue (list_all is_item items.now) }
    requires few { length items.now < 2 ^ 32 }
    requires facts { sum_by facts_of items.now < 2 ^ 32 }
    ensures { IfOk result (λ list. list ≡ cards_in (cards_of items.now)) }
{
    let mut list = List::new(alloc);
    let mut counts = Counts {
        variables: 0,
        memories: 0,
        blocks: 0,
    };
    for (number, item) in items.iter().enumerate() {
        add_item(&mut list, names, items, item, number as u32, counts)?;
        counts = counts.after(item);
    }
    Ok(list)
}
