ghost use Rattle.std.specs.Prelude.{◌≡◌, ◌++◌, IsTrue, IfOk, OnOk};
ghost use Rattle.std.specs.List.{flat_map, list_all};
ghost use Rattle.ft_tree.specs.meaning.Limits.{is_item};
ghost use Rattle.ft_names.specs.meaning.Cards.{under};
ghost use Rattle.ft_names.specs.meaning.Declared.{listing};
ghost use Rattle.ft_build.specs.meaning.Tables.{build_memory, side_of};

use crate::conditions::build_cond;
use crate::terms::build_term;
use ft_base::{List, NoMemory};
use ft_core::{Memory, Side};
use ft_names::{Cards, Names, bound_value};
use ft_tree::{Item, SectionWord};
use std::alloc::Global;

fn side_of(section: SectionWord) -> Side
    ensures { result ≡ side_of section }
{
    match section {
        SectionWord::Sof => Side::Sof,
        SectionWord::In | SectionWord::Req | SectionWord::Out => Side::Req,
    }
}

// Adds the memory that an item declares, where it does.
fn add_memory(
    memories: &mut List<Memory>,
    alloc: Global,
    names: &Names,
    cards: &Cards,
    items: &[Item],
    item: &Item,
) -> Result<(), NoMemory>
    requires named { names.now ≡ listing 0 items.now }
    requires lawful { IsTrue (list_all is_item items.now) }
    requires here { IsTrue (is_item item.now) }
    ensures { OnOk result (memories.new ≡ memories.old ++ build_memory items.now (under cards.now) item.now) }
{
    match item {
        Item::Held {
            side,
            name,
            cond,
            hold,
        } => memories.push(Memory::Held {
            name: List::copy_of(alloc, name.text.as_slice())?,
            side: side_of(*side),
            cond: build_cond(alloc, cards, cond)?,
            hold: bound_value(names, items, hold),
        }),
        Item::Hyst {
            side,
            name,
            term,
            lo,
            hi,
            start,
        } => memories.push(Memory::Hyst {
            name: List::copy_of(alloc, name.text.as_slice())?,
            side: side_of(*side),
            term: build_term(alloc, cards, term)?,
            lo: bound_value(names, items, lo),
            hi: bound_value(names, items, hi),
            start: *start,
        }),
        _ => Ok(()),
    }
}

/// The memories that items declare, in order of declaration.
pub fn build_memories(
    alloc: Global,
    names: &Names,
    cards: &Cards,
    items: &[Item],
) -> Result<List<Memory>, NoMemory>
    requires named { names.now ≡ listing 0 items.now }
    requires lawful { IsTrue (list_all is_item items.now) }
    ensures { IfOk result (λ memories. memories ≡ flat_map (build_memory items.now (under cards.now)) items.now) }
{
    let mut memories = List::new(alloc);
    for item in items {
        add_memory(&mut memories, alloc, names, cards, items, item)?;
    }
    Ok(memories)
}
