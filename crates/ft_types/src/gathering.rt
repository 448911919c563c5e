ghost use Rattle.std.specs.Prelude.{◌≡◌, ◌+◌, ◌*◌, ◌≤◌, ◌<◌, ◌^◌, ◌∷◌, [], IsTrue, IfOk, OnOk, length, map};
ghost use Rattle.std.specs.List.{list_all};
ghost use Rattle.std.specs.Option.{option_or};
ghost use Rattle.ft_tree.specs.meaning.Limits.{is_item};
ghost use Rattle.ft_types.specs.gathering.Gathered.{AreGathered, Gathers, again};
ghost use Rattle.ft_types.specs.meaning.Targets.{item_targets, section_of, targets};

use crate::fault::ItemFault;
use crate::shapes::title;
use ft_base::{List, NoMemory};
use ft_core::Section;
use ft_names::Names;
use ft_tree::{Item, SectionWord, VRow, Word};
use std::alloc::Global;

/// A section by its word.
pub fn section_of(section: SectionWord) -> Section
    ensures { result ≡ section_of section }
{
    match section {
        SectionWord::In => Section::In,
        SectionWord::Req => Section::Req,
        SectionWord::Sof => Section::Sof,
        SectionWord::Out => Section::Out,
    }
}

// Keeps a target that stands before, where it is the first such.
fn keep_second(
    second: &mut Option<ItemFault>,
    alloc: Global,
    section: SectionWord,
    word: &Word,
    new: bool,
) -> Result<(), NoMemory>
    ensures { OnOk result (second.new ≡ option_or second.old (again new section word.now)) }
{
    if new {
        return Ok(());
    }
    if second.is_some() {
        return Ok(());
    }
    let name = List::copy_of(alloc, word.text.as_slice())?;
    *second = Some(ItemFault::TwoTables {
        section: section_of(section),
        name,
        place: word.place,
    });
    Ok(())
}

// Takes one target, and keeps it where it is the first that stands twice.
fn gather(
    titles: &mut Names,
    second: &mut Option<ItemFault>,
    alloc: Global,
    section: SectionWord,
    word: &Word,
) -> Result<(), NoMemory>
    requires { length titles.old + 1 < 2 ^ 32 }
    ensures gathers { OnOk result (Gathers titles.old titles.new second.old second.new ((section, word.now) ∷ [])) }
    ensures few { OnOk result (length titles.new ≤ length titles.old + 1) }
{
    let title = title(alloc, section, word.text.as_slice())?;
    let new = titles.add(alloc, title.as_slice(), 0)?;
    keep_second(second, alloc, section, word, new)?;
    Ok(())
}

// Takes the targets of a vector table.
fn gather_rows(
    titles: &mut Names,
    second: &mut Option<ItemFault>,
    alloc: Global,
    section: SectionWord,
    rows: &[VRow],
) -> Result<(), NoMemory>
    requires { length titles.old + length rows.now < 2 ^ 32 }
    ensures gathers { OnOk result (Gathers titles.old titles.new second.old second.new (map (λ row. (section, row.target)) rows.now)) }
    ensures few { OnOk result (length titles.new ≤ length titles.old + length rows.now) }
{
    for row in rows {
        gather(titles, second, alloc, section, &row.target)?;
    }
    Ok(())
}

// Takes the targets of an item.
fn gather_item(
    titles: &mut Names,
    second: &mut Option<ItemFault>,
    alloc: Global,
    item: &Item,
) -> Result<(), NoMemory>
    requires lawful { IsTrue (is_item item.now) }
    requires room { length titles.old + 32 < 2 ^ 32 }
    ensures gathers { OnOk result (Gathers titles.old titles.new second.old second.new (item_targets item.now)) }
    ensures few { OnOk result (length titles.new ≤ length titles.old + 32) }
{
    match item {
        Item::Normal {
            section,
            target,
            ..
        } => gather(titles, second, alloc, *section, target),
        Item::Inverted {
            section,
            target,
            ..
        } => gather(titles, second, alloc, *section, target),
        Item::Vector { section, rows, .. } => {
            gather_rows(titles, second, alloc, *section, rows.as_slice())
        }
        _ => Ok(()),
    }
}

// Takes the targets of items.
fn gather_items(
    titles: &mut Names,
    second: &mut Option<ItemFault>,
    alloc: Global,
    items: &[Item],
) -> Result<(), NoMemory>
    requires lawful { IsTrue (list_all is_item items.now) }
    requires room { length titles.old + 32 * length items.now < 2 ^ 32 }
    ensures gathers { OnOk result (Gathers titles.old titles.new second.old second.new (targets items.now)) }
{
    for item in items {
        gather_item(titles, second, alloc, item)?;
    }
    Ok(())
}

/// The titles of all that the tables of a set define, and the first name that a section defines a second time.
#[derive(Drop)]
pub struct Gathered {
    pub titles: Names,
    pub second: Option<ItemFault>,
}

/// Takes the targets of a set, in the order of the text.
pub fn gather_set(alloc: Global, items: &[Item]) -> Result<Gathered, NoMemory>
    requires lawful { IsTrue (list_all is_item items.now) }
    requires room { 32 * length items.now < 2 ^ 32 }
    ensures { IfOk result (λ g. AreGathered g.titles g.second (targets items.now)) }
{
    let mut titles = Names::new(alloc);
    let mut second = None;
    gather_items(&mut titles, &mut second, alloc, items)?;
    Ok(Gathered { titles, second })
}
