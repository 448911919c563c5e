ghost use Rattle.std.specs.Prelude.{◌≡◌, ◌∷◌, [], map, codes, slice_get, Some, IfOk};
ghost use Rattle.ft_build.specs.meaning.Variables.{member_names, value_members};

use ft_base::{List, NoMemory, Text};
use ft_names::Values;
use ft_tree::{Item, Word};
use std::alloc::Global;

// The texts of words.
fn word_texts(alloc: Global, words: &[Word]) -> Result<List<Text>, NoMemory>
    ensures { IfOk result (λ list. list ≡ map (λ word. word.text) words.now) }
{
    let mut list = List::new(alloc);
    for word in words {
        list.push(List::copy_of(alloc, word.text.as_slice())?)?;
    }
    Ok(list)
}

// The members of the enum type that an item declares.
fn member_names(alloc: Global, item: &Item) -> Result<List<Text>, NoMemory>
    ensures { IfOk result (λ list. list ≡ member_names (Some item.now)) }
{
    match item {
        Item::EnumType { members, .. } => word_texts(alloc, members.as_slice()),
        _ => Ok(List::new(alloc)),
    }
}

// The members of the enum type that the item of this number declares.
fn members_at(alloc: Global, items: &[Item], number: u32) -> Result<List<Text>, NoMemory>
    ensures { IfOk result (λ list. list ≡ member_names (slice_get items.now number)) }
{
    match items.get(number as usize) {
        Some(item) => member_names(alloc, item),
        None => Ok(List::new(alloc)),
    }
}

// `false` and `true`, in this order.
fn truth_names(alloc: Global) -> Result<List<Text>, NoMemory>
    ensures { IfOk result (λ list. list ≡ codes "false" ∷ codes "true" ∷ []) }
{
    let mut list = List::new(alloc);
    list.push(List::copy_of(alloc, b"false")?)?;
    list.push(List::copy_of(alloc, b"true")?)?;
    Ok(list)
}

/// The members of values that have some.
pub fn value_members(alloc: Global, items: &[Item], values: Values) -> Result<List<Text>, NoMemory>
    ensures { IfOk result (λ list. list ≡ value_members items.now values) }
{
    match values {
        Values::Members { item, .. } => members_at(alloc, items, item),
        Values::Truths => truth_names(alloc),
        Values::Numbers { .. } | Values::Untyped => Ok(List::new(alloc)),
    }
}
