ghost use Rattle.std.specs.Prelude.{◌≡◌, ◌+◌, ◌<◌, ◌^◌, ◌++◌, IfOk, OnOk, length};
ghost use Rattle.ft_admit.specs.meaning.Cycles.{declares_item, item_name, number_after, number_if, numbering, numbers_from, scan_names};
ghost use Rattle.ft_admit.specs.stages.Sorts.{declares};

use ft_base::{Duplicate, List, NoMemory, Text};
use ft_tree::Item;
use std::alloc::Global;

/// Variables or memories.
#[derive(Clone, Copy, PartialEq, Eq, Drop)]
pub enum Sort {
    Variable,
    Memory,
}

impl Sort {
    // Whether an item declares one of these.
    fn declares(self, item: &Item) -> bool
        ensures { result ≡ declares self item.now }
    {
        match item {
            Item::Variable { .. } => self == Sort::Variable,
            Item::Held { .. } | Item::Hyst { .. } => self == Sort::Memory,
            _ => false,
        }
    }
}

// The number of the next variable or memory after an item.
fn number_after(number: u32, item: &Item) -> u32
    requires { number + 1 < 2 ^ 32 }
    ensures { result ≡ number_after number item.now }
{
    match item {
        Item::Variable { .. } | Item::Held { .. } | Item::Hyst { .. } => number + 1,
        _ => number,
    }
}

// Adds the number of an item, where it declares one of these.
fn add_number(numbers: &mut List<u32>, sort: Sort, number: u32, item: &Item) -> Result<(), NoMemory>
    ensures { OnOk result (numbers.new ≡ numbers.old ++ number_if (declares sort) number item.now) }
{
    if sort.declares(item) {
        numbers.push(number)
    } else {
        Ok(())
    }
}

// Adds the numbers of the variables or of the memories among items.
fn add_numbers(numbers: &mut List<u32>, sort: Sort, items: &[Item]) -> Result<(), NoMemory>
    requires { length items.now < 2 ^ 32 }
    ensures { OnOk result (numbers.new ≡ numbers.old ++ numbers_from (declares sort) 0 items.now) }
{
    let mut number = 0;
    for item in items {
        add_number(numbers, sort, number, item)?;
        number = number_after(number, item);
    }
    Ok(())
}

/// The number of each variable among items, and after them of each memory, where both are numbered together in order of declaration.
pub fn numbering(alloc: Global, items: &[Item]) -> Result<List<u32>, NoMemory>
    requires { length items.now < 2 ^ 32 }
    ensures { IfOk result (λ numbers. numbers ≡ numbering items.now) }
{
    let mut numbers = List::new(alloc);
    add_numbers(&mut numbers, Sort::Variable, items)?;
    add_numbers(&mut numbers, Sort::Memory, items)?;
    Ok(numbers)
}

// Adds the name of an item, where it declares a variable or a memory.
fn add_name(names: &mut List<Text>, alloc: Global, item: &Item) -> Result<(), NoMemory>
    ensures { OnOk result (names.new ≡ names.old ++ item_name item.now) }
{
    match item {
        Item::Variable { name, .. } => names.push(name.text.duplicate(alloc)?),
        Item::Held { name, .. } => names.push(name.text.duplicate(alloc)?),
        Item::Hyst { name, .. } => names.push(name.text.duplicate(alloc)?),
        _ => Ok(()),
    }
}

/// The names of the variables and memories among items, by their numbers.
pub fn scan_names(alloc: Global, items: &[Item]) -> Result<List<Text>, NoMemory>
    ensures { IfOk result (λ names. names ≡ scan_names items.now) }
{
    let mut names = List::new(alloc);
    for item in items {
        add_name(&mut names, alloc, item)?;
    }
    Ok(names)
}
