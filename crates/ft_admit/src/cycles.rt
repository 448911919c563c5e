ghost use Rattle.std.specs.Prelude.{◌≡◌, ◌<◌, ℕ, [], length, map, slice_index_or, Contains, None, IfOk, IfErr, OnOk};
ghost use Rattle.ft_core.specs.meaning.Order.{AreItems};
ghost use Rattle.ft_core.specs.checked.Sound.{HasOrder};
ghost use Rattle.ft_core.specs.meaning.Items.{AreReads};
ghost use Rattle.ft_admit.specs.meaning.Cycles.{HasNoCycle, IsCycle, numbering};
ghost use Rattle.ft_admit.specs.meaning.Trees.{set_of_tree};
ghost use Rattle.ft_admit.specs.meaning.TypeFaults.{fault_before_circles};
ghost use Rattle.ft_admit.specs.stages.Circles.{IsCycleFault};

use crate::fault::TypeFault;
use crate::forms_law::lawful_form;
use crate::numbers::{numbering, scan_names};
use crate::terms_law::lawful_terms;
use ft_base::{Duplicate, List, NoMemory, Text};
use ft_build::Parts;
use ft_core::{OrderFault, order, order_gives_set_order, reads_within};
use ft_names::few_items;
use ft_tree::Tree;
use std::alloc::Global;

// The name with this number.
fn name_at(alloc: Global, names: &[Text], number: u32) -> Result<Text, NoMemory>
    requires { number < length names.now }
    ensures { IfOk result (λ name. name ≡ slice_index_or names.now number []) }
{
    names[number as usize].duplicate(alloc)
}

// The names with these numbers.
fn names_at(alloc: Global, names: &[Text], numbers: &[u32]) -> Result<List<Text>, NoMemory>
    requires { (n : ℕ) → Contains numbers.now n → n < length names.now }
    ensures { IfOk result (λ list. list ≡ map (λ n. slice_index_or names.now n []) numbers.now) }
{
    let mut list = List::new(alloc);
    for number in numbers {
        list.push(name_at(alloc, names, *number)?)?;
    }
    Ok(list)
}

// What variables and memories read of each other within one scan, by their numbers in order of declaration.
fn scan_reads(alloc: Global, tree: &Tree, parts: &Parts) -> Result<List<List<u32>>, NoMemory>
    requires set { parts.now ≡ set_of_tree tree.now }
    requires before { fault_before_circles tree.now ≡ None }
    ensures reads { IfOk result (AreReads (length parts.now.vars) parts.now.memories parts.now.tables (numbering tree.now.items)) }
    ensures items { IfOk result AreItems }
{
    few_items();
    lawful_form();
    let numbers = numbering(alloc, tree.items.as_slice())?;
    reads_within(
        alloc,
        parts.vars.len(),
        parts.memories.as_slice(),
        parts.tables.as_slice(),
        numbers.as_slice(),
    )
}

/// Looks for variables and memories of a tree that read each other in a circle within one scan.
pub fn judge_cycles(alloc: Global, tree: &Tree, parts: &Parts) -> Result<(), TypeFault>
    requires set { parts.now ≡ set_of_tree tree.now }
    requires before { fault_before_circles tree.now ≡ None }
    ensures order { OnOk result (HasOrder parts.now.vars parts.now.memories parts.now.tables) }
    ensures none { OnOk result (HasNoCycle tree.now) }
    ensures cycle { IfErr result (IsCycleFault tree.now) }
{
    lawful_form();
    lawful_terms();
    order_gives_set_order();
    let reads = scan_reads(alloc, tree, parts)?;
    match order(alloc, &reads) {
        Ok(_) => Ok(()),
        Err(OrderFault::NoMemory) => Err(TypeFault::NoMemory),
        Err(OrderFault::Cycle { items }) => {
            let names = scan_names(alloc, tree.items.as_slice())?;
            let names = names_at(alloc, names.as_slice(), items.as_slice())?;
            Err(TypeFault::Cycle { names })
        }
    }
}
