ghost use Rattle.std.specs.Prelude.{◌≡◌, ◌<◌, ◌^◌, length, IfOk, IsTrue};
ghost use Rattle.std.specs.List.{list_all, list_any};
ghost use Rattle.ft_tree.specs.meaning.Limits.{is_item};
ghost use Rattle.ft_names.specs.meaning.Declared.{listing};
ghost use Rattle.ft_names.specs.meaning.First.{Answers};
ghost use Rattle.ft_names.specs.meaning.NameFaults.{AnswersNames, declares_controlled, declares_monitored, name_fault, no_variable, wanted};

use crate::declare::declare_items;
use crate::fault::NameFault;
use crate::names::Names;
use crate::stop::Stop;
use crate::unknown::Unknown;
use crate::walk::judge_set;
use ft_core::VarKind;
use ft_tree::{Item, Tree, VarWord};
use std::alloc::Global;

fn declares_monitored(item: &Item) -> bool
    ensures { result ≡ declares_monitored item.now }
{
    match item {
        Item::Variable {
            kind: VarWord::Mon,
            ..
        } => true,
        _ => false,
    }
}

fn declares_controlled(item: &Item) -> bool
    ensures { result ≡ declares_controlled item.now }
{
    match item {
        Item::Variable {
            kind: VarWord::Con,
            ..
        } => true,
        _ => false,
    }
}

fn has_monitored(items: &[Item]) -> bool
    ensures { result ≡ list_any declares_monitored items.now }
{
    items.iter().any(|item| declares_monitored(item))
}

fn has_controlled(items: &[Item]) -> bool
    ensures { result ≡ list_any declares_controlled items.now }
{
    items.iter().any(|item| declares_controlled(item))
}

// The fault of a kind of which there is no variable.
fn wanted(kind: VarKind, there: bool) -> Result<(), Stop<NameFault>>
    ensures { Answers result (wanted kind there) }
{
    if there {
        Ok(())
    } else {
        Err(Stop::Fault(NameFault::NoVariable { kind }))
    }
}

// Looks for a monitored and for a controlled variable.
fn need_variables(items: &[Item]) -> Result<(), Stop<NameFault>>
    ensures { Answers result (no_variable items.now) }
{
    wanted(VarKind::Mon, has_monitored(items))?;
    wanted(VarKind::Con, has_controlled(items))
}

// The names of items, with each kind of fault asked for in turn.
fn resolve_items(alloc: Global, items: &[Item]) -> Result<Names, Stop<NameFault>>
    requires lawful { IsTrue (list_all is_item items.now) }
    requires few { length items.now < 2 ^ 32 }
    requires room { length (listing 0 items.now) < 2 ^ 32 }
    ensures answers { Answers result (name_fault items.now) }
    ensures names { IfOk result (λ names. names ≡ listing 0 items.now) }
{
    need_variables(items)?;
    let names = declare_items(alloc, items)?;
    let unknown = Unknown {
        alloc,
        names: &names,
    };
    judge_set(&unknown, items)?;
    Ok(names)
}

/// The names that a tree declares, in order, each with the number of its item. Else the first fault of names: of the kinds
/// NoVariable, DuplicateName, UnknownName the first that occurs, at its first place in the text; or want of memory.
pub fn resolve(alloc: Global, tree: &Tree) -> Result<Names, NameFault>
    ensures answers { AnswersNames result (name_fault tree.now.items) }
    ensures names { IfOk result (λ names. names ≡ listing 0 tree.now.items) }
{
    Ok(resolve_items(alloc, tree.items.as_slice())?)
}
