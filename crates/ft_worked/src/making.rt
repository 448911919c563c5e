//! What the worked sets are made of.
ghost use Rattle.std.specs.Prelude.{◌≡◌, [], ◌∷◌, ◌++◌, pos, IfOk, OnOk};
ghost use Rattle.ft_core.specs.declared.term.Cond.TheVariants.{Compare, Memory, Not};
ghost use Rattle.ft_core.specs.declared.term.Term.TheVariants.{Now, Num};
ghost use Rattle.ft_worked.specs.Made.{variable};

use ft_base::{Boxed, List, NoMemory, Range, Text};
use ft_core::{Cond, Rel, Term, Var, VarKind};
use std::alloc::Global;

pub(crate) fn only<T: Drop>(alloc: Global, item: T) -> Result<List<T>, NoMemory>
    ensures { IfOk result (λ list. list ≡ item ∷ []) }
{
    let mut list = List::new(alloc);
    list.push(item)?;
    Ok(list)
}

pub(crate) fn pair<T: Drop>(alloc: Global, first: T, second: T) -> Result<List<T>, NoMemory>
    ensures { IfOk result (λ list. list ≡ first ∷ second ∷ []) }
{
    let mut list = List::new(alloc);
    list.push(first)?;
    list.push(second)?;
    Ok(list)
}

pub(crate) fn triple<T: Drop>(
    alloc: Global,
    first: T,
    second: T,
    third: T,
) -> Result<List<T>, NoMemory>
    ensures { IfOk result (λ list. list ≡ first ∷ second ∷ third ∷ []) }
{
    let mut list = List::new(alloc);
    list.push(first)?;
    list.push(second)?;
    list.push(third)?;
    Ok(list)
}

/// A name of one letter.
pub(crate) fn letter(alloc: Global, byte: u8) -> Result<Text, NoMemory>
    ensures { IfOk result (λ text. text ≡ byte ∷ []) }
{
    only(alloc, byte)
}

/// A variable from 0 up.
pub(crate) fn number(
    name: Text,
    kind: VarKind,
    place: u32,
    top: u16,
    init: i64,
    members: List<Text>,
) -> Var
    ensures { result ≡ record { name = name; kind = kind; place = place; range = (pos 0, pos top); members = members; init = init } }
{
    match Range::new(0, i64::from(top)) {
        Some(range) => Var {
            name,
            kind,
            place,
            range,
            members,
            init,
        },
        None => unreachable!(),
    }
}

/// A variable from 0 up, named by a letter.
fn named(
    alloc: Global,
    byte: u8,
    kind: VarKind,
    place: u32,
    top: u16,
    init: i64,
) -> Result<Var, NoMemory>
    ensures { IfOk result (λ v. v ≡ variable byte kind place (pos top) init) }
{
    let name = letter(alloc, byte)?;
    Ok(number(name, kind, place, top, init, List::new(alloc)))
}

/// Adds such a variable to a list.
pub(crate) fn declare(
    alloc: Global,
    list: &mut List<Var>,
    byte: u8,
    kind: VarKind,
    place: u32,
    top: u16,
    init: i64,
) -> Result<(), NoMemory>
    ensures { OnOk result (list.new ≡ list.old ++ variable byte kind place (pos top) init ∷ []) }
{
    list.push(named(alloc, byte, kind, place, top, init)?)?;
    Ok(())
}

pub(crate) fn compared(relation: Rel, variable: u32, number: i64) -> Cond
    ensures { result ≡ Compare relation (Now variable) (Num number) }
{
    Cond::Compare(relation, Term::Now(variable), Term::Num(number))
}

/// A memory, and its opposite.
pub(crate) fn memory_or_not(alloc: Global, memory: u32) -> Result<List<Cond>, NoMemory>
    ensures { IfOk result (λ list. list ≡ Memory memory ∷ Not (Memory memory) ∷ []) }
{
    let other = Boxed::new(alloc, Cond::Memory(memory))?;
    pair(alloc, Cond::Memory(memory), Cond::Not(other))
}
