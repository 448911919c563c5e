//! What the unknowns of an obligation stand for, and how a report names them.
ghost use Rattle.std.specs.Prelude.{◌≡◌, [], codes, map, slice_get, IfOk};
ghost use Rattle.ft_oblige.specs.meaning.Labels.{bit_members, bracketed, kept_label, label_of, memory_label, named, slot_at, slot_in};
ghost use Rattle.ft_oblige.specs.meaning.Labels.{value_label};

use ft_base::{Duplicate, List, NoMemory, Text};
use ft_core::{Label, Memory, Tables, Var};
use std::alloc::Global;

/// A variable or a memory, by its place, at a scan. In an obligation over two scans scan 0 is this one, and 1 the one before.
#[derive(Clone, Copy, PartialEq, Eq, Drop)]
pub enum Slot {
    /// The value of a variable.
    Variable { place: u32, scan: u32 },
    /// What is kept of a memory: its bit, or the age of a timer.
    Memory { place: u32, scan: u32 },
}

fn slot_in(tables: &Tables, scan: u32, rest: u32) -> Slot
    ensures { result ≡ slot_in tables.now scan rest }
{
    let variables = tables.vars.len() as u32;
    if rest < variables {
        Slot::Variable { place: rest, scan }
    } else {
        Slot::Memory {
            place: rest - variables,
            scan,
        }
    }
}

/// What a name of two scans stands for.
pub(crate) fn slot_at(tables: &Tables, name: u32) -> Slot
    ensures { result ≡ slot_at tables.now name }
{
    let width = (tables.vars.len() + tables.memories.len()) as u32;
    if name < width {
        slot_in(tables, 0, name)
    } else {
        slot_in(tables, 1, name - width)
    }
}

pub(crate) fn slots_of(
    alloc: Global,
    tables: &Tables,
    names: &[u32],
) -> Result<List<Slot>, NoMemory>
    ensures { IfOk result (λ slots. slots ≡ map (slot_at tables.now) names.now) }
{
    let mut slots = List::new(alloc);
    for name in names {
        slots.push(slot_at(tables, *name))?;
    }
    Ok(slots)
}

// A text in the brackets of a word.
fn bracketed(alloc: Global, word: &[u8], text: &[u8]) -> Result<Text, NoMemory>
    ensures { IfOk result (λ whole. whole ≡ bracketed word.now text.now) }
{
    let mut whole = List::copy_of(alloc, word)?;
    whole.extend(b"(")?;
    whole.extend(text)?;
    whole.extend(b")")?;
    Ok(whole)
}

// What a text is called at a scan.
fn named(alloc: Global, text: &[u8], scan: u32) -> Result<Text, NoMemory>
    ensures { IfOk result (λ whole. whole ≡ named text.now scan) }
{
    if scan == 0 {
        List::copy_of(alloc, text)
    } else {
        bracketed(alloc, b"prev", text)
    }
}

// The two truths of a bit.
fn bit_members(alloc: Global) -> Result<List<Text>, NoMemory>
    ensures { IfOk result (λ members. members ≡ bit_members) }
{
    let mut members = List::new(alloc);
    let no = List::copy_of(alloc, b"false")?;
    members.push(no)?;
    let yes = List::copy_of(alloc, b"true")?;
    members.push(yes)?;
    Ok(members)
}

fn bit_label(alloc: Global, name: &[u8], scan: u32) -> Result<Label, NoMemory>
    ensures { IfOk result (λ label. label ≡ record { name = named name.now scan; members = bit_members }) }
{
    let name = named(alloc, name, scan)?;
    let members = bit_members(alloc)?;
    Ok(Label { name, members })
}

fn age_label(alloc: Global, name: &[u8], scan: u32) -> Result<Label, NoMemory>
    ensures { IfOk result (λ label. label ≡ record { name = named (bracketed (codes "age") name.now) scan; members = [] }) }
{
    let age = bracketed(alloc, b"age", name)?;
    let name = named(alloc, age.as_slice(), scan)?;
    Ok(Label {
        name,
        members: List::new(alloc),
    })
}

fn kept_label(alloc: Global, bits: bool, memory: &Memory, scan: u32) -> Result<Label, NoMemory>
    ensures { IfOk result (λ label. label ≡ kept_label bits memory.now scan) }
{
    match memory {
        Memory::Held { name, .. } => {
            if bits {
                bit_label(alloc, name.as_slice(), scan)
            } else {
                age_label(alloc, name.as_slice(), scan)
            }
        }
        Memory::Hyst { name, .. } => bit_label(alloc, name.as_slice(), scan),
    }
}

fn value_label(
    alloc: Global,
    name: &[u8],
    members: &List<Text>,
    scan: u32,
) -> Result<Label, NoMemory>
    ensures { IfOk result (λ label. label ≡ record { name = named name.now scan; members = members.now }) }
{
    let name = named(alloc, name, scan)?;
    let members = members.duplicate(alloc)?;
    Ok(Label { name, members })
}

// A label without a name.
fn no_label(alloc: Global) -> Label
    ensures { result ≡ record { name = []; members = [] } }
{
    Label {
        name: List::new(alloc),
        members: List::new(alloc),
    }
}

fn value_at(alloc: Global, vars: &[Var], place: u32, scan: u32) -> Result<Label, NoMemory>
    ensures { IfOk result (λ label. label ≡ value_label (slice_get vars.now place) scan) }
{
    match vars.get(place as usize) {
        Some(var) => value_label(alloc, var.name.as_slice(), &var.members, scan),
        None => Ok(no_label(alloc)),
    }
}

fn kept_at(
    alloc: Global,
    bits: bool,
    memories: &[Memory],
    place: u32,
    scan: u32,
) -> Result<Label, NoMemory>
    ensures { IfOk result (λ label. label ≡ memory_label bits (slice_get memories.now place) scan) }
{
    match memories.get(place as usize) {
        Some(memory) => kept_label(alloc, bits, memory, scan),
        None => Ok(no_label(alloc)),
    }
}

fn label_of(alloc: Global, tables: &Tables, bits: bool, slot: Slot) -> Result<Label, NoMemory>
    ensures { IfOk result (λ label. label ≡ label_of tables.now bits slot) }
{
    match slot {
        Slot::Variable { place, scan } => value_at(alloc, tables.vars.as_slice(), place, scan),
        Slot::Memory { place, scan } => {
            kept_at(alloc, bits, tables.memories.as_slice(), place, scan)
        }
    }
}

/// The labels of slots: of a bit where every memory is one, and else the age of a timer.
pub(crate) fn labels_of(
    alloc: Global,
    tables: &Tables,
    bits: bool,
    slots: &[Slot],
) -> Result<List<Label>, NoMemory>
    ensures { IfOk result (λ labels. labels ≡ map (label_of tables.now bits) slots.now) }
{
    let mut labels = List::new(alloc);
    for slot in slots {
        labels.push(label_of(alloc, tables, bits, *slot)?)?;
    }
    Ok(labels)
}
