//! The titles of tables, and the names of their obligations.
ghost use Rattle.std.specs.Prelude.{◌≡◌, ◌++◌, ◌+◌, ◌*◌, ◌<◌, ◌≤◌, Some, codes, length, slice_get, IfOk, OnOk};
ghost use Rattle.ft_oblige.specs.meaning.Facts.{HasFact};
ghost use Rattle.ft_report.specs.building.Thirds.{fault_at};
ghost use Rattle.ft_report.specs.meaning.Fitting.{IsNumber, IsNumberOfFact};
ghost use Rattle.ft_report.specs.meaning.Titles.{fact_name, fact_title, fault_word, first_target, moment_word, name_at, name_of};
ghost use Rattle.ft_report.specs.meaning.Titles.{obligation_name, title, title_of};
ghost use Rattle.ft_report.specs.meaning.Words.{named};

use crate::lines::section_word;
use ft_base::{List, NoMemory, Text};
use ft_core::{Block, Fact, Grid, Table, Tables, Var};
use ft_oblige::{FactAt, fact_at, number_laws};
use std::alloc::Global;

/// The first of some variables.
fn first_of(targets: &[u32]) -> Option<u32>
    ensures { result ≡ slice_get targets.now 0 }
{
    match targets.get(0) {
        Some(target) => Some(*target),
        None => None,
    }
}

/// The first variable that a table defines, by its place in the set.
fn first_target(grid: &Grid) -> Option<u32>
    ensures { result ≡ first_target grid.now }
{
    match grid {
        Grid::Normal { target, .. } => Some(*target),
        Grid::Inverted { target, .. } => Some(*target),
        Grid::Vector { targets, .. } => first_of(targets.as_slice()),
    }
}

/// Adds the name of the variable at this place, where there is one.
fn add_name_at(text: &mut Text, vars: &[Var], place: u32) -> Result<(), NoMemory>
    ensures { OnOk result (text.new ≡ text.old ++ name_of (slice_get vars.now place)) }
{
    match vars.get(place as usize) {
        Some(var) => text.extend(var.name.as_slice()),
        None => Ok(()),
    }
}

fn add_name(text: &mut Text, vars: &[Var], place: Option<u32>) -> Result<(), NoMemory>
    ensures { OnOk result (text.new ≡ text.old ++ name_at vars.now place) }
{
    match place {
        Some(place) => add_name_at(text, vars, place),
        None => Ok(()),
    }
}

/// Adds a table's title: the word of its section and the name of the first variable that it defines.
fn add_title(text: &mut Text, vars: &[Var], table: &Table) -> Result<(), NoMemory>
    ensures { OnOk result (text.new ≡ text.old ++ title vars.now table.now) }
{
    text.extend(section_word(table.section))?;
    text.push(b' ')?;
    add_name(text, vars, first_target(&table.grid))
}

/// Adds the title of the table at this place of a set, where there is one.
fn add_title_of(text: &mut Text, tables: &Tables, table: u32) -> Result<(), NoMemory>
    ensures { OnOk result (text.new ≡ text.old ++ title_of tables.now table) }
{
    match tables.tables.as_slice().get(table as usize) {
        Some(table) => add_title(text, tables.vars.as_slice(), table),
        None => Ok(()),
    }
}

/// Adds words and the title of the table at this place of a set.
pub(crate) fn add_headed(
    text: &mut Text,
    words: &[u8],
    tables: &Tables,
    table: u32,
) -> Result<(), NoMemory>
    ensures { OnOk result (text.new ≡ text.old ++ named words.now (title_of tables.now table)) }
{
    text.extend(words)?;
    text.push(b' ')?;
    add_title_of(text, tables, table)
}

/// Adds the name of one of the three obligations of the table at this place, from 0.
fn add_one_of(text: &mut Text, tables: &Tables, table: u32, which: u32) -> Result<(), NoMemory>
    requires { which < 3 }
    ensures { OnOk result (text.new ≡ text.old ++ named (fault_word (fault_at which)) (title_of tables.now table)) }
{
    match which {
        0 => add_headed(text, b"gap", tables, table),
        1 => add_headed(text, b"overlap", tables, table),
        _ => add_headed(text, b"range", tables, table),
    }
}

/// Adds the name of a fact in its block.
fn add_fact_name(text: &mut Text, vars: &[Var], fact: &Fact) -> Result<(), NoMemory>
    ensures { OnOk result (text.new ≡ text.old ++ fact_name vars.now (Some fact.now)) }
{
    match fact {
        Fact::Invariant { name, .. } => text.extend(name.as_slice()),
        Fact::Goal { con } => {
            text.extend(b"goal.")?;
            add_name_at(text, vars, *con)
        }
    }
}

/// Adds the name of a block and of a fact in it.
fn add_names(text: &mut Text, vars: &[Var], owner: &Block, fact: &Fact) -> Result<(), NoMemory>
    ensures { OnOk result (text.new ≡ text.old ++ (owner.now.name ++ codes "." ++ fact_name vars.now (Some fact.now))) }
{
    text.extend(owner.name.as_slice())?;
    text.push(b'.')?;
    add_fact_name(text, vars, fact)
}

/// Adds the name of a block and of its fact at these places.
fn add_fact_title(text: &mut Text, tables: &Tables, block: u32, fact: u32) -> Result<(), NoMemory>
    requires { HasFact tables.now block fact }
    ensures { OnOk result (text.new ≡ text.old ++ fact_title tables.now block fact) }
{
    let owner = tables.blocks.get(block as usize);
    let fact = owner.facts.get(fact as usize);
    add_names(text, tables.vars.as_slice(), owner, fact)
}

fn moment_word(anew: bool) -> &'static [u8]
    ensures { result.now ≡ moment_word anew }
{
    if anew { b"first" } else { b"later" }
}

/// Adds the name of an obligation of the fact at this place.
fn add_fact_at(text: &mut Text, tables: &Tables, at: FactAt) -> Result<(), NoMemory>
    requires { HasFact tables.now at.block at.fact }
    ensures { OnOk result (text.new ≡ text.old ++ named (moment_word at.anew) (fact_title tables.now at.block at.fact)) }
{
    text.extend(moment_word(at.anew))?;
    text.push(b' ')?;
    add_fact_title(text, tables, at.block, at.fact)
}

/// Adds the name of the obligation of a fact with this number.
fn add_obligation_of_fact(text: &mut Text, tables: &Tables, number: u32) -> Result<(), NoMemory>
    requires { IsNumberOfFact tables.now number }
    ensures { OnOk result (text.new ≡ text.old ++ obligation_name tables.now number) }
{
    let at = fact_at(tables, number);
    add_fact_at(text, tables, at)
}

/// How many threes come before a number, and the rest.
fn thirds(number: u32) -> (u32, u32)
    ensures sum { number ≡ 3 * result.0 + result.1 }
    ensures rest { result.1 < 3 }
{
    (number / 3, number % 3)
}

/// Adds the name of the obligation of a table with this number, from 1.
fn add_obligation_of_table(text: &mut Text, tables: &Tables, number: u32) -> Result<(), NoMemory>
    requires some { 0 < number }
    requires below { number ≤ 3 * length tables.now.tables }
    ensures { OnOk result (text.new ≡ text.old ++ obligation_name tables.now number) }
{
    number_laws();
    let (place, which) = thirds(number - 1);
    add_one_of(text, tables, place, which)
}

/// Adds the name of the obligation with this number, from 1.
pub(crate) fn add_obligation(text: &mut Text, tables: &Tables, number: u32) -> Result<(), NoMemory>
    requires { IsNumber tables.now number }
    ensures { OnOk result (text.new ≡ text.old ++ obligation_name tables.now number) }
{
    if number as usize <= 3 * tables.tables.len() {
        add_obligation_of_table(text, tables, number)
    } else {
        add_obligation_of_fact(text, tables, number)
    }
}

/// The name of the obligation with this number, from 1.
pub fn obligation_name(alloc: Global, tables: &Tables, number: u32) -> Result<Text, NoMemory>
    requires { IsNumber tables.now number }
    ensures { IfOk result (λ text. text ≡ obligation_name tables.now number) }
{
    let mut text = List::new(alloc);
    add_obligation(&mut text, tables, number)?;
    Ok(text)
}
