//! The text of a fault that a table shows at a state.
ghost use Rattle.std.specs.Prelude.{◌≡◌, ◌++◌, IfOk, OnOk};
ghost use Rattle.ft_report.specs.meaning.Report.{cell_text, gap_words, overlap_words, range_words, text_of};

use crate::lines::{add_number, refused};
use crate::report::Report;
use crate::states::add_state;
use crate::titles::add_headed;
use ft_base::{List, NoMemory, Text};
use ft_core::{State, Tables};
use std::alloc::Global;

/// Adds a row and a column.
pub(crate) fn add_cell(alloc: Global, text: &mut Text, cell: (u32, u32)) -> Result<(), NoMemory>
    ensures { OnOk result (text.new ≡ text.old ++ cell_text cell) }
{
    add_number(alloc, text, cell.0 as usize)?;
    text.push(b',')?;
    add_number(alloc, text, cell.1 as usize)
}

/// The fault of a table of which no cell holds at a state, without the end of its line.
pub fn gap_words(alloc: Global, tables: &Tables, table: u32) -> Result<Text, NoMemory>
    ensures { IfOk result (λ text. text ≡ gap_words tables.now table) }
{
    let mut text = List::new(alloc);
    add_headed(&mut text, b"Gap", tables, table)?;
    Ok(text)
}

/// The fault of a table of which two cells hold at a state, without the end of its line.
pub fn overlap_words(
    alloc: Global,
    tables: &Tables,
    table: u32,
    first: (u32, u32),
    second: (u32, u32),
) -> Result<Text, NoMemory>
    ensures { IfOk result (λ text. text ≡ overlap_words tables.now table first second) }
{
    let mut text = List::new(alloc);
    add_headed(&mut text, b"Overlap", tables, table)?;
    text.extend(b" cells ")?;
    add_cell(alloc, &mut text, first)?;
    text.push(b' ')?;
    add_cell(alloc, &mut text, second)?;
    Ok(text)
}

/// The fault of a cell that holds at a state and whose term is out of range, without the end of its line.
pub fn range_words(
    alloc: Global,
    tables: &Tables,
    table: u32,
    cell: (u32, u32),
) -> Result<Text, NoMemory>
    ensures { IfOk result (λ text. text ≡ range_words tables.now table cell) }
{
    let mut text = List::new(alloc);
    add_headed(&mut text, b"OutOfRange", tables, table)?;
    text.extend(b" cell ")?;
    add_cell(alloc, &mut text, cell)?;
    Ok(text)
}

/// The text of a table of which no cell holds at a state.
pub(crate) fn gap_text(
    alloc: Global,
    tables: &Tables,
    table: u32,
    state: &State,
) -> Result<Text, NoMemory>
    ensures { IfOk result (λ text. text ≡ text_of (Report.Gap tables.now table state.now)) }
{
    let mut text = refused(alloc, gap_words(alloc, tables, table)?)?;
    add_state(alloc, &mut text, state)?;
    Ok(text)
}

/// The text of a table of which two cells hold at a state.
pub(crate) fn overlap_text(
    alloc: Global,
    tables: &Tables,
    table: u32,
    first: (u32, u32),
    second: (u32, u32),
    state: &State,
) -> Result<Text, NoMemory>
    ensures { IfOk result (λ text. text ≡ text_of (Report.Overlap tables.now table first second state.now)) }
{
    let mut text = refused(alloc, overlap_words(alloc, tables, table, first, second)?)?;
    add_state(alloc, &mut text, state)?;
    Ok(text)
}

/// The text of a cell that holds at a state and whose term is out of range.
pub(crate) fn range_text(
    alloc: Global,
    tables: &Tables,
    table: u32,
    cell: (u32, u32),
    state: &State,
) -> Result<Text, NoMemory>
    ensures { IfOk result (λ text. text ≡ text_of (Report.OutOfRange tables.now table cell state.now)) }
{
    let mut text = refused(alloc, range_words(alloc, tables, table, cell)?)?;
    add_state(alloc, &mut text, state)?;
    Ok(text)
}
