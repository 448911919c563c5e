ghost use Rattle.std.specs.Prelude.{◌≡◌, ◌++◌, ◌∷◌, [], IfOk, OnOk};
ghost use Rattle.std.specs.List.{flat_map};
ghost use Rattle.ft_names.specs.meaning.Cards.{under};
ghost use Rattle.ft_build.specs.meaning.Tables.{build_table, inverted_grid, normal_grid, section_of, table_of, vector_grid};

use crate::expressions::{
    build_conds, build_heads, build_row_conds, build_row_terms, build_targets, build_terms,
    build_vector_terms, variable_place,
};
use ft_base::{List, NoMemory};
use ft_core::{Grid, Section, Table};
use ft_names::Cards;
use ft_tree::{Expr, Item, Row, SectionWord, VRow, Word};
use std::alloc::Global;

fn section_of(section: SectionWord) -> Section
    ensures { result ≡ section_of section }
{
    match section {
        SectionWord::In => Section::In,
        SectionWord::Req => Section::Req,
        SectionWord::Sof => Section::Sof,
        SectionWord::Out => Section::Out,
    }
}

fn normal_grid(
    alloc: Global,
    cards: &Cards,
    target: &Word,
    columns: &[Expr],
    rows: &[Row],
) -> Result<Grid, NoMemory>
    ensures { IfOk result (λ grid. grid ≡ normal_grid (under cards.now) target.now.text columns.now rows.now) }
{
    Ok(Grid::Normal {
        target: variable_place(cards.find(target.text.as_slice())),
        columns: build_conds(alloc, cards, columns)?,
        rows: build_heads(alloc, cards, rows)?,
        terms: build_row_terms(alloc, cards, rows)?,
    })
}

fn inverted_grid(
    alloc: Global,
    cards: &Cards,
    target: &Word,
    headers: &[Expr],
    rows: &[Row],
) -> Result<Grid, NoMemory>
    ensures { IfOk result (λ grid. grid ≡ inverted_grid (under cards.now) target.now.text headers.now rows.now) }
{
    Ok(Grid::Inverted {
        target: variable_place(cards.find(target.text.as_slice())),
        terms: build_terms(alloc, cards, headers)?,
        rows: build_heads(alloc, cards, rows)?,
        grid: build_row_conds(alloc, cards, rows)?,
    })
}

fn vector_grid(
    alloc: Global,
    cards: &Cards,
    columns: &[Expr],
    rows: &[VRow],
) -> Result<Grid, NoMemory>
    ensures { IfOk result (λ grid. grid ≡ vector_grid (under cards.now) columns.now rows.now) }
{
    Ok(Grid::Vector {
        columns: build_conds(alloc, cards, columns)?,
        targets: build_targets(alloc, cards, rows)?,
        terms: build_vector_terms(alloc, cards, rows)?,
    })
}

// Adds a table of a section.
fn add_grid(tables: &mut List<Table>, section: SectionWord, grid: Grid) -> Result<(), NoMemory>
    ensures { OnOk result (tables.new ≡ tables.old ++ table_of section grid ∷ []) }
{
    tables.push(Table {
        section: section_of(section),
        grid,
    })
}

// Adds the table that an item is, where it is one.
fn add_table(
    tables: &mut List<Table>,
    alloc: Global,
    cards: &Cards,
    item: &Item,
) -> Result<(), NoMemory>
    ensures { OnOk result (tables.new ≡ tables.old ++ build_table (under cards.now) item.now) }
{
    match item {
        Item::Normal {
            section,
            target,
            columns,
            rows,
        } => {
            let grid = normal_grid(alloc, cards, target, columns.as_slice(), rows.as_slice())?;
            add_grid(tables, *section, grid)
        }
        Item::Inverted {
            section,
            target,
            terms,
            rows,
        } => {
            let grid = inverted_grid(alloc, cards, target, terms.as_slice(), rows.as_slice())?;
            add_grid(tables, *section, grid)
        }
        Item::Vector {
            section,
            columns,
            rows,
        } => {
            let grid = vector_grid(alloc, cards, columns.as_slice(), rows.as_slice())?;
            add_grid(tables, *section, grid)
        }
        _ => Ok(()),
    }
}

/// The tables among items, in the order of the text.
pub fn build_tables(alloc: Global, cards: &Cards, items: &[Item]) -> Result<List<Table>, NoMemory>
    ensures { IfOk result (λ tables. tables ≡ flat_map (build_table (under cards.now)) items.now) }
{
    let mut tables = List::new(alloc);
    for item in items {
        add_table(&mut tables, alloc, cards, item)?;
    }
    Ok(tables)
}
