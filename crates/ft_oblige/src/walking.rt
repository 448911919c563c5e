//! What is claimed of the cells of a table, row by row.
ghost use Rattle.std.specs.Prelude.{◌≡◌, ◌++◌, IfOk, OnOk};
ghost use Rattle.ft_core.specs.meaning.Grids.{cells};
ghost use Rattle.ft_oblige.specs.building.Stating.{headed, if_wanted, inverted_rows, normal_rows, plain, stated_all, vector_rows};

use crate::stating::{About, Aim, headed_cell, plain_cell, wanted};
use ft_base::{List, NoMemory};
use ft_claims::{Claim, Frame};
use ft_core::{Cond, Grid, Tables, Term};
use std::alloc::Global;

// Adds what is claimed of a row whose cells have its condition and one of their own.
fn add_headed(
    alloc: Global,
    tables: &Tables,
    frame: &Frame,
    aim: Aim,
    row: &Cond,
    conds: &[Cond],
    terms: &[Term],
    list: &mut List<Claim>,
) -> Result<(), NoMemory>
    ensures { OnOk result (list.new ≡ list.old ++ headed tables.now frame.now aim.about aim.target row.now conds.now terms.now) }
{
    for at in 0..conds.len().min(terms.len()) {
        let cell = headed_cell(alloc, tables, frame, aim, row, &conds[at], &terms[at])?;
        list.push(cell)?;
    }
    Ok(())
}

// Adds what is claimed of a row whose cells have the conditions of their columns alone.
fn add_plain(
    alloc: Global,
    tables: &Tables,
    frame: &Frame,
    aim: Aim,
    conds: &[Cond],
    terms: &[Term],
    list: &mut List<Claim>,
) -> Result<(), NoMemory>
    ensures { OnOk result (list.new ≡ list.old ++ plain tables.now frame.now aim.about aim.target conds.now terms.now) }
{
    for at in 0..conds.len().min(terms.len()) {
        let cell = plain_cell(alloc, tables, frame, aim, &conds[at], &terms[at])?;
        list.push(cell)?;
    }
    Ok(())
}

// The same, where the cells of the row count.
fn add_wanted(
    alloc: Global,
    tables: &Tables,
    frame: &Frame,
    aim: Aim,
    conds: &[Cond],
    terms: &[Term],
    list: &mut List<Claim>,
) -> Result<(), NoMemory>
    ensures { OnOk result (list.new ≡ list.old ++ if_wanted aim.about aim.target
        (plain tables.now frame.now aim.about aim.target conds.now terms.now)) }
{
    if wanted(aim) {
        add_plain(alloc, tables, frame, aim, conds, terms, list)
    } else {
        Ok(())
    }
}

fn normal_rows(
    alloc: Global,
    tables: &Tables,
    frame: &Frame,
    aim: Aim,
    columns: &[Cond],
    rows: &[Cond],
    terms: &[List<Term>],
) -> Result<List<Claim>, NoMemory>
    ensures { IfOk result (λ list. list ≡ normal_rows tables.now frame.now aim.about aim.target columns.now rows.now terms.now) }
{
    let mut list = List::new(alloc);
    for at in 0..rows.len().min(terms.len()) {
        let row_terms = terms[at].as_slice();
        add_headed(
            alloc, tables, frame, aim, &rows[at], columns, row_terms, &mut list,
        )?;
    }
    Ok(list)
}

// The same, where the cells of the table count.
fn normal_claims(
    alloc: Global,
    tables: &Tables,
    frame: &Frame,
    aim: Aim,
    columns: &[Cond],
    rows: &[Cond],
    terms: &[List<Term>],
) -> Result<List<Claim>, NoMemory>
    ensures { IfOk result (λ list. list ≡ if_wanted aim.about aim.target
        (normal_rows tables.now frame.now aim.about aim.target columns.now rows.now terms.now)) }
{
    if wanted(aim) {
        normal_rows(alloc, tables, frame, aim, columns, rows, terms)
    } else {
        Ok(List::new(alloc))
    }
}

fn inverted_rows(
    alloc: Global,
    tables: &Tables,
    frame: &Frame,
    aim: Aim,
    terms: &[Term],
    rows: &[Cond],
    grid: &[List<Cond>],
) -> Result<List<Claim>, NoMemory>
    ensures { IfOk result (λ list. list ≡ inverted_rows tables.now frame.now aim.about aim.target terms.now rows.now grid.now) }
{
    let mut list = List::new(alloc);
    for at in 0..rows.len().min(grid.len()) {
        let entries = grid[at].as_slice();
        add_headed(
            alloc, tables, frame, aim, &rows[at], entries, terms, &mut list,
        )?;
    }
    Ok(list)
}

// The same, where the cells of the table count.
fn inverted_claims(
    alloc: Global,
    tables: &Tables,
    frame: &Frame,
    aim: Aim,
    terms: &[Term],
    rows: &[Cond],
    grid: &[List<Cond>],
) -> Result<List<Claim>, NoMemory>
    ensures { IfOk result (λ list. list ≡ if_wanted aim.about aim.target
        (inverted_rows tables.now frame.now aim.about aim.target terms.now rows.now grid.now)) }
{
    if wanted(aim) {
        inverted_rows(alloc, tables, frame, aim, terms, rows, grid)
    } else {
        Ok(List::new(alloc))
    }
}

fn vector_rows(
    alloc: Global,
    tables: &Tables,
    frame: &Frame,
    about: About,
    columns: &[Cond],
    targets: &[u32],
    terms: &[List<Term>],
) -> Result<List<Claim>, NoMemory>
    ensures { IfOk result (λ list. list ≡ vector_rows tables.now frame.now about columns.now targets.now terms.now) }
{
    let mut list = List::new(alloc);
    for at in 0..targets.len().min(terms.len()) {
        let aim = Aim {
            about,
            target: targets[at],
        };
        add_wanted(
            alloc,
            tables,
            frame,
            aim,
            columns,
            terms[at].as_slice(),
            &mut list,
        )?;
    }
    Ok(list)
}

/// What is claimed of those cells of a table that count, by rows. It takes time in proportion to them.
pub(crate) fn grid_claims(
    alloc: Global,
    tables: &Tables,
    frame: &Frame,
    about: About,
    grid: &Grid,
) -> Result<List<Claim>, NoMemory>
    ensures { IfOk result (λ list. list ≡ stated_all tables.now frame.now about (cells grid.now)) }
{
    match grid {
        Grid::Normal {
            target,
            columns,
            rows,
            terms,
        } => {
            let aim = Aim {
                about,
                target: *target,
            };
            let list = normal_claims(
                alloc,
                tables,
                frame,
                aim,
                columns.as_slice(),
                rows.as_slice(),
                terms.as_slice(),
            )?;
            Ok(list)
        }
        Grid::Inverted {
            target,
            terms,
            rows,
            grid,
        } => {
            let aim = Aim {
                about,
                target: *target,
            };
            let list = inverted_claims(
                alloc,
                tables,
                frame,
                aim,
                terms.as_slice(),
                rows.as_slice(),
                grid.as_slice(),
            )?;
            Ok(list)
        }
        Grid::Vector {
            columns,
            targets,
            terms,
        } => {
            let list = vector_rows(
                alloc,
                tables,
                frame,
                about,
                columns.as_slice(),
                targets.as_slice(),
                terms.as_slice(),
            )?;
            Ok(list)
        }
    }
}
