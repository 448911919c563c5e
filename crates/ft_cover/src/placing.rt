//! The cells of a table that hold, by rows, or those of them whose term is out of range.
ghost use Rattle.std.specs.Prelude.{◌≡◌, ◌+◌, ◌++◌, ◌∷◌, [], ◌||◌, int_lt, slice_get, IfOk, OnOk};
ghost use Rattle.std.specs.List.{flat_map, zip};
ghost use Rattle.ft_core.specs.meaning.Grids.{cells, numbered};
ghost use Rattle.ft_mean.specs.judge.Safe.{AreSafe, AreSafeCondRows, AreSafeConds, AreSafeRows, IsSafe, IsSafeCond, IsSafeGrid};
ghost use Rattle.ft_claims.specs.laws.CellLaws.{is_out_of};
ghost use Rattle.ft_cover.specs.building.Places.{column_places, headed_places, inverted_row, is_wanted, normal_row, places_in};
ghost use Rattle.ft_cover.specs.building.Places.{row_places, vector_row};

use crate::law::laws;
use ft_base::{List, NoMemory, Range};
use ft_core::{Cond, Grid, Term, Var};
use ft_mean::{Look, truth_of, value_of};
use std::alloc::Global;

/// Which of the cells that hold are asked for.
#[derive(Clone, Copy, PartialEq, Eq, Drop)]
pub enum Wanted {
    /// All of them.
    Holding,
    /// Those whose term is out of the range of their variable.
    Outside,
}

fn is_beyond(range: Range, value: i64) -> bool
    ensures { result ≡ (int_lt value range.0 || int_lt range.1 value) }
{
    value < range.lo() || range.hi() < value
}

fn is_outside<L: Look>(vars: &[Var], look: &L, target: u32, term: &Term) -> bool
    requires { IsSafe (L.view look.now) term.now }
    ensures { result ≡ is_out_of (L.view look.now) (slice_get vars.now target) term.now }
{
    match vars.get(target as usize) {
        Some(var) => is_beyond(var.range, value_of(term, look)),
        None => false,
    }
}

fn is_wanted<L: Look>(vars: &[Var], look: &L, wanted: Wanted, target: u32, term: &Term) -> bool
    requires { IsSafe (L.view look.now) term.now }
    ensures { result ≡ is_wanted vars.now (L.view look.now) wanted target term.now }
{
    match wanted {
        Wanted::Holding => true,
        Wanted::Outside => is_outside(vars, look, target, term),
    }
}

// The number of a row or a column, from 1. One past 2^32 is refused as want of memory.
fn number_of(place: usize) -> Result<u32, NoMemory>
    ensures { IfOk result (λ number. number ≡ place + 1) }
{
    match u32::try_from(place) {
        Ok(number) => match number.checked_add(1) {
            Some(next) => Ok(next),
            None => Err(NoMemory),
        },
        Err(_) => Err(NoMemory),
    }
}

fn add_place(row: usize, column: usize, places: &mut List<(u32, u32)>) -> Result<(), NoMemory>
    ensures { OnOk result (places.new ≡ places.old ++ (row + 1, column + 1) ∷ []) }
{
    let row = number_of(row)?;
    let column = number_of(column)?;
    places.push((row, column))
}

// Adds the place of a cell, where its own condition holds and it is asked for.
fn add_cell<L: Look>(
    vars: &[Var],
    look: &L,
    wanted: Wanted,
    target: u32,
    row: usize,
    column: usize,
    cond: &Cond,
    term: &Term,
    places: &mut List<(u32, u32)>,
) -> Result<(), NoMemory>
    requires cond { IsSafeCond (L.view look.now) cond.now }
    requires term { IsSafe (L.view look.now) term.now }
    ensures { OnOk result (places.new ≡ places.old ++ column_places vars.now (L.view look.now) wanted target row
        (column, (cond.now, term.now))) }
{
    if truth_of(cond, look) && is_wanted(vars, look, wanted, target, term) {
        add_place(row, column, places)
    } else {
        Ok(())
    }
}

// The same of each cell of a row.
fn add_cells<L: Look>(
    vars: &[Var],
    look: &L,
    wanted: Wanted,
    target: u32,
    row: usize,
    conds: &[Cond],
    terms: &[Term],
    places: &mut List<(u32, u32)>,
) -> Result<(), NoMemory>
    requires conds { AreSafeConds (L.view look.now) conds.now }
    requires terms { AreSafe (L.view look.now) terms.now }
    ensures { OnOk result (places.new ≡ places.old ++ row_places vars.now (L.view look.now) wanted target row conds.now terms.now) }
{
    laws();
    for column in 0..conds.len().min(terms.len()) {
        let cond = &conds[column];
        let term = &terms[column];
        add_cell(vars, look, wanted, target, row, column, cond, term, places)?;
    }
    Ok(())
}

// The same of a row whose own condition must hold too.
fn add_headed<L: Look>(
    vars: &[Var],
    look: &L,
    wanted: Wanted,
    target: u32,
    row: usize,
    head: &Cond,
    conds: &[Cond],
    terms: &[Term],
    places: &mut List<(u32, u32)>,
) -> Result<(), NoMemory>
    requires head { IsSafeCond (L.view look.now) head.now }
    requires conds { AreSafeConds (L.view look.now) conds.now }
    requires terms { AreSafe (L.view look.now) terms.now }
    ensures { OnOk result (places.new ≡ places.old ++ headed_places vars.now (L.view look.now) wanted target row head.now conds.now
        terms.now) }
{
    if truth_of(head, look) {
        add_cells(vars, look, wanted, target, row, conds, terms, places)
    } else {
        Ok(())
    }
}

fn normal_places<L: Look>(
    alloc: Global,
    vars: &[Var],
    look: &L,
    wanted: Wanted,
    target: u32,
    columns: &[Cond],
    rows: &[Cond],
    terms: &[List<Term>],
) -> Result<List<(u32, u32)>, NoMemory>
    requires columns { AreSafeConds (L.view look.now) columns.now }
    requires rows { AreSafeConds (L.view look.now) rows.now }
    requires terms { AreSafeRows (L.view look.now) terms.now }
    ensures { IfOk result (λ places. places ≡ flat_map (normal_row vars.now (L.view look.now) wanted target columns.now)
        (numbered (zip rows.now terms.now))) }
{
    laws();
    let mut places = List::new(alloc);
    for row in 0..rows.len().min(terms.len()) {
        let head = &rows[row];
        let its_terms = terms[row].as_slice();
        add_headed(
            vars,
            look,
            wanted,
            target,
            row,
            head,
            columns,
            its_terms,
            &mut places,
        )?;
    }
    Ok(places)
}

fn inverted_places<L: Look>(
    alloc: Global,
    vars: &[Var],
    look: &L,
    wanted: Wanted,
    target: u32,
    terms: &[Term],
    rows: &[Cond],
    grid: &[List<Cond>],
) -> Result<List<(u32, u32)>, NoMemory>
    requires terms { AreSafe (L.view look.now) terms.now }
    requires rows { AreSafeConds (L.view look.now) rows.now }
    requires grid { AreSafeCondRows (L.view look.now) grid.now }
    ensures { IfOk result (λ places. places ≡ flat_map (inverted_row vars.now (L.view look.now) wanted target terms.now)
        (numbered (zip rows.now grid.now))) }
{
    laws();
    let mut places = List::new(alloc);
    for row in 0..rows.len().min(grid.len()) {
        let head = &rows[row];
        let conds = grid[row].as_slice();
        add_headed(
            vars,
            look,
            wanted,
            target,
            row,
            head,
            conds,
            terms,
            &mut places,
        )?;
    }
    Ok(places)
}

fn vector_places<L: Look>(
    alloc: Global,
    vars: &[Var],
    look: &L,
    wanted: Wanted,
    columns: &[Cond],
    targets: &[u32],
    terms: &[List<Term>],
) -> Result<List<(u32, u32)>, NoMemory>
    requires columns { AreSafeConds (L.view look.now) columns.now }
    requires terms { AreSafeRows (L.view look.now) terms.now }
    ensures { IfOk result (λ places. places ≡ flat_map (vector_row vars.now (L.view look.now) wanted columns.now)
        (numbered (zip targets.now terms.now))) }
{
    laws();
    let mut places = List::new(alloc);
    for row in 0..targets.len().min(terms.len()) {
        let target = targets[row];
        let its_terms = terms[row].as_slice();
        add_cells(
            vars,
            look,
            wanted,
            target,
            row,
            columns,
            its_terms,
            &mut places,
        )?;
    }
    Ok(places)
}

/// The places of the cells of a table that hold and are asked for, by rows: row and column, both from 1.
pub fn places<L: Look>(
    alloc: Global,
    vars: &[Var],
    look: &L,
    wanted: Wanted,
    grid: &Grid,
) -> Result<List<(u32, u32)>, NoMemory>
    requires safe { IsSafeGrid (L.view look.now) grid.now }
    ensures { IfOk result (λ places. places ≡ places_in vars.now (L.view look.now) wanted (cells grid.now)) }
{
    laws();
    match grid {
        Grid::Normal {
            target,
            columns,
            rows,
            terms,
        } => {
            let columns = columns.as_slice();
            let rows = rows.as_slice();
            let terms = terms.as_slice();
            let found = normal_places(alloc, vars, look, wanted, *target, columns, rows, terms)?;
            Ok(found)
        }
        Grid::Inverted {
            target,
            terms,
            rows,
            grid,
        } => {
            let terms = terms.as_slice();
            let rows = rows.as_slice();
            let grid = grid.as_slice();
            let found = inverted_places(alloc, vars, look, wanted, *target, terms, rows, grid)?;
            Ok(found)
        }
        Grid::Vector {
            columns,
            targets,
            terms,
        } => {
            let columns = columns.as_slice();
            let targets = targets.as_slice();
            let terms = terms.as_slice();
            let found = vector_places(alloc, vars, look, wanted, columns, targets, terms)?;
            Ok(found)
        }
    }
}
