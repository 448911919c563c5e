//! The first cell of a table that holds.
ghost use Rattle.std.specs.Prelude.{◌≡◌};
ghost use Rattle.std.specs.List.{find, zip};
ghost use Rattle.std.specs.Option.{option_map};
ghost use Rattle.ft_core.specs.meaning.Grids.{cells_for};
ghost use Rattle.ft_mean.specs.meaning.Cells.{cell_holds};
ghost use Rattle.ft_mean.specs.judge.FirstCell.{first_column, first_row, headed_column, target_column};
ghost use Rattle.ft_mean.specs.judge.Safe.{IsSafeCond, IsSafeGrid, AreSafeConds, AreSafeCondRows};

use crate::evaluating::truth_of;
use crate::look::Look;
use ft_base::List;
use ft_core::{Cond, Grid, Term};

/// The first of the columns with a term whose condition is true.
fn column_in<L: Look>(conds: &[Cond], terms: &[Term], look: &L) -> Option<usize>
    requires conds { AreSafeConds (L.view look.now) conds.now }
    ensures { result ≡ first_column (L.view look.now) conds.now terms.now }
{
    for at in 0..conds.len().min(terms.len()) {
        if truth_of(&conds[at], look) {
            return Some(at);
        }
    }
    None
}

/// The same in a row whose own condition must be true too.
fn column_under<L: Look>(row: &Cond, conds: &[Cond], terms: &[Term], look: &L) -> Option<usize>
    requires row { IsSafeCond (L.view look.now) row.now }
    requires conds { AreSafeConds (L.view look.now) conds.now }
    ensures { result ≡ headed_column (L.view look.now) row.now conds.now terms.now }
{
    if truth_of(row, look) {
        column_in(conds, terms, look)
    } else {
        None
    }
}

/// The same in a row that must be for the variable.
fn column_for<L: Look>(
    target: u32,
    variable: usize,
    conds: &[Cond],
    terms: &[Term],
    look: &L,
) -> Option<usize>
    requires conds { AreSafeConds (L.view look.now) conds.now }
    ensures { result ≡ target_column (L.view look.now) variable target conds.now terms.now }
{
    if target as usize == variable {
        column_in(conds, terms, look)
    } else {
        None
    }
}

fn first_of_normal<L: Look>(
    columns: &[Cond],
    rows: &[Cond],
    terms: &[List<Term>],
    look: &L,
) -> Option<(usize, usize)>
    requires columns { AreSafeConds (L.view look.now) columns.now }
    requires rows { AreSafeConds (L.view look.now) rows.now }
    ensures { result ≡ first_row (λ r. headed_column (L.view look.now) r.0 columns.now r.1) (zip rows.now terms.now) }
{
    for at in 0..rows.len().min(terms.len()) {
        if let Some(column) = column_under(&rows[at], columns, terms[at].as_slice(), look) {
            return Some((at, column));
        }
    }
    None
}

fn first_of_inverted<L: Look>(
    terms: &[Term],
    rows: &[Cond],
    grid: &[List<Cond>],
    look: &L,
) -> Option<(usize, usize)>
    requires rows { AreSafeConds (L.view look.now) rows.now }
    requires grid { AreSafeCondRows (L.view look.now) grid.now }
    ensures { result ≡ first_row (λ r. headed_column (L.view look.now) r.0 r.1 terms.now) (zip rows.now grid.now) }
{
    for at in 0..rows.len().min(grid.len()) {
        if let Some(column) = column_under(&rows[at], grid[at].as_slice(), terms, look) {
            return Some((at, column));
        }
    }
    None
}

fn first_of_vector<L: Look>(
    columns: &[Cond],
    targets: &[u32],
    terms: &[List<Term>],
    variable: usize,
    look: &L,
) -> Option<(usize, usize)>
    requires columns { AreSafeConds (L.view look.now) columns.now }
    ensures { result ≡ first_row (λ r. target_column (L.view look.now) variable r.0 columns.now r.1) (zip targets.now terms.now) }
{
    for at in 0..targets.len().min(terms.len()) {
        if let Some(column) = column_for(
            targets[at],
            variable,
            columns,
            terms[at].as_slice(),
            look,
        ) {
            return Some((at, column));
        }
    }
    None
}

/// The first cell of a table for a variable that holds, by rows: its row and its column, from 0.
pub fn first_cell<L: Look>(grid: &Grid, variable: usize, look: &L) -> Option<(usize, usize)>
    requires safe { IsSafeGrid (L.view look.now) grid.now }
    ensures { result ≡ option_map (λ cell. (cell.row, cell.column)) (find (cell_holds (L.view look.now)) (cells_for variable grid.now)) }
{
    match grid {
        Grid::Normal {
            target,
            columns,
            rows,
            terms,
        } => {
            if *target as usize == variable {
                first_of_normal(columns.as_slice(), rows.as_slice(), terms.as_slice(), look)
            } else {
                None
            }
        }
        Grid::Inverted {
            target,
            terms,
            rows,
            grid,
        } => {
            if *target as usize == variable {
                first_of_inverted(terms.as_slice(), rows.as_slice(), grid.as_slice(), look)
            } else {
                None
            }
        }
        Grid::Vector {
            columns,
            targets,
            terms,
        } => first_of_vector(
            columns.as_slice(),
            targets.as_slice(),
            terms.as_slice(),
            variable,
            look,
        ),
    }
}
