ghost use Rattle.std.specs.Prelude.{◌≡◌, ℕ, MatchOption, Some};
ghost use Rattle.ft_core.specs.declared.term.Term.{Term};
ghost use Rattle.ft_core.specs.meaning.Grids.{cells_for, term_at};
ghost use Rattle.ft_mean.specs.judge.Safe.{IsSafeGrid, AreSafeConds};
ghost use Rattle.ft_mean.specs.meaning.Value.{value};
ghost use Rattle.ft_scan.specs.steps.Found.{IsFirstTrue, IsTrueAt, IsFound, IsOpenColumn};

use ft_core::{Cond, Grid};
use ft_mean::{Look, first_cell, truth_of, value_of};

/// The value of the term in a row and a column of a table.
pub(crate) fn entry_value<L: Look>(grid: &Grid, row: usize, column: usize, look: &L) -> i64
    requires safe { IsSafeGrid (L.view look.now) grid.now }
    requires entry { (e : Term) × (term_at grid.now row column ≡ Some e) }
    ensures { (e : Term) → term_at grid.now row column ≡ Some e → result ≡ value (L.view look.now) e }
{
    match grid.term(row, column) {
        Some(term) => value_of(term, look),
        None => unreachable!(),
    }
}

/// The value of the term of the first cell of a table for a variable that holds.
pub(crate) fn value_in<L: Look>(grid: &Grid, variable: usize, look: &L) -> Option<i64>
    requires { IsSafeGrid (L.view look.now) grid.now }
    ensures { IsFound (L.view look.now) (cells_for variable grid.now) result }
{
    match first_cell(grid, variable, look) {
        Some((row, column)) => Some(entry_value(grid, row, column, look)),
        None => None,
    }
}

/// The place of the first condition that holds.
fn first_that_holds<L: Look>(conds: &[Cond], look: &L) -> Option<usize>
    requires { AreSafeConds (L.view look.now) conds.now }
    ensures { MatchOption result ((at : ℕ) → IsTrueAt (L.view look.now) conds.now at → ⊥) (IsFirstTrue (L.view look.now) conds.now) }
{
    for (at, cond) in conds.iter().enumerate() {
        if truth_of(cond, look) {
            return Some(at);
        }
    }
    None
}

/// The first column of a vector table that holds.
pub(crate) fn open_column<L: Look>(grid: &Grid, look: &L) -> Option<usize>
    requires { IsSafeGrid (L.view look.now) grid.now }
    ensures { MatchOption result ((at : ℕ) → IsOpenColumn (L.view look.now) grid.now at → ⊥) (IsOpenColumn (L.view look.now) grid.now) }
{
    match grid {
        Grid::Vector { columns, .. } => first_that_holds(columns.as_slice(), look),
        _ => None,
    }
}
