//! Whether the tables give a variable a value.
ghost use Rattle.std.specs.Prelude.{◌≡◌, ◌==◌, ◌&&◌};
ghost use Rattle.std.specs.Ordering.{int_eq};
ghost use Rattle.std.specs.List.{list_any, zip};
ghost use Rattle.ft_core.specs.meaning.Grids.{is_section};
ghost use Rattle.ft_mean.specs.meaning.Cells.{defined};
ghost use Rattle.ft_mean.specs.judge.Safe.{IsSafe, IsSafeCond, IsSafeGrid, AreSafe, AreSafeConds, AreSafeRows, AreSafeCondRows};
ghost use Rattle.ft_mean.specs.judge.Safe.{AreSafeTables};
ghost use Rattle.ft_mean.specs.judge.Seen.{gives_in, row_gives, grid_gives};
ghost use Rattle.ft_mean.specs.meaning.Value.{value, truth};

use crate::evaluating::{truth_of, value_of};
use crate::look::Look;
use ft_base::List;
use ft_core::{Cond, Grid, Section, Table, Tables, Term};

fn is_entry<L: Look>(cond: &Cond, term: &Term, look: &L, wanted: i64) -> bool
    requires cond { IsSafeCond (L.view look.now) cond.now }
    requires term { IsSafe (L.view look.now) term.now }
    ensures { result ≡ (truth (L.view look.now) cond.now && int_eq wanted (value (L.view look.now) term.now)) }
{
    truth_of(cond, look) && wanted == value_of(term, look)
}

/// Whether one of the terms whose condition is true has this value.
fn has_entry<L: Look>(conds: &[Cond], terms: &[Term], look: &L, wanted: i64) -> bool
    requires conds { AreSafeConds (L.view look.now) conds.now }
    requires terms { AreSafe (L.view look.now) terms.now }
    ensures { result ≡ gives_in (L.view look.now) wanted conds.now terms.now }
{
    for at in 0..conds.len().min(terms.len()) {
        if is_entry(&conds[at], &terms[at], look, wanted) {
            return true;
        }
    }
    false
}

fn row_has<L: Look>(row: &Cond, conds: &[Cond], terms: &[Term], look: &L, wanted: i64) -> bool
    requires row { IsSafeCond (L.view look.now) row.now }
    requires conds { AreSafeConds (L.view look.now) conds.now }
    requires terms { AreSafe (L.view look.now) terms.now }
    ensures { result ≡ row_gives (L.view look.now) wanted row.now conds.now terms.now }
{
    truth_of(row, look) && has_entry(conds, terms, look, wanted)
}

fn normal_has<L: Look>(
    columns: &[Cond],
    rows: &[Cond],
    terms: &[List<Term>],
    look: &L,
    wanted: i64,
) -> bool
    requires columns { AreSafeConds (L.view look.now) columns.now }
    requires rows { AreSafeConds (L.view look.now) rows.now }
    requires terms { AreSafeRows (L.view look.now) terms.now }
    ensures { result ≡ list_any (λ r. row_gives (L.view look.now) wanted r.0 columns.now r.1) (zip rows.now terms.now) }
{
    for at in 0..rows.len().min(terms.len()) {
        if row_has(&rows[at], columns, terms[at].as_slice(), look, wanted) {
            return true;
        }
    }
    false
}

fn inverted_has<L: Look>(
    terms: &[Term],
    rows: &[Cond],
    grid: &[List<Cond>],
    look: &L,
    wanted: i64,
) -> bool
    requires terms { AreSafe (L.view look.now) terms.now }
    requires rows { AreSafeConds (L.view look.now) rows.now }
    requires grid { AreSafeCondRows (L.view look.now) grid.now }
    ensures { result ≡ list_any (λ r. row_gives (L.view look.now) wanted r.0 r.1 terms.now) (zip rows.now grid.now) }
{
    for at in 0..rows.len().min(grid.len()) {
        if row_has(&rows[at], grid[at].as_slice(), terms, look, wanted) {
            return true;
        }
    }
    false
}

fn target_has<L: Look>(
    target: u32,
    variable: usize,
    columns: &[Cond],
    terms: &[Term],
    look: &L,
    wanted: i64,
) -> bool
    requires columns { AreSafeConds (L.view look.now) columns.now }
    requires terms { AreSafe (L.view look.now) terms.now }
    ensures { result ≡ ((target == variable) && gives_in (L.view look.now) wanted columns.now terms.now) }
{
    target as usize == variable && has_entry(columns, terms, look, wanted)
}

fn vector_has<L: Look>(
    columns: &[Cond],
    targets: &[u32],
    terms: &[List<Term>],
    variable: usize,
    look: &L,
    wanted: i64,
) -> bool
    requires columns { AreSafeConds (L.view look.now) columns.now }
    requires terms { AreSafeRows (L.view look.now) terms.now }
    ensures { result ≡ list_any (λ r. (r.0 == variable) && gives_in (L.view look.now) wanted columns.now r.1)
        (zip targets.now terms.now) }
{
    for at in 0..targets.len().min(terms.len()) {
        if target_has(
            targets[at],
            variable,
            columns,
            terms[at].as_slice(),
            look,
            wanted,
        ) {
            return true;
        }
    }
    false
}

/// Whether some cell of a table, for a variable, that holds at a scan has this value.
pub(crate) fn grid_has<L: Look>(grid: &Grid, variable: usize, look: &L, wanted: i64) -> bool
    requires { IsSafeGrid (L.view look.now) grid.now }
    ensures { result ≡ grid_gives (L.view look.now) variable wanted grid.now }
{
    match grid {
        Grid::Normal {
            target,
            columns,
            rows,
            terms,
        } => {
            *target as usize == variable
                && normal_has(
                    columns.as_slice(),
                    rows.as_slice(),
                    terms.as_slice(),
                    look,
                    wanted,
                )
        }
        Grid::Inverted {
            target,
            terms,
            rows,
            grid,
        } => {
            *target as usize == variable
                && inverted_has(
                    terms.as_slice(),
                    rows.as_slice(),
                    grid.as_slice(),
                    look,
                    wanted,
                )
        }
        Grid::Vector {
            columns,
            targets,
            terms,
        } => {
            vector_has(
                columns.as_slice(),
                targets.as_slice(),
                terms.as_slice(),
                variable,
                look,
                wanted,
            )
        }
    }
}

fn table_has<L: Look>(
    table: &Table,
    section: Section,
    variable: usize,
    look: &L,
    wanted: i64,
) -> bool
    requires { IsSafeGrid (L.view look.now) table.now.grid }
    ensures { result ≡ (is_section table.now.section section
        && grid_gives (L.view look.now) variable wanted table.now.grid) }
{
    table.section.is(section) && grid_has(&table.grid, variable, look, wanted)
}

/// Whether some cell of the tables of a section, for a variable, that holds at a scan has this value.
pub(crate) fn is_defined<L: Look>(
    tables: &Tables,
    section: Section,
    variable: usize,
    look: &L,
    wanted: i64,
) -> bool
    requires { AreSafeTables (L.view look.now) tables.now.tables }
    ensures { result ≡ defined tables.now section (L.view look.now) variable wanted }
{
    for table in tables.tables.as_slice() {
        if table_has(table, section, variable, look, wanted) {
            return true;
        }
    }
    false
}
