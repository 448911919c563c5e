//! What is claimed of a table that shows a fault.
ghost use Rattle.std.specs.Prelude.{◌≡◌, [], ◌∷◌, map, IfOk};
ghost use Rattle.std.specs.List.{zip};
ghost use Rattle.ft_core.specs.meaning.Grids.{cells};
ghost use Rattle.ft_claims.specs.declared.claim.Claim.TheVariants as claim;
ghost use Rattle.ft_claims.specs.meaning.Coverage.{claims_of, fault_node, gap_node, overlap_node, range_node, row_some, row_two, two};
ghost use Rattle.ft_claims.specs.meaning.Parts.{cell_claim};
ghost use Rattle.ft_oblige.specs.meaning.Made.{meant};

use crate::joining::{both, either};
use crate::pairing::{claims_of, two};
use crate::stating::About;
use crate::walking::grid_claims;
use ft_base::{List, NoMemory};
use ft_claims::{Claim, Frame, claim_of, denied};
use ft_core::{Cond, Grid, Tables};
use std::alloc::Global;

/// What a table must not show.
#[derive(Clone, Copy, PartialEq, Eq, Drop)]
pub enum TableFault {
    /// That no cell holds for a variable.
    Gap,
    /// That two cells hold for a variable.
    Overlap,
    /// That a cell holds whose term is out of the range of its variable.
    Range,
}

// That no cell of a table holds.
fn no_cell(alloc: Global, tables: &Tables, frame: &Frame, grid: &Grid) -> Result<Claim, NoMemory>
    ensures { IfOk result (λ whole. whole ≡ claim.Not (claim.Or (map (cell_claim tables.now frame.now) (cells grid.now)))) }
{
    let cells = grid_claims(alloc, tables, frame, About::Holds, grid)?;
    let whole = denied(alloc, Claim::Or(cells))?;
    Ok(whole)
}

// That none of these conditions holds.
fn none_of(alloc: Global, tables: &Tables, frame: &Frame, conds: &[Cond]) -> Result<Claim, NoMemory>
    ensures { IfOk result (λ whole. whole ≡ claim.Not (claim.Or (claims_of tables.now frame.now conds.now))) }
{
    let claims = claims_of(alloc, tables, frame, conds)?;
    denied(alloc, Claim::Or(claims))
}

fn gap_node(alloc: Global, tables: &Tables, frame: &Frame, grid: &Grid) -> Result<Claim, NoMemory>
    ensures { IfOk result (λ whole. whole ≡ gap_node tables.now frame.now grid.now) }
{
    match grid {
        Grid::Normal { .. } => no_cell(alloc, tables, frame, grid),
        Grid::Inverted { .. } => no_cell(alloc, tables, frame, grid),
        Grid::Vector { columns, .. } => none_of(alloc, tables, frame, columns.as_slice()),
    }
}

// That two of the first claims hold and one of the second.
fn two_and_one(alloc: Global, first: &[Claim], second: List<Claim>) -> Result<Claim, NoMemory>
    ensures { IfOk result (λ whole. whole ≡ claim.And (two first.now ∷ claim.Or second ∷ [])) }
{
    let twice = two(alloc, first)?;
    both(alloc, twice, Claim::Or(second))
}

// That one of the first claims holds and two of the second.
fn one_and_two(alloc: Global, first: List<Claim>, second: &[Claim]) -> Result<Claim, NoMemory>
    ensures { IfOk result (λ whole. whole ≡ claim.And (claim.Or first ∷ two second.now ∷ [])) }
{
    let twice = two(alloc, second)?;
    both(alloc, Claim::Or(first), twice)
}

// That two cells of a normal table hold: two rows and a column, or a row and two columns.
fn normal_overlap(
    alloc: Global,
    tables: &Tables,
    frame: &Frame,
    columns: &[Cond],
    rows: &[Cond],
) -> Result<Claim, NoMemory>
    ensures { IfOk result (λ whole. whole ≡ claim.Or (
        claim.And (two (claims_of tables.now frame.now rows.now) ∷ claim.Or (claims_of tables.now frame.now columns.now) ∷ [])
        ∷ claim.And (claim.Or (claims_of tables.now frame.now rows.now) ∷ two (claims_of tables.now frame.now columns.now) ∷ []) ∷ [])) }
{
    let row_claims = claims_of(alloc, tables, frame, rows)?;
    let column_claims = claims_of(alloc, tables, frame, columns)?;
    let second_columns = claims_of(alloc, tables, frame, columns)?;
    let by_rows = two_and_one(alloc, row_claims.as_slice(), column_claims)?;
    let by_columns = one_and_two(alloc, row_claims, second_columns.as_slice())?;
    either(alloc, by_rows, by_columns)
}

// That a cell of a row holds.
fn row_some(
    alloc: Global,
    tables: &Tables,
    frame: &Frame,
    row: &Cond,
    entries: &[Cond],
) -> Result<Claim, NoMemory>
    ensures { IfOk result (λ whole. whole ≡ row_some tables.now frame.now (row.now, entries.now)) }
{
    let first = claim_of(alloc, tables, frame, row)?;
    let claims = claims_of(alloc, tables, frame, entries)?;
    both(alloc, first, Claim::Or(claims))
}

// That two cells of a row hold.
fn row_two(
    alloc: Global,
    tables: &Tables,
    frame: &Frame,
    row: &Cond,
    entries: &[Cond],
) -> Result<Claim, NoMemory>
    ensures { IfOk result (λ whole. whole ≡ row_two tables.now frame.now (row.now, entries.now)) }
{
    let first = claim_of(alloc, tables, frame, row)?;
    let claims = claims_of(alloc, tables, frame, entries)?;
    let twice = two(alloc, claims.as_slice())?;
    both(alloc, first, twice)
}

fn rows_some(
    alloc: Global,
    tables: &Tables,
    frame: &Frame,
    rows: &[Cond],
    grid: &[List<Cond>],
) -> Result<List<Claim>, NoMemory>
    ensures { IfOk result (λ list. list ≡ map (row_some tables.now frame.now) (zip rows.now grid.now)) }
{
    let mut list = List::new(alloc);
    for at in 0..rows.len().min(grid.len()) {
        let claim = row_some(alloc, tables, frame, &rows[at], grid[at].as_slice())?;
        list.push(claim)?;
    }
    Ok(list)
}

fn rows_two(
    alloc: Global,
    tables: &Tables,
    frame: &Frame,
    rows: &[Cond],
    grid: &[List<Cond>],
) -> Result<List<Claim>, NoMemory>
    ensures { IfOk result (λ list. list ≡ map (row_two tables.now frame.now) (zip rows.now grid.now)) }
{
    let mut list = List::new(alloc);
    for at in 0..rows.len().min(grid.len()) {
        let claim = row_two(alloc, tables, frame, &rows[at], grid[at].as_slice())?;
        list.push(claim)?;
    }
    Ok(list)
}

// That two cells of an inverted table hold: in two rows, or in one.
fn inverted_overlap(
    alloc: Global,
    tables: &Tables,
    frame: &Frame,
    rows: &[Cond],
    grid: &[List<Cond>],
) -> Result<Claim, NoMemory>
    ensures { IfOk result (λ whole. whole ≡ claim.Or (
        two (map (row_some tables.now frame.now) (zip rows.now grid.now))
        ∷ claim.Or (map (row_two tables.now frame.now) (zip rows.now grid.now)) ∷ [])) }
{
    let some = rows_some(alloc, tables, frame, rows, grid)?;
    let in_two = two(alloc, some.as_slice())?;
    let in_one = rows_two(alloc, tables, frame, rows, grid)?;
    either(alloc, in_two, Claim::Or(in_one))
}

fn vector_overlap(
    alloc: Global,
    tables: &Tables,
    frame: &Frame,
    columns: &[Cond],
) -> Result<Claim, NoMemory>
    ensures { IfOk result (λ whole. whole ≡ two (claims_of tables.now frame.now columns.now)) }
{
    let claims = claims_of(alloc, tables, frame, columns)?;
    two(alloc, claims.as_slice())
}

fn overlap_node(
    alloc: Global,
    tables: &Tables,
    frame: &Frame,
    grid: &Grid,
) -> Result<Claim, NoMemory>
    ensures { IfOk result (λ whole. whole ≡ overlap_node tables.now frame.now grid.now) }
{
    match grid {
        Grid::Normal { columns, rows, .. } => {
            normal_overlap(alloc, tables, frame, columns.as_slice(), rows.as_slice())
        }
        Grid::Inverted { rows, grid, .. } => {
            inverted_overlap(alloc, tables, frame, rows.as_slice(), grid.as_slice())
        }
        Grid::Vector { columns, .. } => vector_overlap(alloc, tables, frame, columns.as_slice()),
    }
}

fn range_node(alloc: Global, tables: &Tables, frame: &Frame, grid: &Grid) -> Result<Claim, NoMemory>
    ensures { IfOk result (λ whole. whole ≡ range_node tables.now frame.now (cells grid.now)) }
{
    let cells = grid_claims(alloc, tables, frame, About::Outside, grid)?;
    Ok(Claim::Or(cells))
}

/// What is claimed of a table that shows a fault.
pub(crate) fn fault_node(
    alloc: Global,
    tables: &Tables,
    frame: &Frame,
    fault: TableFault,
    grid: &Grid,
) -> Result<Claim, NoMemory>
    ensures { IfOk result (λ whole. whole ≡ fault_node tables.now frame.now (meant fault) grid.now) }
{
    match fault {
        TableFault::Gap => gap_node(alloc, tables, frame, grid),
        TableFault::Overlap => overlap_node(alloc, tables, frame, grid),
        TableFault::Range => range_node(alloc, tables, frame, grid),
    }
}
