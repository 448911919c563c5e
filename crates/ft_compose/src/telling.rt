//! The cells of a table that hold at the values of a point, where the point tells it.
ghost use Rattle.std.specs.Prelude.{◌≡◌, ◌<◌, ◌-◌, ◌∷◌, [], length, slice_get, Some, IfOk};
ghost use Rattle.std.specs.List.{find, list_all};
ghost use Rattle.ft_claims.specs.meaning.Areas.{is_one_of};
ghost use Rattle.ft_compose.specs.building.Deciding.{AreGoodAt, IsGoodClaim, both_conds, claim_at, claim_by, entry_at};
ghost use Rattle.ft_compose.specs.building.Deciding.{is_target, is_told_at, is_told_claim, one_cond};

use ft_base::{List, NoMemory, Span};
use ft_claims::{Claim, Frame, claim_of, pair};
use ft_core::{Cond, Grid, Tables};
use ft_oblige::names_of;
use std::alloc::Global;

fn is_one_of(names: &[u32], wanted: u32) -> bool
    ensures { result ≡ is_one_of names.now wanted }
{
    names.iter().any(|name| *name == wanted)
}

// Whether each of some names is one of others.
fn are_among(names: &[u32], some: &[u32]) -> bool
    ensures { result ≡ list_all (is_one_of names.now) some.now }
{
    some.iter().all(|name| is_one_of(names, *name))
}

// That two conditions hold.
fn both_hold(
    alloc: Global,
    tables: &Tables,
    frame: &Frame,
    row: &Cond,
    column: &Cond,
) -> Result<Option<Claim>, NoMemory>
    ensures { IfOk result (λ claim. claim ≡ claim_by tables.now frame.now (Some (row.now ∷ column.now ∷ []))) }
{
    let first = claim_of(alloc, tables, frame, row)?;
    let second = claim_of(alloc, tables, frame, column)?;
    let both = pair(alloc, first, second)?;
    Ok(Some(Claim::And(both)))
}

// That the condition of a column holds and another one, where there is such a column.
fn headed_claim(
    alloc: Global,
    tables: &Tables,
    frame: &Frame,
    row: &Cond,
    columns: &[Cond],
    column: usize,
) -> Result<Option<Claim>, NoMemory>
    ensures { IfOk result (λ claim. claim ≡ claim_by tables.now frame.now (both_conds (Some row.now) (slice_get columns.now column))) }
{
    match columns.get(column) {
        Some(cond) => both_hold(alloc, tables, frame, row, cond),
        None => Ok(None),
    }
}

fn normal_claim(
    alloc: Global,
    tables: &Tables,
    frame: &Frame,
    columns: &[Cond],
    rows: &[Cond],
    row: usize,
    column: usize,
) -> Result<Option<Claim>, NoMemory>
    ensures { IfOk result (λ claim. claim ≡ claim_by tables.now frame.now (both_conds (slice_get rows.now row)
        (slice_get columns.now column))) }
{
    match rows.get(row) {
        Some(cond) => headed_claim(alloc, tables, frame, cond, columns, column),
        None => Ok(None),
    }
}

// Of a row that may have entries.
fn entry_claim(
    alloc: Global,
    tables: &Tables,
    frame: &Frame,
    row: &Cond,
    grid: &[List<Cond>],
    at: usize,
    column: usize,
) -> Result<Option<Claim>, NoMemory>
    ensures { IfOk result (λ claim. claim ≡ claim_by tables.now frame.now (both_conds (Some row.now) (entry_at grid.now at column))) }
{
    match grid.get(at) {
        Some(entries) => headed_claim(alloc, tables, frame, row, entries.as_slice(), column),
        None => Ok(None),
    }
}

fn inverted_claim(
    alloc: Global,
    tables: &Tables,
    frame: &Frame,
    rows: &[Cond],
    grid: &[List<Cond>],
    row: usize,
    column: usize,
) -> Result<Option<Claim>, NoMemory>
    ensures { IfOk result (λ claim. claim ≡ claim_by tables.now frame.now (both_conds (slice_get rows.now row)
        (entry_at grid.now row column))) }
{
    match rows.get(row) {
        Some(cond) => entry_claim(alloc, tables, frame, cond, grid, row, column),
        None => Ok(None),
    }
}

fn column_claim(
    alloc: Global,
    tables: &Tables,
    frame: &Frame,
    columns: &[Cond],
    column: usize,
) -> Result<Option<Claim>, NoMemory>
    ensures { IfOk result (λ claim. claim ≡ claim_by tables.now frame.now (one_cond (slice_get columns.now column))) }
{
    match columns.get(column) {
        Some(cond) => Ok(Some(claim_of(alloc, tables, frame, cond)?)),
        None => Ok(None),
    }
}

fn is_target(targets: &[u32], row: usize, variable: u32) -> bool
    ensures { result ≡ is_target variable (slice_get targets.now row) }
{
    match targets.get(row) {
        Some(target) => *target == variable,
        None => false,
    }
}

// What is claimed of the cell in a row and a column, from 0, where there is one and it is for the variable.
fn claim_at(
    alloc: Global,
    tables: &Tables,
    frame: &Frame,
    variable: u32,
    grid: &Grid,
    row: usize,
    column: usize,
) -> Result<Option<Claim>, NoMemory>
    ensures { IfOk result (λ claim. claim ≡ claim_at tables.now frame.now variable grid.now row column) }
{
    match grid {
        Grid::Normal {
            target,
            columns,
            rows,
            ..
        } => {
            if *target == variable {
                let columns = columns.as_slice();
                normal_claim(alloc, tables, frame, columns, rows.as_slice(), row, column)
            } else {
                Ok(None)
            }
        }
        Grid::Inverted {
            target,
            rows,
            grid,
            ..
        } => {
            if *target == variable {
                let rows = rows.as_slice();
                inverted_claim(alloc, tables, frame, rows, grid.as_slice(), row, column)
            } else {
                Ok(None)
            }
        }
        Grid::Vector {
            columns,
            targets,
            ..
        } => {
            if is_target(targets.as_slice(), row, variable) {
                column_claim(alloc, tables, frame, columns.as_slice(), column)
            } else {
                Ok(None)
            }
        }
    }
}

// Whether each name of a claim's own formula is one of these.
fn is_told(
    alloc: Global,
    spans: &[Span],
    names: &[u32],
    claim: Option<Claim>,
) -> Result<bool, NoMemory>
    requires good { IsGoodClaim spans.now claim }
    ensures { IfOk result (λ told. told ≡ is_told_claim (length spans.now) names.now claim) }
{
    match claim {
        Some(claim) => {
            let own = names_of(alloc, spans, &claim)?;
            Ok(are_among(names, own.as_slice()))
        }
        None => Ok(false),
    }
}

// The same of the cell in a row and a column, from 1.
fn is_told_at(
    alloc: Global,
    tables: &Tables,
    frame: &Frame,
    spans: &[Span],
    names: &[u32],
    variable: u32,
    grid: &Grid,
    place: (u32, u32),
) -> Result<bool, NoMemory>
    requires good { IsGoodClaim spans.now (claim_at tables.now frame.now variable grid.now (place.0 - 1) (place.1 - 1)) }
    ensures { IfOk result (λ told. told ≡ is_told_at tables.now frame.now (length spans.now) variable names.now grid.now place) }
{
    let row = place.0.saturating_sub(1) as usize;
    let column = place.1.saturating_sub(1) as usize;
    let claim = claim_at(alloc, tables, frame, variable, grid, row, column)?;
    is_told(alloc, spans, names, claim)
}

fn place_at(places: &[(u32, u32)], at: usize) -> (u32, u32)
    requires { at < length places.now }
    ensures { slice_get places.now at ≡ Some result }
{
    places[at]
}

// The first of some places whose cell is told.
pub(crate) fn first_told(
    alloc: Global,
    tables: &Tables,
    frame: &Frame,
    spans: &[Span],
    names: &[u32],
    variable: u32,
    grid: &Grid,
    places: &[(u32, u32)],
) -> Result<Option<(u32, u32)>, NoMemory>
    requires good { AreGoodAt tables.now frame.now spans.now variable grid.now places.now }
    ensures { IfOk result (λ first. first ≡ find (is_told_at tables.now frame.now (length spans.now) variable names.now grid.now)
        places.now) }
{
    for at in 0..places.len() {
        let place = place_at(places, at);
        let told = is_told_at(alloc, tables, frame, spans, names, variable, grid, place)?;
        if told {
            return Ok(Some(place));
        }
    }
    Ok(None)
}
