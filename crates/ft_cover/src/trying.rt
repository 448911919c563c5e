//! One obligation of a table.
ghost use Rattle.std.specs.Prelude.{◌≡◌, ◌≤◌, ◌<◌, ◌+◌, ◌*◌, ◌-◌, length, IfOk};
ghost use Rattle.ft_oblige.specs.meaning.Made.{IsCoverage, meant};
ghost use Rattle.ft_oblige.specs.meaning.Tried.{IsPointIn};
ghost use Rattle.ft_cover.specs.building.Numbering.{number_of};
ghost use Rattle.ft_cover.specs.meaning.Attempted.{IsAttempt};
ghost use Rattle.ft_cover.specs.meaning.Covered.{IsFound};

use crate::answer::Cover;
use crate::faults::{gap_at, overlap_at, range_at};
use crate::law::laws;
use ft_base::{List, NoMemory};
use ft_cert::Cert;
use ft_core::Tables;
use ft_oblige::{Obligation, TableFault, Tried, coverage, try_formula};
use std::alloc::Global;

/// What is learned of an obligation.
#[derive(Drop)]
pub(crate) enum Attempt {
    /// It has no point.
    Closed(Cert),
    /// It has one, or the search for one was spent.
    Stopped(Cover),
}

// The place of the table that an obligation is about, and the fault.
fn about(number: u32) -> (u32, TableFault)
    requires { 1 ≤ number }
    ensures { number ≡ number_of result.0 (meant result.1) }
{
    let before = number - 1;
    match before % 3 {
        0 => (before / 3, TableFault::Gap),
        1 => (before / 3, TableFault::Overlap),
        _ => (before / 3, TableFault::Range),
    }
}

// What a point of an obligation shows.
fn shown_at(
    alloc: Global,
    tables: &Tables,
    table: u32,
    fault: TableFault,
    obligation: Obligation,
    point: &[i64],
) -> Result<Cover, NoMemory>
    requires table { table < length tables.now.tables }
    requires coverage { IsCoverage tables.now table fault obligation }
    requires point { IsPointIn obligation.formula obligation.area.spans point.now }
    ensures { IfOk result (IsFound tables.now (number_of table (meant fault))) }
{
    match fault {
        TableFault::Gap => gap_at(alloc, tables, table, obligation, point),
        TableFault::Overlap => overlap_at(alloc, tables, table, obligation, point),
        TableFault::Range => range_at(alloc, tables, table, obligation, point),
    }
}

/// Makes the obligation with this number and tries it.
pub(crate) fn try_number(alloc: Global, tables: &Tables, number: u32) -> Result<Attempt, NoMemory>
    requires some { 1 ≤ number }
    requires last { number ≤ 3 * length tables.now.tables }
    ensures { IfOk result (IsAttempt tables.now number) }
{
    laws();
    let (table, fault) = about(number);
    let made = coverage(alloc, tables, table, fault)?;
    let tried = try_formula(alloc, &made.formula, &made.area, tables.splits)?;
    match tried {
        Tried::Closed(cert) => Ok(Attempt::Closed(cert)),
        Tried::Point(point) => {
            let found = shown_at(alloc, tables, table, fault, made, point.as_slice())?;
            Ok(Attempt::Stopped(found))
        }
        Tried::Spent(tree) => Ok(Attempt::Stopped(Cover::Spent {
            obligation: number,
            tree,
        })),
    }
}
