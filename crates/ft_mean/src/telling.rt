//! The scans that a list tells, with a value of each variable of the set.
ghost use Rattle.std.specs.Prelude.{◌≡◌, length, IfOk};
ghost use Rattle.ft_mean.specs.judge.Scope.{kinds_of, row_of, scans_of};
ghost use Rattle.ft_mean.specs.meaning.Reading.{reading_of, before};

use crate::scope::{Scope, recorded, recorded_before};
use crate::seen::Seen;
use ft_base::{List, NoMemory};
use ft_core::{History, Tables};
use std::alloc::Global;

fn row_now(
    alloc: Global,
    tables: &Tables,
    scope: Scope,
    scans: &History,
    scan: usize,
) -> Result<List<i64>, NoMemory>
    ensures { IfOk result (λ row. row ≡ row_of tables.now (reading_of tables.now (kinds_of scope) scans.now scan)) }
{
    let mut row = List::new(alloc);
    for variable in 0..tables.vars.len() {
        row.push(recorded(tables, scope, scans, scan, variable))?;
    }
    Ok(row)
}

fn row_before(
    alloc: Global,
    tables: &Tables,
    scope: Scope,
    scans: &History,
    scan: usize,
) -> Result<List<i64>, NoMemory>
    ensures { IfOk result (λ row. row
        ≡ row_of tables.now (before tables.now (reading_of tables.now (kinds_of scope) scans.now) scan)) }
{
    let mut row = List::new(alloc);
    for variable in 0..tables.vars.len() {
        row.push(recorded_before(tables, scope, scans, scan, variable))?;
    }
    Ok(row)
}

/// All scans of a list, where no memory is known yet.
pub(crate) fn seen_of(
    alloc: Global,
    tables: &Tables,
    scope: Scope,
    scans: &History,
) -> Result<Seen, NoMemory>
    ensures { IfOk result (λ seen. seen
        ≡ scans_of tables.now (reading_of tables.now (kinds_of scope) scans.now) (length scans.now)) }
{
    let mut rows = History::new(alloc);
    let mut past = History::new(alloc);
    for scan in 0..scans.scans() {
        rows.add(row_now(alloc, tables, scope, scans, scan)?.as_slice())?;
        past.add(row_before(alloc, tables, scope, scans, scan)?.as_slice())?;
    }
    Ok(Seen {
        rows,
        past,
        bits: List::new(alloc),
    })
}
