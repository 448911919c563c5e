//! The list of scans that a point of a formula tells.
ghost use Rattle.std.specs.Prelude.{◌≡◌, ◌≤◌, ◌<◌, ◌==◌, [], ◌∷◌, ◌++◌, IfOk, OnOk};
ghost use Rattle.std.specs.List.{position};
ghost use Rattle.ft_core.specs.declared.tables.VarKind.TheVariants as kind;
ghost use Rattle.ft_core.specs.meaning.Kinds.{same_kind};
ghost use Rattle.ft_linear.specs.meaning.Form.{values_at};
ghost use Rattle.ft_unroll.specs.building.Telling.{AreRows, IsRow, told_or};

use crate::framing::base_of;
use ft_base::{List, NoMemory};
use ft_core::{History, Tables, Var, VarKind};
use std::alloc::Global;

// The place of a name among names.
fn place_in(names: &[u32], name: u32) -> Option<usize>
    ensures { result ≡ position (λ n. n == name) names.now }
{
    names.iter().position(|known| *known == name)
}

// The value of the unknown at a place, and 0 past the last.
fn value_at(values: &[i64], place: usize) -> i64
    ensures { result ≡ values_at values.now place }
{
    match values.get(place) {
        Some(value) => *value,
        None => 0,
    }
}

// The value that a point gives a name of a variable, where its formula has the name, and else the least of the variable's range.
fn told_or(names: &[u32], values: &[i64], name: u32, var: &Var) -> i64
    ensures { result ≡ told_or names.now values.now name var.now.range.0 }
{
    match place_in(names, name) {
        Some(place) => value_at(values, place),
        None => var.range.lo(),
    }
}

// Adds it to a row.
fn add_told(
    row: &mut List<i64>,
    names: &[u32],
    values: &[i64],
    name: u32,
    var: &Var,
) -> Result<(), NoMemory>
    ensures { OnOk result (row.new ≡ row.old ++ told_or names.now values.now name var.now.range.0 ∷ []) }
{
    row.push(told_or(names, values, name, var))
}

fn is_monitored(var: &Var) -> bool
    ensures { result ≡ same_kind kind.Mon var.now.kind }
{
    var.kind == VarKind::Mon
}

// The monitored values of a scan whose names begin at `base`.
fn row_of(
    alloc: Global,
    tables: &Tables,
    base: u32,
    names: &[u32],
    values: &[i64],
) -> Result<List<i64>, NoMemory>
    requires { base ≤ 1000000 }
    ensures { IfOk result (IsRow tables.now names.now values.now base) }
{
    let mut row = List::new(alloc);
    for (variable, var) in tables.vars.as_slice().iter().enumerate() {
        if is_monitored(var) {
            add_told(&mut row, names, values, base + variable as u32, var)?;
        }
    }
    Ok(row)
}

/// The list of so many scans that a point of a formula tells whose names these are. A variable whose name isn't among them has the
/// least value of its range. It takes time in proportion to the monitored values of the scans times the names.
pub(crate) fn history_of(
    alloc: Global,
    tables: &Tables,
    scans: u32,
    names: &[u32],
    values: &[i64],
) -> Result<History, NoMemory>
    requires { scans ≤ 8 }
    ensures { IfOk result (AreRows tables.now names.now values.now scans) }
{
    let mut history = History::new(alloc);
    for scan in 0..scans {
        let base = base_of(tables, scan);
        let row = row_of(alloc, tables, base, names, values)?;
        history.add(row.as_slice())?;
    }
    Ok(history)
}
