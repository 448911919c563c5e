//! A list of scans as JSON.
ghost use Rattle.std.specs.Prelude.{◌≡◌, ◌∷◌, [], ◌++◌, map, pos, slice_index_or, if◌then◌else◌, IfOk, OnOk};
ghost use Rattle.serde_json.specs.View.{view};
ghost use Rattle.ft_trace.specs.rows.Row.{is_monitored};
ghost use Rattle.ft_json.specs.meaning.Values.{list_data, scan_data, variable_data};

use crate::values::{add, told_value};
use ft_base::NoMemory;
use ft_core::{History, Tables, Var, VarKind};
use serde_json::Value;
use std::alloc::Global;

fn is_monitored(var: &Var) -> bool
    ensures { result ≡ is_monitored var.now }
{
    var.kind == VarKind::Mon
}

/// The value that a scan has of a variable.
fn value_in(scan: &[i64], var: &Var) -> i64
    ensures { result ≡ slice_index_or scan.now var.now.place (pos 0) }
{
    match scan.get(var.place as usize) {
        Some(value) => *value,
        None => 0,
    }
}

/// Adds the value that a scan has of a variable, if it is monitored.
fn add_variable(
    alloc: Global,
    values: &mut Vec<Value>,
    scan: &[i64],
    var: &Var,
) -> Result<(), NoMemory>
    ensures { OnOk result (map view values.new.items
        ≡ map view values.old.items ++ (if is_monitored var.now then variable_data scan.now var.now ∷ [] else [])) }
{
    if !is_monitored(var) {
        return Ok(());
    }
    let value = told_value(alloc, var.members.as_slice(), value_in(scan, var))?;
    add(values, value)
}

/// The values of a scan.
fn scan_value(alloc: Global, vars: &[Var], scan: &[i64]) -> Result<Value, NoMemory>
    ensures { IfOk result (λ value. view value ≡ scan_data vars.now scan.now) }
{
    let mut values = Vec::new(alloc);
    'vars: for var in vars {
        add_variable(alloc, &mut values, scan, var)?;
    }
    Ok(Value::from(values))
}

/// The scans, each with its values in order of declaration.
pub(crate) fn list_value(alloc: Global, tables: &Tables, list: &History) -> Result<Value, NoMemory>
    ensures { IfOk result (λ value. view value ≡ list_data tables.now list.now) }
{
    let mut scans = Vec::new(alloc);
    'scans: for scan in 0..list.scans() {
        let value = scan_value(alloc, tables.vars.as_slice(), list.row(scan))?;
        add(&mut scans, value)?;
    }
    Ok(Value::from(scans))
}
