//! The text of a history.
ghost use Rattle.std.specs.Prelude.{◌≡◌, ◌≢◌, ◌≤◌, [], ◌∷◌, ◌++◌, length, slice_index_or, vec_items, pos, IfOk, OnOk, IsTrue};
ghost use Rattle.std.specs.List.{flat_map};
ghost use Rattle.csv.specs.Records.{fields_of, partial_of};
ghost use Rattle.csv.specs.Writing.{default_writer, row_text};
ghost use Rattle.ft_core.specs.meaning.Kinds.{monitored};
ghost use Rattle.ft_mean.specs.meaning.Reading.{IsListOf};
ghost use Rattle.ft_trace.specs.rows.Row.{is_monitored};
ghost use Rattle.ft_trace.specs.meaning.Spelling.{SpellsHistory};
ghost use Rattle.ft_trace.specs.rows.Writer.{HasValue, IsMember, IsWhole, field_if, written};
ghost use Rattle.ft_trace.specs.meaning.Writing.{field_of, fields_by, name_of, scan_field, trace_text};

use crate::row::is_monitored;
use csv::{ByteRecord, Writer};
use ft_base::{List, NoMemory, Text};
use ft_core::{History, Tables, Var};
use std::alloc::Global;

// Adds a field to a record.
fn add_field(row: &mut ByteRecord, field: &[u8]) -> Result<(), NoMemory>
    requires { partial_of row.old ≡ [] }
    ensures whole { OnOk result (partial_of row.new ≡ []) }
    ensures added { OnOk result (fields_of row.new ≡ fields_of row.old ++ field.now ∷ []) }
{
    match row.push_field(field) {
        Ok(()) => Ok(()),
        Err(_) => Err(NoMemory),
    }
}

// Adds the field of a value.
fn add_value(alloc: Global, var: &Var, value: i64, row: &mut ByteRecord) -> Result<(), NoMemory>
    requires whole { partial_of row.old ≡ [] }
    requires member { IsMember var.now value }
    ensures whole { OnOk result (partial_of row.new ≡ []) }
    ensures added { OnOk result (fields_of row.new ≡ fields_of row.old ++ field_of var.now value ∷ []) }
{
    if var.members.len() == 0 {
        let digits = value.to_string(alloc)?;
        return add_field(row, digits.as_bytes());
    }
    add_field(row, var.members.get(value as usize).as_slice())
}

// Adds the name of a variable, if it is monitored.
fn add_name(var: &Var, row: &mut ByteRecord) -> Result<(), NoMemory>
    requires { partial_of row.old ≡ [] }
    ensures whole { OnOk result (partial_of row.new ≡ []) }
    ensures added { OnOk result (fields_of row.new ≡ fields_of row.old ++ field_if name_of var.now) }
{
    if !is_monitored(var) {
        return Ok(());
    }
    add_field(row, var.name.as_slice())
}

// Adds the field of what a scan has of a variable, if it is monitored.
fn add_item(alloc: Global, var: &Var, scan: &[i64], row: &mut ByteRecord) -> Result<(), NoMemory>
    requires whole { partial_of row.old ≡ [] }
    requires value { IsTrue (is_monitored var.now) → HasValue scan.now var.now }
    ensures whole { OnOk result (partial_of row.new ≡ []) }
    ensures added { OnOk result (fields_of row.new ≡ fields_of row.old ++ field_if (scan_field scan.now) var.now) }
{
    if !is_monitored(var) {
        return Ok(());
    }
    add_value(alloc, var, scan[var.place as usize], row)
}

// The record of the names.
fn add_names(vars: &[Var], row: &mut ByteRecord) -> Result<(), NoMemory>
    requires whole { partial_of row.old ≡ [] }
    requires empty { fields_of row.old ≡ [] }
    ensures { OnOk result (fields_of row.new ≡ fields_by name_of vars.now) }
{
    'vars: for var in vars {
        add_name(var, row)?;
    }
    Ok(())
}

// The record of a scan.
fn add_scan(
    alloc: Global,
    tables: &Tables,
    scan: &[i64],
    row: &mut ByteRecord,
) -> Result<(), NoMemory>
    requires scan { IsListOf tables.now monitored (scan.now ∷ []) }
    requires whole { partial_of row.old ≡ [] }
    requires empty { fields_of row.old ≡ [] }
    ensures { OnOk result (fields_of row.new ≡ fields_by (scan_field scan.now) tables.now.vars) }
{
    'vars: for (at, var) in tables.vars.as_slice().iter().enumerate() {
        add_item(alloc, var, scan, row)?;
    }
    Ok(())
}

// Writes a record.
fn put_row(writer: &mut Writer<Vec<u8>>, row: &ByteRecord) -> Result<(), NoMemory>
    requires { IsWhole writer.old }
    ensures whole { OnOk result (IsWhole writer.new) }
    ensures text { OnOk result (written writer.new ≡ written writer.old ++ row_text default_writer (fields_of row.now)) }
{
    match writer.write_byte_record(row) {
        Ok(()) => Ok(()),
        Err(_) => Err(NoMemory),
    }
}

// Writes the line of the names.
fn write_header(
    alloc: Global,
    tables: &Tables,
    writer: &mut Writer<Vec<u8>>,
) -> Result<(), NoMemory>
    requires { IsWhole writer.old }
    ensures whole { OnOk result (IsWhole writer.new) }
    ensures text { OnOk result (written writer.new ≡ written writer.old ++ row_text default_writer (fields_by name_of tables.now.vars)) }
{
    let mut row = ByteRecord::new(alloc);
    add_names(tables.vars.as_slice(), &mut row)?;
    put_row(writer, &row)
}

// Writes the line of a scan.
fn write_scan(
    alloc: Global,
    tables: &Tables,
    scan: &[i64],
    writer: &mut Writer<Vec<u8>>,
) -> Result<(), NoMemory>
    requires scan { IsListOf tables.now monitored (scan.now ∷ []) }
    requires whole { IsWhole writer.old }
    ensures whole { OnOk result (IsWhole writer.new) }
    ensures text { OnOk result (written writer.new ≡ written writer.old
        ++ row_text default_writer (fields_by (scan_field scan.now) tables.now.vars)) }
{
    let mut row = ByteRecord::new(alloc);
    add_scan(alloc, tables, scan, &mut row)?;
    put_row(writer, &row)
}

// Writes the lines of the scans.
fn write_scans(
    alloc: Global,
    tables: &Tables,
    history: &History,
    writer: &mut Writer<Vec<u8>>,
) -> Result<(), NoMemory>
    requires scans { IsListOf tables.now monitored history.now }
    requires whole { IsWhole writer.old }
    ensures whole { OnOk result (IsWhole writer.new) }
    ensures text { OnOk result (written writer.new ≡ written writer.old
        ++ flat_map (λ scan. row_text default_writer (fields_by (scan_field scan) tables.now.vars)) history.now) }
{
    'scans: for scan in 0..history.scans() {
        write_scan(alloc, tables, history.row(scan), writer)?;
    }
    Ok(())
}

// The bytes that were written.
fn finish(writer: Writer<Vec<u8>>) -> Result<Text, NoMemory>
    ensures { IfOk result (λ text. text ≡ written writer) }
{
    match writer.into_inner() {
        Ok(bytes) => Ok(List::from_vec(bytes)),
        Err(_) => Err(NoMemory),
    }
}

/// The text of a history: a line of names and a line for each scan, which read back as the history where it has 1 to 100,000
/// scans. Each scan has a value in range for each monitored variable.
pub fn write_trace(alloc: Global, tables: &Tables, history: &History) -> Result<Text, NoMemory>
    requires { IsListOf tables.now monitored history.now }
    ensures text { IfOk result (λ text. text ≡ trace_text tables.now history.now) }
    ensures spells { IfOk result (λ text. history.now ≢ [] → length history.now ≤ 100000 → SpellsHistory tables.now text history.now) }
{
    let mut writer = Writer::from_writer(Vec::new(alloc));
    write_header(alloc, tables, &mut writer)?;
    write_scans(alloc, tables, history, &mut writer)?;
    finish(writer)
}
