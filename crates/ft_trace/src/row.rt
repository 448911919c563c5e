//! The scan that a record spells.
ghost use Rattle.std.specs.Prelude.{ℕ, ◌≡◌, ◌↔◌, ◌<◌, ◌≤◌, IsTrue, List, length, slice_get, slice_set, option_map, Some, OnOk, IfOk, IfErr};
ghost use Rattle.std.specs.List.{count_by, list_all};
ghost use Rattle.csv.specs.Records.{fields_of};
ghost use Rattle.ft_core.specs.meaning.Kinds.{monitored, count_of};
ghost use Rattle.ft_trace.specs.meaning.Field.{Spells};
ghost use Rattle.ft_trace.specs.rows.Row.{FieldFault, HasPlace, ReadsField, StopsAt, is_field, is_monitored, is_named};
ghost use Rattle.ft_trace.specs.meaning.Spelling.{IsHeader, RecordFault, RowFault, SpellsBefore, SpellsScan};

use crate::TraceFault;
use crate::field::value_of;
use csv::ByteRecord;
use ft_core::{Tables, Var, VarKind};

const MAX_SCANS: usize = 100_000;

// The field of a record at a place.
fn field_at(row: &ByteRecord, place: usize) -> &[u8]
    requires { place < length (fields_of row.now) }
    ensures { slice_get (fields_of row.now) place ≡ Some result.now }
{
    let Some(field) = row.get(place) else {
        unreachable!()
    };
    field
}

// The value in range that a field spells.
fn value_in_range(var: &Var, field: &[u8], scan: usize) -> Result<i64, TraceFault>
    ensures ok { IfOk result (Spells var.now field.now) }
    ensures fault { IfErr result (FieldFault var.now field.now scan) }
{
    let column = var.place as usize + 1;
    let Some(value) = value_of(var, field) else {
        return Err(TraceFault::Value { scan, column });
    };
    if value < var.range.lo() || var.range.hi() < value {
        return Err(TraceFault::OutOfRange { scan, column });
    }
    Ok(value)
}

fn put(values: &mut [i64], place: usize, value: i64)
    requires { place < length values.old }
    ensures { values.new ≡ slice_set values.old place value }
{
    values[place] = value;
}

/// Whether a variable is monitored.
pub(crate) fn is_monitored(var: &Var) -> bool
    ensures { result ≡ is_monitored var.now }
{
    var.kind == VarKind::Mon
}

// Reads the field of a variable, if it is monitored.
fn read_field(
    var: &Var,
    row: &ByteRecord,
    scan: usize,
    values: &mut [i64],
) -> Result<(), TraceFault>
    requires field { HasPlace var.now (fields_of row.now) }
    requires room { HasPlace var.now values.old }
    ensures ok { OnOk result (ReadsField var.now (fields_of row.now) values.old values.new) }
    ensures fault { IfErr result (StopsAt var.now (fields_of row.now) scan) }
{
    if !is_monitored(var) {
        return Ok(());
    }
    let field = field_at(row, var.place as usize);
    match value_in_range(var, field, scan) {
        Ok(value) => {
            put(values, var.place as usize, value);
            Ok(())
        }
        Err(fault) => Err(fault),
    }
}

// Reads the fields of a scan's record, of which there is one for each monitored variable, in order of declaration.
fn read_fields(
    tables: &Tables,
    row: &ByteRecord,
    scan: usize,
    values: &mut [i64],
) -> Result<(), TraceFault>
    requires width { length (fields_of row.now) ≡ count_of monitored tables.now.vars }
    requires room { length values.old ≡ count_of monitored tables.now.vars }
    ensures room { length values.new ≡ length values.old }
    ensures ok { OnOk result (SpellsBefore tables.now (fields_of row.now) values.new (length tables.now.vars)) }
    ensures fault { IfErr result (RowFault tables.now scan (fields_of row.now)) }
{
    'vars: for (at, var) in tables.vars.as_slice().iter().enumerate() {
        match read_field(var, row, scan, values) {
            Ok(()) => {}
            Err(fault) => return Err(fault),
        }
    }
    Ok(())
}

/// Reads the record of a scan, of which there are at most 100,000.
pub(crate) fn read_record(
    tables: &Tables,
    row: &ByteRecord,
    scan: usize,
    values: &mut [i64],
) -> Result<(), TraceFault>
    requires few { scan ≤ 100000 }
    requires room { length values.old ≡ count_of monitored tables.now.vars }
    ensures room { length values.new ≡ length values.old }
    ensures ok { OnOk result ((scan < 100000) × SpellsScan tables.now (fields_of row.now) values.new) }
    ensures fault { IfErr result (RecordFault tables.now scan (fields_of row.now)) }
{
    if scan == MAX_SCANS {
        return Err(TraceFault::ManyScans);
    }
    if row.len() != width(tables) {
        return Err(TraceFault::Width { scan });
    }
    match read_fields(tables, row, scan, values) {
        Ok(()) => Ok(()),
        Err(fault) => Err(fault),
    }
}

fn count_monitored(vars: &[Var]) -> usize
    ensures { result ≡ count_by is_monitored vars.now }
{
    vars.iter().filter(|var| is_monitored(var)).count()
}

// How many variables are monitored.
pub(crate) fn width(tables: &Tables) -> usize
    ensures { result ≡ count_of monitored tables.now.vars }
{
    count_monitored(tables.vars.as_slice())
}

// Whether a field is the name of a variable.
fn is_field(field: Option<&[u8]>, name: &[u8]) -> bool
    ensures { result ≡ is_field (option_map (λ f. f.now) field.entry) name.now }
{
    match field {
        Some(field) => field == name,
        None => false,
    }
}

// Whether a record has the name of a variable at its place, if it is monitored.
fn is_named(var: &Var, row: &ByteRecord) -> bool
    ensures { result ≡ is_named (fields_of row.now) var.now }
{
    !is_monitored(var) || is_field(row.get(var.place as usize), var.name.as_slice())
}

fn are_named(vars: &[Var], row: &ByteRecord) -> bool
    ensures { result ≡ list_all (is_named (fields_of row.now)) vars.now }
{
    vars.iter().all(|var| is_named(var, row))
}

/// Whether a record has the names of the monitored variables, in order of declaration.
pub(crate) fn is_header(tables: &Tables, row: &ByteRecord) -> bool
    ensures { IsTrue result ↔ IsHeader tables.now (fields_of row.now) }
{
    row.len() == width(tables) && are_named(tables.vars.as_slice(), row)
}
