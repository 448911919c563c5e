//! A trace read one record at a time.
ghost use Rattle.std.specs.Prelude.{ℕ, ◌≡◌, ◌≢◌, ◌≤◌, ◌∷◌, ◌++◌, [], List, Some, length, IfOk, IfErr, OnOk, IfSome, MatchBool, false};
ghost use Rattle.csv.specs.Records.{fields_of};
ghost use Rattle.ft_trace.specs.declared.fault.TraceFault.TheVariants as faults;
ghost use Rattle.ft_core.specs.meaning.Kinds.{monitored, count_of};
ghost use Rattle.ft_mean.specs.meaning.Reading.{Scans};
ghost use Rattle.ft_trace.specs.meaning.Reader.{HasGiven, answer_of};
ghost use Rattle.ft_trace.specs.meaning.Source.{Follows, rows_left};
ghost use Rattle.ft_trace.specs.meaning.Spelling.{FaultNext, IsFirstFault, NextScan, OpenFault, SpellsHistory};
ghost use Rattle.ft_trace.specs.declared.reading.End.TheVariants as end;

use crate::TraceFault;
use crate::law::{history_or_fault, one_history};
use crate::row::{is_header, read_record, width};
use crate::source::{source, take_row};
use csv::{ByteRecord, Reader};
use ft_base::NoMemory;
use ft_core::{History, Tables};
use std::alloc::Global;
use std::marker::Model;

/// How the reading of a trace ended.
#[derive(Clone, Copy, Drop)]
pub enum End {
    /// All scans were given.
    Whole,
    /// With a fault.
    Refused(TraceFault),
}

// The next record into `row`, and whether there was one.
fn take_record(reader: &mut Reader<&[u8]>, row: &mut ByteRecord) -> Result<bool, TraceFault>
    requires { Follows reader.old }
    ensures follows { Follows reader.new }
    ensures rows { IfOk result (λ found. MatchBool found (rows_left reader.old ≡ fields_of row.new ∷ rows_left reader.new)
        (rows_left reader.old ≡ [])) }
    ensures memory { IfErr result (λ f. f ≡ faults.NoMemory) }
{
    match take_row(reader, row) {
        Ok(found) => Ok(found),
        Err(NoMemory) => Err(TraceFault::NoMemory),
    }
}

// Reads the next scan, where there is one.
fn read_scan(
    reader: &mut Reader<&[u8]>,
    row: &mut ByteRecord,
    tables: &Tables,
    scan: usize,
    values: &mut [i64],
) -> Result<bool, TraceFault>
    requires follows { Follows reader.old }
    requires few { scan ≤ 100000 }
    requires room { length values.old ≡ count_of monitored tables.now.vars }
    ensures follows { Follows reader.new }
    ensures room { length values.new ≡ length values.old }
    ensures ok { IfOk result (λ found. MatchBool found (NextScan tables.now scan (rows_left reader.old) values.new (rows_left reader.new))
        ((rows_left reader.old ≡ []) × (scan ≢ 0))) }
    ensures fault { IfErr result (FaultNext tables.now scan (rows_left reader.old)) }
{
    match take_record(reader, row) {
        Ok(true) => match read_record(tables, row, scan, values) {
            Ok(()) => Ok(true),
            Err(fault) => Err(fault),
        },
        Ok(false) => {
            if scan == 0 {
                return Err(TraceFault::Empty);
            }
            Ok(false)
        }
        Err(fault) => Err(fault),
    }
}

/// A reader of the scans of a trace. It borrows the bytes and keeps one record.
#[derive(Drop)]
pub struct TraceReader<'b> {
    reader: Reader<&'b [u8]>,
    row: ByteRecord,
    scans: usize,
    ended: Option<End>,
}

impl<'b> Model for TraceReader<'b> {
    ghost use Rattle.ft_trace.specs.meaning.Left.{Left};

    ghost Value = { Left };

    ghost use Rattle.ft_trace.specs.meaning.Left.{left_of, Keeps};

    ghost view = { left_of };

    ghost invariant = { Keeps };
}

impl<'b> TraceReader<'b> {
    /// Reads the header.
    pub fn open(
        alloc: Global,
        tables: &Tables,
        bytes: &'b [u8],
    ) -> Result<TraceReader<'b>, TraceFault>
        ensures ok { IfOk result (λ reader. HasGiven tables.now bytes.now reader []) }
        ensures fault { IfErr result (OpenFault tables.now bytes.now) }
    {
        let mut reader = source(alloc, bytes);
        let mut row = ByteRecord::new(alloc);
        match take_record(&mut reader, &mut row) {
            Ok(true) => {}
            Ok(false) => return Err(TraceFault::Head),
            Err(fault) => return Err(fault),
        }
        if !is_header(tables, &row) {
            return Err(TraceFault::Head);
        }
        Ok(TraceReader {
            reader,
            row,
            scans: 0,
            ended: None,
        })
    }

    /// The next scan into `values`, and whether there was one. The set is that of `open`.
    pub fn next(&mut self, tables: &Tables, values: &mut [i64]) -> Result<bool, TraceFault>
        requires given { (bytes : List ℕ) × (h : Scans) × HasGiven tables.now bytes self.old h }
        requires room { length values.old ≡ count_of monitored tables.now.vars }
        ensures room { length values.new ≡ length values.old }
        ensures ok { (bytes : List ℕ) (h : Scans) → HasGiven tables.now bytes self.old h
            → IfOk result (λ found. MatchBool found (HasGiven tables.now bytes self.new (h ++ values.new ∷ []))
            (SpellsHistory tables.now bytes h × HasGiven tables.now bytes self.new h)) }
        ensures fault { (bytes : List ℕ) (h : Scans) → HasGiven tables.now bytes self.old h
            → IfErr result (λ f. IsFirstFault tables.now bytes f × HasGiven tables.now bytes self.new h) }
        ensures ended { IfOk result (λ found. found ≡ false → self.new.ended ≡ Some end.Whole) }
        ensures refused { IfErr result (λ f. self.new.ended ≡ Some (end.Refused f)) }
        ensures again { IfSome self.old.ended (λ e. (result ≡ answer_of e) × (self.new ≡ self.old)) }
    {
        match self.ended {
            Some(End::Whole) => return Ok(false),
            Some(End::Refused(fault)) => return Err(fault),
            None => {}
        }
        match read_scan(&mut self.reader, &mut self.row, tables, self.scans, values) {
            Ok(true) => {
                self.scans += 1;
                Ok(true)
            }
            Ok(false) => {
                self.ended = Some(End::Whole);
                Ok(false)
            }
            Err(fault) => {
                self.ended = Some(End::Refused(fault));
                Err(fault)
            }
        }
    }
}

// Adds the scans that a reader has left to a history.
fn read_all(
    reader: &mut TraceReader<'_>,
    tables: &Tables,
    values: &mut [i64],
    history: &mut History,
) -> Result<(), TraceFault>
    requires given { (bytes : List ℕ) × HasGiven tables.now bytes reader.old history.old }
    requires room { length values.old ≡ count_of monitored tables.now.vars }
    ensures ok { (bytes : List ℕ) → HasGiven tables.now bytes reader.old history.old
        → OnOk result (SpellsHistory tables.now bytes history.new) }
    ensures fault { (bytes : List ℕ) → HasGiven tables.now bytes reader.old history.old → IfErr result (IsFirstFault tables.now bytes) }
{
    'scans: loop {
        match reader.next(tables, values) {
            Ok(true) => match history.add(values) {
                Ok(()) => {}
                Err(NoMemory) => return Err(TraceFault::NoMemory),
            },
            Ok(false) => return Ok(()),
            Err(fault) => return Err(fault),
        }
    }
}

// The history that the bytes spell, or their first fault.
fn read(alloc: Global, tables: &Tables, bytes: &[u8]) -> Result<History, TraceFault>
    ensures ok { IfOk result (SpellsHistory tables.now bytes.now) }
    ensures fault { IfErr result (IsFirstFault tables.now bytes.now) }
{
    let mut reader = match TraceReader::open(alloc, tables, bytes) {
        Ok(reader) => reader,
        Err(fault) => return Err(fault),
    };
    let mut values = match Vec::from_elem(alloc, 0, width(tables)) {
        Ok(values) => values,
        Err(_) => return Err(TraceFault::NoMemory),
    };
    let mut history = History::new(alloc);
    match read_all(&mut reader, tables, values.as_mut_slice(), &mut history) {
        Ok(()) => Ok(history),
        Err(fault) => Err(fault),
    }
}

/// The history that the bytes spell, or their first fault.
pub fn read_trace(alloc: Global, tables: &Tables, bytes: &[u8]) -> Result<History, TraceFault>
    ensures ok { IfOk result (SpellsHistory tables.now bytes.now) }
    ensures fault { IfErr result (IsFirstFault tables.now bytes.now) }
    ensures only { (h : Scans) → SpellsHistory tables.now bytes.now h → IfErr result (λ f. f ≡ faults.NoMemory) }
    ensures one { (h : Scans) → SpellsHistory tables.now bytes.now h → IfOk result (λ history. history ≡ h) }
{
    one_history();
    history_or_fault();
    match read(alloc, tables, bytes) {
        Ok(history) => Ok(history),
        Err(fault) => Err(fault),
    }
}
