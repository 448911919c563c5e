ghost use Rattle.std.specs.Prelude.{ℕ, ◌≡◌, ◌∷◌, [], List, length, Ok, Err, IfErr, IfOk, IfSome, OnOk};
ghost use Rattle.ft_core.specs.meaning.Kinds.{count_of, monitored};
ghost use Rattle.ft_mean.specs.meaning.Allowed.{Allowed};
ghost use Rattle.ft_mean.specs.meaning.Proper.{AllProper};
ghost use Rattle.ft_mean.specs.meaning.Reading.{IsListOf, Scans};
ghost use Rattle.ft_scan.specs.meaning.Allowing.{nat_after};
ghost use Rattle.ft_trace.specs.declared.fault.TraceFault.TheVariants as faults;
ghost use Rattle.ft_trace.specs.meaning.Reader.{HasGiven};
ghost use Rattle.ft_trace.specs.meaning.Spelling.{IsFirstFault, SpellsHistory};
ghost use Rattle.ft_stream.specs.declared.streaming.Streamed.TheVariants as streamed;
ghost use Rattle.ft_stream.specs.meaning.Streamed.{IsStreamed};
ghost use Rattle.ft_stream.specs.steps.Streams.{HasStopped, IsNext, Spells, Streams, kept};

use crate::law::laws;
use crate::rows::zeros;
use ft_base::NoMemory;
use ft_core::Tables;
use ft_replay::Replayer;
use ft_scan::allowed_step;
use ft_trace::{TraceFault, TraceReader, history_or_fault};
use std::alloc::Global;

/// What the two sides of a set do on the list of scans that a trace spells.
#[derive(Clone, Copy, Debug, PartialEq, Eq, Drop)]
pub enum Streamed {
    /// The environment allows the list, and they agree over so many scans, which are all.
    Agree { scans: usize },
    /// The environment allows the list, and they first differ at this scan, from 0.
    Differ { scan: usize },
    /// The environment forbids this scan, from 0, and none before it.
    Forbidden { scan: usize },
}

/// Why no further scan is replayed.
#[derive(Clone, Copy, Drop)]
enum Stop {
    /// The trace has no further scan.
    End,
    /// The environment forbids the next one, which was read.
    Forbidden,
}

/// Whether the environment allows a scan after so many, of which `earlier` is the last.
fn allows(tables: &Tables, scans: usize, earlier: &[i64], row: &[i64]) -> bool
    requires earlier { IfSome (kept scans earlier.now) (λ last. IsListOf tables.now monitored (last ∷ [])) }
    requires row { IsListOf tables.now monitored (row.now ∷ []) }
    ensures { result ≡ nat_after tables.now (kept scans earlier.now) row.now }
{
    if scans == 0 {
        allowed_step(tables, None, row)
    } else {
        allowed_step(tables, Some(earlier), row)
    }
}

/// Reads the next scan into `row` and replays it, unless there is none or the environment forbids it. `earlier` keeps the last scan.
fn replay_next(
    tables: &Tables,
    reader: &mut TraceReader<'_>,
    replayer: &mut Replayer<'_>,
    earlier: &mut [i64],
    row: &mut [i64],
) -> Result<Option<Stop>, TraceFault>
    requires streams { (bytes : List ℕ) × Streams tables.now bytes reader.old replayer.old earlier.old }
    requires room { length row.old ≡ count_of monitored tables.now.vars }
    ensures room { length row.new ≡ length row.old }
    ensures next { (bytes : List ℕ) → Streams tables.now bytes reader.old replayer.old earlier.old
        → IfOk result (IsNext tables.now bytes replayer.old reader.new replayer.new earlier.new row.new) }
    ensures fault { (bytes : List ℕ) → Streams tables.now bytes reader.old replayer.old earlier.old
        → IfErr result (IsFirstFault tables.now bytes) }
{
    laws();
    match reader.next(tables, row) {
        Ok(true) => {}
        Ok(false) => return Ok(Some(Stop::End)),
        Err(fault) => return Err(fault),
    }
    if !allows(tables, replayer.scans(), earlier, row) {
        return Ok(Some(Stop::Forbidden));
    }
    replayer.scan(row);
    earlier.copy_from_slice(row);
    Ok(None)
}

/// Replays the scans that a reader has left, up to one that the environment forbids, which is then in `row`.
fn replay_scans(
    tables: &Tables,
    reader: &mut TraceReader<'_>,
    replayer: &mut Replayer<'_>,
    earlier: &mut [i64],
    row: &mut [i64],
) -> Result<Stop, TraceFault>
    requires streams { (bytes : List ℕ) × Streams tables.now bytes reader.old replayer.old earlier.old }
    requires room { length row.old ≡ count_of monitored tables.now.vars }
    ensures room { length row.new ≡ length row.old }
    ensures stopped { (bytes : List ℕ) → Streams tables.now bytes reader.old replayer.old earlier.old
        → IfOk result (HasStopped tables.now bytes reader.new replayer.new row.new) }
    ensures fault { (bytes : List ℕ) → Streams tables.now bytes reader.old replayer.old earlier.old
        → IfErr result (IsFirstFault tables.now bytes) }
{
    'scans: loop {
        match replay_next(tables, reader, replayer, earlier, row) {
            Ok(None) => {}
            Ok(Some(stop)) => return Ok(stop),
            Err(fault) => return Err(fault),
        }
    }
}

/// Reads the scans that a reader has left.
fn read_to_end(
    tables: &Tables,
    reader: &mut TraceReader<'_>,
    row: &mut [i64],
) -> Result<(), TraceFault>
    requires given { (bytes : List ℕ) × (h : Scans) × HasGiven tables.now bytes reader.old h }
    requires room { length row.old ≡ count_of monitored tables.now.vars }
    ensures ok { (bytes : List ℕ) (h : Scans) → HasGiven tables.now bytes reader.old h → OnOk result (Spells tables.now bytes h) }
    ensures fault { (bytes : List ℕ) (h : Scans) → HasGiven tables.now bytes reader.old h → IfErr result (IsFirstFault tables.now bytes) }
{
    'scans: loop {
        match reader.next(tables, row) {
            Ok(true) => {}
            Ok(false) => return Ok(()),
            Err(fault) => return Err(fault),
        }
    }
}

/// What the two sides did on the list of a replayer, which bytes spell.
fn told(replayer: &Replayer<'_>) -> Streamed
    ensures { (bytes : List ℕ) → SpellsHistory replayer.now.set bytes replayer.now.list → Allowed replayer.now.set replayer.now.list
        → IsStreamed replayer.now.set bytes result }
{
    match replayer.first() {
        Some(scan) => Streamed::Differ { scan },
        None => Streamed::Agree {
            scans: replayer.scans(),
        },
    }
}

/// What is told of a forbidden scan once the rest of the trace was read: a fault of the rest comes first.
fn forbidden_at(scan: usize, rest: Result<(), TraceFault>) -> Result<Streamed, TraceFault>
    ensures ok { IfOk rest (λ read. result ≡ Ok (streamed.Forbidden scan)) }
    ensures fault { IfErr rest (λ later. result ≡ Err later) }
{
    match rest {
        Ok(()) => Ok(Streamed::Forbidden { scan }),
        Err(later) => Err(later),
    }
}

/// Replays the scans that a reader has left, and tells what the two sides did on all of them. After a scan that the environment
/// forbids the others are only read.
fn replay_rest(
    tables: &Tables,
    reader: &mut TraceReader<'_>,
    replayer: &mut Replayer<'_>,
    earlier: &mut [i64],
    row: &mut [i64],
) -> Result<Streamed, TraceFault>
    requires streams { (bytes : List ℕ) × Streams tables.now bytes reader.old replayer.old earlier.old }
    requires room { length row.old ≡ count_of monitored tables.now.vars }
    ensures told { (bytes : List ℕ) → Streams tables.now bytes reader.old replayer.old earlier.old
        → IfOk result (IsStreamed tables.now bytes) }
    ensures fault { (bytes : List ℕ) → Streams tables.now bytes reader.old replayer.old earlier.old
        → IfErr result (IsFirstFault tables.now bytes) }
{
    laws();
    match replay_scans(tables, reader, replayer, earlier, row) {
        Ok(Stop::End) => Ok(told(replayer)),
        Ok(Stop::Forbidden) => {
            let rest = read_to_end(tables, reader, row);
            forbidden_at(replayer.scans(), rest)
        }
        Err(fault) => Err(fault),
    }
}

/// Replays a trace from its first scan on.
fn replay_trace(alloc: Global, tables: &Tables, bytes: &[u8]) -> Result<Streamed, TraceFault>
    requires proper { AllProper tables.now }
    ensures told { IfOk result (IsStreamed tables.now bytes.now) }
    ensures fault { IfErr result (IsFirstFault tables.now bytes.now) }
{
    laws();
    let mut reader = match TraceReader::open(alloc, tables, bytes) {
        Ok(reader) => reader,
        Err(fault) => return Err(fault),
    };
    let (Ok(mut replayer), Ok(mut earlier), Ok(mut row)) = (
        Replayer::open(alloc, tables),
        zeros(alloc, tables),
        zeros(alloc, tables),
    ) else {
        return Err(TraceFault::NoMemory);
    };
    replay_rest(
        tables,
        &mut reader,
        &mut replayer,
        earlier.as_mut_slice(),
        row.as_mut_slice(),
    )
}

/// Reads the bytes of a trace scan by scan and runs both sides of a set over each scan as it is read. After a scan that the environment
/// forbids the trace is only read: a fault of it comes before that scan, however late it is in the bytes. It takes time in proportion
/// to the bytes, and room for a few rows of values and one record.
pub fn stream(alloc: Global, tables: &Tables, bytes: &[u8]) -> Result<Streamed, TraceFault>
    requires proper { AllProper tables.now }
    ensures told { IfOk result (IsStreamed tables.now bytes.now) }
    ensures fault { IfErr result (IsFirstFault tables.now bytes.now) }
    ensures only { (h : Scans) → SpellsHistory tables.now bytes.now h → IfErr result (λ f. f ≡ faults.NoMemory) }
{
    history_or_fault();
    match replay_trace(alloc, tables, bytes) {
        Ok(streamed) => Ok(streamed),
        Err(fault) => Err(fault),
    }
}
