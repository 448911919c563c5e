//! Both sides of a set, run over the trace in another file.
ghost use Rattle.std.specs.Prelude.{◌≡◌, Some, IfErr, IfOk};
ghost use Rattle.std.specs.List.{Contains};
ghost use Rattle.ft_mean.specs.meaning.Proper.{AllProper};
ghost use Rattle.ft_port.specs.Shelf.{OthersStay};
ghost use Rattle.ft_stream.specs.meaning.Mark.{after_mark};
ghost use Rattle.ft_cli.specs.Top.{IsOutcome, NoOthers, replay, use_of};
ghost use Rattle.ft_cli.specs.meaning.Replay.{IsRun};
ghost use Rattle.ft_cli.specs.stages.Command.{IsTraceOutcome, report_on_streamed, report_on_trace};

use crate::fetching::fetched;
use crate::judging::proper_set;
use ft_core::Tables;
use ft_port::Shelf;
use ft_report::{Report, Which};
use ft_stream::{Streamed, after_mark, stream};
use ft_trace::TraceFault;
use std::alloc::Global;

/// The report on bytes that spell no trace. Want of memory is none.
fn trace_refused(fault: TraceFault) -> Report
    ensures { result ≡ report_on_trace fault }
{
    match fault {
        TraceFault::NoMemory => Report::NoMemory,
        fault => Report::TraceRefused(fault),
    }
}

/// The report on what the two sides did.
fn streamed(found: Streamed) -> Report
    ensures { result ≡ report_on_streamed found }
{
    match found {
        Streamed::Agree { scans } => Report::Agree { scans },
        Streamed::Differ { scan } => Report::Differ { scan },
        Streamed::Forbidden { scan } => Report::NatRefuses { scan },
    }
}

/// What both sides of a set do on the trace in a text: on what follows its mark, or on the whole where it has none.
fn replay_text(alloc: Global, tables: &Tables, text: &[u8]) -> Report
    requires { AllProper tables.now }
    ensures { IsRun tables.now (after_mark text.now) result }
{
    match stream(alloc, tables, after_mark(text)) {
        Ok(found) => streamed(found),
        Err(fault) => trace_refused(fault),
    }
}

/// What both sides of a set do on the trace in a file.
fn replay_file<S: Shelf>(alloc: Global, tables: &Tables, trace: &str, shelf: &mut S) -> Report
    requires known { Contains (S.names shelf.old) trace.now }
    requires proper { AllProper tables.now }
    ensures outcome { IsTraceOutcome (use_of (S.content shelf.old) (S.reads shelf.new) (S.faults shelf.old) (S.faults shelf.new)
        (S.reach shelf.new) trace.now) tables.now result }
    ensures others { OthersStay trace.now (S.reach shelf.old) (S.reach shelf.new) (S.faults shelf.old) (S.faults shelf.new)
        (S.reads shelf.old) (S.reads shelf.new) }
    ensures content { S.content shelf.new ≡ S.content shelf.old }
    ensures names { S.names shelf.new ≡ S.names shelf.old }
{
    match fetched(alloc, shelf, trace, Which::Trace) {
        Ok(text) => replay_text(alloc, tables, text.as_slice()),
        Err(report) => report,
    }
}

/// The report on a set and a trace, from the last stage or from the one that stops it. Where both files are one, it is fetched once.
fn replayed<S: Shelf>(
    alloc: Global,
    file: &str,
    trace: &str,
    shelf: &mut S,
) -> Result<Report, Report>
    requires file { Contains (S.names shelf.old) file.now }
    requires trace { Contains (S.names shelf.old) trace.now }
    ensures ended { IfOk result (IsOutcome (Some (replay file.now trace.now)) (use_of (S.content shelf.old) (S.reads shelf.new)
        (S.faults shelf.old) (S.faults shelf.new) (S.reach shelf.new))) }
    ensures stopped { IfErr result (IsOutcome (Some (replay file.now trace.now)) (use_of (S.content shelf.old) (S.reads shelf.new)
        (S.faults shelf.old) (S.faults shelf.new) (S.reach shelf.new))) }
    ensures others { NoOthers (Some (replay file.now trace.now)) (S.reach shelf.old) (S.reach shelf.new) (S.faults shelf.old)
        (S.faults shelf.new) (S.reads shelf.old) (S.reads shelf.new) }
    ensures content { S.content shelf.new ≡ S.content shelf.old }
    ensures names { S.names shelf.new ≡ S.names shelf.old }
{
    let text = fetched(alloc, shelf, file, Which::Set)?;
    let tables = proper_set(alloc, text.as_slice())?;
    if trace == file {
        Ok(replay_text(alloc, &tables, text.as_slice()))
    } else {
        Ok(replay_file(alloc, &tables, trace, shelf))
    }
}

/// What both sides of the set in a file do on the trace in another.
pub fn replay<S: Shelf>(alloc: Global, file: &str, trace: &str, shelf: &mut S) -> Report
    requires file { Contains (S.names shelf.old) file.now }
    requires trace { Contains (S.names shelf.old) trace.now }
    ensures outcome { IsOutcome (Some (replay file.now trace.now)) (use_of (S.content shelf.old) (S.reads shelf.new) (S.faults shelf.old)
        (S.faults shelf.new) (S.reach shelf.new)) result }
    ensures others { NoOthers (Some (replay file.now trace.now)) (S.reach shelf.old) (S.reach shelf.new) (S.faults shelf.old)
        (S.faults shelf.new) (S.reads shelf.old) (S.reads shelf.new) }
    ensures content { S.content shelf.new ≡ S.content shelf.old }
    ensures names { S.names shelf.new ≡ S.names shelf.old }
{
    match replayed(alloc, file, trace, shelf) {
        Ok(report) => report,
        Err(report) => report,
    }
}
