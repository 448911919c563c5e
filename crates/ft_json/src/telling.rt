//! The members of each report.
ghost use Rattle.std.specs.Prelude.{◌≡◌, codes, OnOk};
ghost use Rattle.serde_json.specs.Data.{put};
ghost use Rattle.serde_json.specs.View.{members_view};
ghost use Rattle.ft_report.specs.meaning.FaultText.{fault_text};
ghost use Rattle.ft_report.specs.meaning.Fitting.{IsFitting, IsNumberOfFact, IsSubjectOf};
ghost use Rattle.ft_report.specs.meaning.Report.{gap_words, overlap_words, range_words, stops_words};
ghost use Rattle.ft_json.specs.building.Adding.{Adds, with_counts, with_fails, with_fault, with_list, with_short, with_shorts};
ghost use Rattle.ft_json.specs.building.Adding.{with_spent, with_state};
ghost use Rattle.ft_json.specs.meaning.Values.{count_data};

use crate::entries::{
    put_counts, put_fails, put_fault, put_list, put_short, put_shorts, put_spent, put_state,
};
use crate::members::put_count;
use ft_admit::SetFault;
use ft_base::NoMemory;
use ft_core::{History, State, Tables};
use ft_report::{
    Report, Short, Subject, fault_line, gap_words, overlap_words, range_words, stops_words,
};
use serde_json::{Map, Value};
use std::alloc::Global;

fn put_verified(
    alloc: Global,
    members: &mut Map<String, Value>,
    tables: &Tables,
    list: &History,
) -> Result<(), NoMemory>
    ensures { OnOk result (members_view members.new.entries
        ≡ with_list tables.now list.now (with_counts tables.now (members_view members.old.entries))) }
{
    put_counts(alloc, members, tables)?;
    put_list(alloc, members, tables, list)
}

fn put_refuted(
    alloc: Global,
    members: &mut Map<String, Value>,
    tables: &Tables,
    list: &History,
    scan: usize,
) -> Result<(), NoMemory>
    ensures { OnOk result (members_view members.new.entries
        ≡ with_list tables.now list.now (put (codes "scan") (count_data scan) (members_view members.old.entries))) }
{
    put_count(alloc, members, "scan", scan)?;
    put_list(alloc, members, tables, list)
}

fn put_failing(
    alloc: Global,
    members: &mut Map<String, Value>,
    tables: &Tables,
    obligation: u32,
    state: &State,
    short: &Short,
) -> Result<(), NoMemory>
    requires { IsNumberOfFact tables.now obligation }
    ensures { OnOk result (members_view members.new.entries
        ≡ with_fails tables.now obligation (with_short tables.now short.now (with_state state.now (members_view members.old.entries)))) }
{
    put_state(alloc, members, state)?;
    put_short(alloc, members, tables, short)?;
    put_fails(alloc, members, tables, obligation)
}

fn put_spending(
    alloc: Global,
    members: &mut Map<String, Value>,
    tables: &Tables,
    subject: Subject,
    short: &Option<Short>,
) -> Result<(), NoMemory>
    requires { IsSubjectOf tables.now subject }
    ensures { OnOk result (members_view members.new.entries
        ≡ with_spent tables.now subject (with_shorts tables.now short.now (members_view members.old.entries))) }
{
    put_shorts(alloc, members, tables, short)?;
    put_spent(alloc, members, tables, subject)
}

fn put_refused(
    alloc: Global,
    members: &mut Map<String, Value>,
    fault: &SetFault,
) -> Result<(), NoMemory>
    ensures { OnOk result (members_view members.new.entries ≡ with_fault (fault_text fault.now) (members_view members.old.entries)) }
{
    let words = fault_line(alloc, fault)?;
    put_fault(alloc, members, words.as_slice())
}

fn put_stops(alloc: Global, members: &mut Map<String, Value>, length: u32) -> Result<(), NoMemory>
    ensures { OnOk result (members_view members.new.entries ≡ with_fault (stops_words length) (members_view members.old.entries)) }
{
    let words = stops_words(alloc, length)?;
    put_fault(alloc, members, words.as_slice())
}

fn put_gap(
    alloc: Global,
    members: &mut Map<String, Value>,
    tables: &Tables,
    table: u32,
    state: &State,
) -> Result<(), NoMemory>
    ensures { OnOk result (members_view members.new.entries
        ≡ with_state state.now (with_fault (gap_words tables.now table) (members_view members.old.entries))) }
{
    let words = gap_words(alloc, tables, table)?;
    put_fault(alloc, members, words.as_slice())?;
    put_state(alloc, members, state)
}

fn put_overlap(
    alloc: Global,
    members: &mut Map<String, Value>,
    tables: &Tables,
    table: u32,
    first: (u32, u32),
    second: (u32, u32),
    state: &State,
) -> Result<(), NoMemory>
    ensures { OnOk result (members_view members.new.entries
        ≡ with_state state.now (with_fault (overlap_words tables.now table first second) (members_view members.old.entries))) }
{
    let words = overlap_words(alloc, tables, table, first, second)?;
    put_fault(alloc, members, words.as_slice())?;
    put_state(alloc, members, state)
}

fn put_range(
    alloc: Global,
    members: &mut Map<String, Value>,
    tables: &Tables,
    table: u32,
    cell: (u32, u32),
    state: &State,
) -> Result<(), NoMemory>
    ensures { OnOk result (members_view members.new.entries
        ≡ with_state state.now (with_fault (range_words tables.now table cell) (members_view members.old.entries))) }
{
    let words = range_words(alloc, tables, table, cell)?;
    put_fault(alloc, members, words.as_slice())?;
    put_state(alloc, members, state)
}

/// Puts what a report tells beside its status and its verdict.
pub(crate) fn put_report(
    alloc: Global,
    members: &mut Map<String, Value>,
    report: &Report,
) -> Result<(), NoMemory>
    requires { IsFitting report.now }
    ensures { OnOk result (Adds report.now (members_view members.old.entries) (members_view members.new.entries)) }
{
    match report {
        Report::Verified { tables, list } => put_verified(alloc, members, tables, list),
        Report::Refuted { tables, list, scan } => {
            put_refuted(alloc, members, tables, list, *scan)
        }
        Report::Fails {
            tables,
            obligation,
            state,
            short,
            ..
        } => put_failing(alloc, members, tables, *obligation, state, short),
        Report::Spent {
            tables,
            subject,
            short,
            ..
        } => put_spending(alloc, members, tables, *subject, short),
        Report::Refused(fault) => put_refused(alloc, members, fault),
        Report::NatStops { length } => put_stops(alloc, members, *length),
        Report::Gap {
            tables,
            table,
            state,
        } => put_gap(alloc, members, tables, *table, state),
        Report::Overlap {
            tables,
            table,
            first,
            second,
            state,
        } => put_overlap(alloc, members, tables, *table, *first, *second, state),
        Report::OutOfRange {
            tables,
            table,
            cell,
            state,
        } => put_range(alloc, members, tables, *table, *cell, state),
        Report::Usage | Report::ReadFault | Report::TooLong(_) | Report::NoMemory => Ok(()),
        Report::Printed(_) | Report::Demo { .. } => Ok(()),
        Report::Agree { .. } | Report::Differ { .. } => Ok(()),
        Report::TraceRefused(_) | Report::NatRefuses { .. } => Ok(()),
    }
}
