//! The text of a report and its status.
ghost use Rattle.std.specs.Prelude.{◌≡◌, ◌++◌, codes, IfOk};
ghost use Rattle.std.specs.Fmt.{decimal};
ghost use Rattle.ft_core.specs.meaning.Kinds.{monitored};
ghost use Rattle.ft_mean.specs.meaning.Reading.{IsListOf};
ghost use Rattle.ft_report.specs.meaning.Fitting.{IsFitting};
ghost use Rattle.ft_report.specs.meaning.Report.{counts_words, demo_line, set_line, which_word, text_of, status_of};
ghost use Rattle.ft_report.specs.meaning.Words.{line};

use crate::coverage::{gap_text, overlap_text, range_text};
use crate::faults::{fault_line, stops_words, trace_fault_line};
use crate::lines::{add_number, at_scan, ended, refused};
use crate::open::{fails_text, spent_text};
use crate::report::{Report, Which};
use ft_admit::SetFault;
use ft_base::{List, NoMemory, Text};
use ft_core::{History, Tables};
use ft_oblige::count;
use ft_trace::{TraceFault, write_trace};
use ft_tree::write_tree;
use std::alloc::Global;

/// How many variables, tables, blocks and obligations a set has.
fn counts_text(alloc: Global, tables: &Tables) -> Result<Text, NoMemory>
    ensures { IfOk result (λ text. text ≡ counts_words tables.now) }
{
    let mut text = List::copy_of(alloc, b" variables ")?;
    add_number(alloc, &mut text, tables.vars.len())?;
    text.extend(b" tables ")?;
    add_number(alloc, &mut text, tables.tables.len())?;
    text.extend(b" blocks ")?;
    add_number(alloc, &mut text, tables.blocks.len())?;
    text.extend(b" obligations ")?;
    add_number(alloc, &mut text, count(tables) as usize)?;
    Ok(text)
}

fn set_text(alloc: Global, tables: &Tables) -> Result<Text, NoMemory>
    ensures { IfOk result (λ text. text ≡ set_line tables.now) }
{
    let mut text = List::copy_of(alloc, b"set ")?;
    text.extend(tables.name.as_slice())?;
    text.extend(counts_text(alloc, tables)?.as_slice())?;
    text.push(b'\n')?;
    Ok(text)
}

fn demo_text(alloc: Global, number: u32, tables: &Tables) -> Result<Text, NoMemory>
    ensures { IfOk result (λ text. text ≡ demo_line number tables.now) }
{
    let mut text = List::copy_of(alloc, b"demo ")?;
    add_number(alloc, &mut text, number as usize)?;
    text.push(b':')?;
    text.extend(counts_text(alloc, tables)?.as_slice())?;
    text.extend(b" verified\n")?;
    Ok(text)
}

fn verified_text(alloc: Global, tables: &Tables, list: &History) -> Result<Text, NoMemory>
    requires { IsListOf tables.now monitored list.now }
    ensures { IfOk result (λ text. text ≡ text_of (Report.Verified tables.now list.now)) }
{
    let mut text = List::copy_of(alloc, b"verified\n")?;
    text.extend(set_text(alloc, tables)?.as_slice())?;
    text.extend(b"nat list:\n")?;
    text.extend(write_trace(alloc, tables, list)?.as_slice())?;
    Ok(text)
}

fn difference_line(alloc: Global, tables: &Tables, scan: usize) -> Result<Text, NoMemory>
    ensures { IfOk result (λ text. text ≡ line (codes "set " ++ tables.now.name ++ codes " first difference at scan " ++ decimal scan)) }
{
    let mut text = List::copy_of(alloc, b"set ")?;
    text.extend(tables.name.as_slice())?;
    text.extend(b" first difference at scan ")?;
    add_number(alloc, &mut text, scan)?;
    text.push(b'\n')?;
    Ok(text)
}

fn refuted_text(
    alloc: Global,
    tables: &Tables,
    list: &History,
    scan: usize,
) -> Result<Text, NoMemory>
    requires { IsListOf tables.now monitored list.now }
    ensures { IfOk result (λ text. text ≡ text_of (Report.Refuted tables.now list.now scan)) }
{
    let mut text = List::copy_of(alloc, b"refuted\n")?;
    text.extend(difference_line(alloc, tables, scan)?.as_slice())?;
    text.extend(b"replay: ftv replay <set file> <this report>\n")?;
    text.extend(b"trace:\n")?;
    text.extend(write_trace(alloc, tables, list)?.as_slice())?;
    Ok(text)
}

fn too_long_text(alloc: Global, which: Which) -> Result<Text, NoMemory>
    ensures { IfOk result (λ text. text ≡ text_of (Report.TooLong which)) }
{
    match which {
        Which::Set => List::copy_of(alloc, b"too long: set\n"),
        Which::Trace => List::copy_of(alloc, b"too long: trace\n"),
    }
}

fn refused_text(alloc: Global, fault: &SetFault) -> Result<Text, NoMemory>
    ensures { IfOk result (λ text. text ≡ text_of (Report.Refused fault.now)) }
{
    refused(alloc, fault_line(alloc, fault)?)
}

fn stops_text(alloc: Global, length: u32) -> Result<Text, NoMemory>
    ensures { IfOk result (λ text. text ≡ text_of (Report.NatStops length)) }
{
    refused(alloc, stops_words(alloc, length)?)
}

fn agree_text(alloc: Global, scans: usize) -> Result<Text, NoMemory>
    ensures { IfOk result (λ text. text ≡ text_of (Report.Agree scans)) }
{
    let mut text = List::copy_of(alloc, b"agree over ")?;
    add_number(alloc, &mut text, scans)?;
    text.extend(b" scans\n")?;
    Ok(text)
}

fn differ_text(alloc: Global, scan: usize) -> Result<Text, NoMemory>
    ensures { IfOk result (λ text. text ≡ text_of (Report.Differ scan)) }
{
    ended(at_scan(alloc, b"differ", scan)?)
}

fn trace_refused_text(alloc: Global, fault: TraceFault) -> Result<Text, NoMemory>
    ensures { IfOk result (λ text. text ≡ text_of (Report.TraceRefused fault)) }
{
    let mut text = List::copy_of(alloc, b"trace refused\n")?;
    text.extend(ended(trace_fault_line(alloc, fault)?)?.as_slice())?;
    Ok(text)
}

fn nat_refuses_text(alloc: Global, scan: usize) -> Result<Text, NoMemory>
    ensures { IfOk result (λ text. text ≡ text_of (Report.NatRefuses scan)) }
{
    let mut text = List::copy_of(alloc, b"trace refused\n")?;
    text.extend(ended(at_scan(alloc, b"Nat", scan)?)?.as_slice())?;
    Ok(text)
}

/// The text of a report that fits its set, line by line. Each line ends with LF.
pub fn report_text(alloc: Global, report: &Report) -> Result<Text, NoMemory>
    requires { IsFitting report.now }
    ensures { IfOk result (λ text. text ≡ text_of report.now) }
{
    match report {
        Report::Usage => List::copy_of(
            alloc,
            b"usage: ftv verify F, verify-json F, replay F T, print F, gen N, demo N\n",
        ),
        Report::ReadFault => List::copy_of(alloc, b"read fault\n"),
        Report::TooLong(which) => too_long_text(alloc, *which),
        Report::NoMemory => List::copy_of(alloc, b"no memory\n"),
        Report::Refused(fault) => refused_text(alloc, fault),
        Report::Printed(tree) => write_tree(alloc, tree),
        Report::Gap {
            tables,
            table,
            state,
        } => gap_text(alloc, tables, *table, state),
        Report::Overlap {
            tables,
            table,
            first,
            second,
            state,
        } => overlap_text(alloc, tables, *table, *first, *second, state),
        Report::OutOfRange {
            tables,
            table,
            cell,
            state,
        } => range_text(alloc, tables, *table, *cell, state),
        Report::NatStops { length } => stops_text(alloc, *length),
        Report::Fails {
            tables,
            obligation,
            req,
            out,
            state,
            short,
        } => fails_text(alloc, tables, *obligation, *req, *out, state, short),
        Report::Spent {
            tables,
            subject,
            tree,
            short,
        } => spent_text(alloc, tables, *subject, tree, short),
        Report::Verified { tables, list } => verified_text(alloc, tables, list),
        Report::Demo { number, tables, .. } => demo_text(alloc, *number, tables),
        Report::Refuted { tables, list, scan } => refuted_text(alloc, tables, list, *scan),
        Report::Agree { scans } => agree_text(alloc, *scans),
        Report::Differ { scan } => differ_text(alloc, *scan),
        Report::TraceRefused(fault) => trace_refused_text(alloc, *fault),
        Report::NatRefuses { scan } => nat_refuses_text(alloc, *scan),
    }
}

/// The exit status that belongs to a report.
pub fn status_for(report: &Report) -> u8
    ensures { result ≡ status_of report.now }
{
    match report {
        Report::Verified { .. } | Report::Demo { .. } => 0,
        Report::Printed(_) | Report::Agree { .. } => 0,
        Report::Refuted { .. } | Report::Differ { .. } => 1,
        Report::Fails { .. } | Report::Spent { .. } => 2,
        Report::Refused(_) | Report::NatStops { .. } => 3,
        Report::Gap { .. } | Report::Overlap { .. } | Report::OutOfRange { .. } => 3,
        Report::Usage => 4,
        Report::ReadFault => 5,
        Report::NoMemory => 7,
        Report::TraceRefused(_) | Report::NatRefuses { .. } => 8,
        Report::TooLong(_) => 10,
    }
}
