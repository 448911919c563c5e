//! A report as one line of JSON.
ghost use Rattle.std.specs.Prelude.{◌≡◌, ◌==◌, ◌≤◌, false, length, not, IfOk};
ghost use Rattle.std.specs.List.{prefix_len};
ghost use Rattle.serde_json.specs.View.{members_view, view};
ghost use Rattle.serde_json.specs.Written.{compact_text, has_float};
ghost use Rattle.ft_report.specs.meaning.Fitting.{IsFitting};
ghost use Rattle.ft_report.specs.meaning.Report.{status_of, text_of};
ghost use Rattle.ft_json.specs.meaning.Json.{ends, first_line, json_of, json_text};
ghost use Rattle.ft_json.specs.meaning.Values.{members_of};

use crate::members::{put_count, put_text};
use crate::telling::put_report;
use ft_base::{List, NoMemory, Text};
use ft_report::{Report, report_text, status_for};
use serde_json::{Map, Value};
use std::alloc::Global;

/// How many bytes stand before the first LF.
fn line_length(text: &[u8]) -> usize
    ensures length { result ≡ prefix_len (λ byte. not (byte == 10)) text.now }
    ensures within { result ≤ length text.now }
{
    text.iter().take_while(|byte| **byte != b'\n').count()
}

/// What stands before the first LF.
fn first_line(text: &[u8]) -> &[u8]
    ensures { result.now ≡ first_line text.now }
{
    &text[..line_length(text)]
}

/// The members that every report has.
fn ends(alloc: Global, report: &Report) -> Result<Map<String, Value>, NoMemory>
    requires { IsFitting report.now }
    ensures { IfOk result (λ members. members_view members.entries
        ≡ members_of (ends (status_of report.now) (first_line (text_of report.now)))) }
{
    let text = report_text(alloc, report)?;
    let mut members = Map::new(alloc);
    put_text(alloc, &mut members, "verdict", first_line(text.as_slice()))?;
    put_count(alloc, &mut members, "status", status_for(report) as usize)?;
    Ok(members)
}

fn report_value(alloc: Global, report: &Report) -> Result<Value, NoMemory>
    requires { IsFitting report.now }
    ensures value { IfOk result (λ value. view value ≡ json_of report.now) }
    ensures whole { IfOk result (λ value. has_float (view value) ≡ false) }
{
    let mut members = ends(alloc, report)?;
    put_report(alloc, &mut members, report)?;
    Ok(Value::from(members))
}

/// The text of a value that has whole numbers alone.
fn compact(alloc: Global, value: &Value) -> Result<Text, NoMemory>
    requires { has_float (view value.now) ≡ false }
    ensures { IfOk result (λ text. text ≡ compact_text (view value.now)) }
{
    Ok(List::from_vec(value.to_vec(alloc)?))
}

/// The report as one JSON object in compact form, its keys in byte order, ended by LF.
pub fn report_json(alloc: Global, report: &Report) -> Result<Text, NoMemory>
    requires { IsFitting report.now }
    ensures { IfOk result (λ text. text ≡ json_text report.now) }
{
    let value = report_value(alloc, report)?;
    let mut text = compact(alloc, &value)?;
    text.push(b'\n')?;
    Ok(text)
}

/// The same of want of memory, with no memory taken.
pub fn no_memory_json() -> &'static [u8]
    ensures { result.now ≡ json_text Report.NoMemory }
{
    b"{\"status\":7,\"verdict\":\"no memory\"}\n"
}
