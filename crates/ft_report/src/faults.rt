//! The line of a fault of a set, and of a trace.
ghost use Rattle.std.specs.Prelude.{◌≡◌, ◌++◌, codes, map, IfOk, OnOk};
ghost use Rattle.ft_report.specs.meaning.FaultText.{at_column, at_place, fault_text, kind_word, limit_word, listed, place_text};
ghost use Rattle.ft_report.specs.meaning.FaultText.{trace_fault_text, why_word};
ghost use Rattle.ft_report.specs.meaning.Report.{stops_words};
ghost use Rattle.ft_report.specs.meaning.Words.{named, section_word};

use crate::lines::{add_number, at_scan, named, section_word};
use ft_admit::SetFault;
use ft_base::{List, NoMemory, Place, Text};
use ft_core::{Section, VarKind};
use ft_measure::Why;
use ft_read::LimitWord;
use ft_trace::TraceFault;
use std::alloc::Global;

/// LINE:COLUMN.
fn add_place(alloc: Global, text: &mut Text, place: Place) -> Result<(), NoMemory>
    ensures { OnOk result (text.new ≡ text.old ++ place_text place) }
{
    let line = place.line.to_string(alloc)?;
    text.extend(line.as_bytes())?;
    text.push(b':')?;
    let column = place.column.to_string(alloc)?;
    text.extend(column.as_bytes())
}

fn limit_name(which: LimitWord) -> &'static [u8]
    ensures { result.now ≡ limit_word which }
{
    match which {
        LimitWord::Name => b"name",
        LimitWord::Number => b"number",
        LimitWord::Constants => b"constants",
        LimitWord::Types => b"types",
        LimitWord::Members => b"members",
        LimitWord::Variables => b"variables",
        LimitWord::Memories => b"memories",
        LimitWord::Nat => b"nat",
        LimitWord::Tables => b"tables",
        LimitWord::Rows => b"rows",
        LimitWord::Columns => b"columns",
        LimitWord::Blocks => b"blocks",
        LimitWord::Facts => b"facts",
        LimitWord::List => b"list",
        LimitWord::Expression => b"expression",
        LimitWord::Nesting => b"nesting",
    }
}

fn kind_name(kind: VarKind) -> &'static [u8]
    ensures { result.now ≡ kind_word kind }
{
    match kind {
        VarKind::Mon => b"mon",
        VarKind::Con => b"con",
        VarKind::Input => b"input",
        VarKind::Output => b"output",
        VarKind::ReqInner => b"req var",
        VarKind::SofInner => b"sof var",
    }
}

fn why_name(why: Why) -> &'static [u8]
    ensures { result.now ≡ why_word why }
{
    match why {
        Why::Product => b"product",
        Why::Factor => b"factor",
        Why::Divisor => b"divisor",
        Why::Size => b"size",
    }
}

/// Words with a place after them.
fn at_place(alloc: Global, words: &[u8], place: Place) -> Result<Text, NoMemory>
    ensures { IfOk result (λ text. text ≡ at_place words.now place) }
{
    let mut text = List::copy_of(alloc, words)?;
    text.extend(b" at ")?;
    add_place(alloc, &mut text, place)?;
    Ok(text)
}

fn named_at(alloc: Global, words: &[u8], name: &[u8], place: Place) -> Result<Text, NoMemory>
    ensures { IfOk result (λ text. text ≡ at_place (named words.now name.now) place) }
{
    let whole = named(alloc, words, name)?;
    at_place(alloc, whole.as_slice(), place)
}

/// A name with its section before it.
fn in_section(alloc: Global, words: &[u8], section: Section, name: &[u8]) -> Result<Text, NoMemory>
    ensures { IfOk result (λ text. text ≡ named (named words.now (section_word section)) name.now) }
{
    let whole = named(alloc, words, section_word(section))?;
    named(alloc, whole.as_slice(), name)
}

fn in_section_at(
    alloc: Global,
    words: &[u8],
    section: Section,
    name: &[u8],
    place: Place,
) -> Result<Text, NoMemory>
    ensures { IfOk result (λ text. text ≡ at_place (named (named words.now (section_word section)) name.now) place) }
{
    let whole = in_section(alloc, words, section, name)?;
    at_place(alloc, whole.as_slice(), place)
}

/// Names with a comma and a blank between them.
fn listed(alloc: Global, names: &[Text]) -> Result<Text, NoMemory>
    ensures { IfOk result (λ text. text ≡ listed names.now) }
{
    let mut text = List::new(alloc);
    let Some((first, rest)) = names.split_first() else {
        return Ok(text);
    };
    text.extend(first.as_slice())?;
    for name in rest {
        text.extend(b", ")?;
        text.extend(name.as_slice())?;
    }
    Ok(text)
}

fn circle(alloc: Global, words: &[u8], names: &[Text]) -> Result<Text, NoMemory>
    ensures { IfOk result (λ text. text ≡ named words.now (listed names.now)) }
{
    let names = listed(alloc, names)?;
    named(alloc, words, names.as_slice())
}

/// The text of a fault, without the end of its line.
pub fn fault_line(alloc: Global, fault: &SetFault) -> Result<Text, NoMemory>
    ensures { IfOk result (λ text. text ≡ fault_text fault.now) }
{
    match fault {
        SetFault::Syntax { place } => at_place(alloc, b"Syntax", *place),
        SetFault::Limit { which, place } => {
            named_at(alloc, b"Limit", limit_name(*which), *place)
        }
        SetFault::NoVariable { kind } => named(alloc, b"NoVariable", kind_name(*kind)),
        SetFault::DuplicateName { name, place } => {
            named_at(alloc, b"DuplicateName", name.as_slice(), *place)
        }
        SetFault::UnknownName { name, place } => {
            named_at(alloc, b"UnknownName", name.as_slice(), *place)
        }
        SetFault::WrongSide { name, place } => {
            named_at(alloc, b"WrongSide", name.as_slice(), *place)
        }
        SetFault::TypeMismatch { place } => at_place(alloc, b"TypeMismatch", *place),
        SetFault::NotLinear { why, place } => named_at(alloc, b"NotLinear", why_name(*why), *place),
        SetFault::BadRange { place } => at_place(alloc, b"BadRange", *place),
        SetFault::BadHold { place } => at_place(alloc, b"BadHold", *place),
        SetFault::BadBand { place } => at_place(alloc, b"BadBand", *place),
        SetFault::Shape { title, place } => named_at(alloc, b"Shape", title.as_slice(), *place),
        SetFault::NoTable { section, name } => {
            in_section(alloc, b"NoTable", *section, name.as_slice())
        }
        SetFault::TwoTables {
            section,
            name,
            place,
        } => in_section_at(alloc, b"TwoTables", *section, name.as_slice(), *place),
        SetFault::Cycle { names } => circle(alloc, b"Cycle", names.as_slice()),
        SetFault::UnknownInvariant { name, place } => {
            named_at(alloc, b"UnknownInvariant", name.as_slice(), *place)
        }
        SetFault::BlockCycle { names } => circle(alloc, b"BlockCycle", names.as_slice()),
        SetFault::GoalMissing { name } => named(alloc, b"GoalMissing", name.as_slice()),
        SetFault::ShownTwice { name } => named(alloc, b"ShownTwice", name.as_slice()),
        SetFault::NoMemory => List::copy_of(alloc, b"no memory"),
    }
}

/// The fault of a set that allows no list of so many scans, without the end of its line.
pub fn stops_words(alloc: Global, length: u32) -> Result<Text, NoMemory>
    ensures { IfOk result (λ text. text ≡ stops_words length) }
{
    let mut text = List::copy_of(alloc, b"NatStops ")?;
    add_number(alloc, &mut text, length as usize)?;
    Ok(text)
}

/// Words with a scan and a column after them.
fn at_column(alloc: Global, words: &[u8], scan: usize, column: usize) -> Result<Text, NoMemory>
    ensures { IfOk result (λ text. text ≡ at_column words.now scan column) }
{
    let mut text = at_scan(alloc, words, scan)?;
    text.extend(b" column ")?;
    add_number(alloc, &mut text, column)?;
    Ok(text)
}

/// The text of a fault of a trace, without the end of its line.
pub(crate) fn trace_fault_line(alloc: Global, fault: TraceFault) -> Result<Text, NoMemory>
    ensures { IfOk result (λ text. text ≡ trace_fault_text fault) }
{
    match fault {
        TraceFault::Head => List::copy_of(alloc, b"Head"),
        TraceFault::Empty => List::copy_of(alloc, b"Empty"),
        TraceFault::ManyScans => List::copy_of(alloc, b"ManyScans"),
        TraceFault::Width { scan } => at_scan(alloc, b"Width", scan),
        TraceFault::Value { scan, column } => at_column(alloc, b"Value", scan, column),
        TraceFault::OutOfRange { scan, column } => at_column(alloc, b"OutOfRange", scan, column),
        TraceFault::NoMemory => List::copy_of(alloc, b"no memory"),
    }
}
