//! The text of what is left open: a fact that fails at a state, or a search that was spent, with what is known of short lists.
ghost use Rattle.std.specs.Prelude.{◌≡◌, ◌++◌, ◌-◌, codes, slice_get, Some, IfOk, OnOk};
ghost use Rattle.std.specs.Fmt.{decimal};
ghost use Rattle.ft_oblige.specs.meaning.Obligations.{subjects};
ghost use Rattle.ft_report.specs.meaning.Fitting.{IsNumberOfFact, IsSubjectOf};
ghost use Rattle.ft_report.specs.meaning.Report.{cells_line, cells_words, place_words, short_line, short_lines, short_words, spent_line, spent_words};
ghost use Rattle.ft_report.specs.meaning.Report.{subject_text, text_of};
ghost use Rattle.ft_report.specs.meaning.Titles.{fact_about, obligation_name};
ghost use Rattle.ft_report.specs.meaning.Words.{line};

use crate::coverage::add_cell;
use crate::lines::add_number;
use crate::report::Report;
use crate::short::{Short, Subject};
use crate::states::add_state;
use crate::titles::add_obligation;
use ft_base::{List, NoMemory, Text};
use ft_core::{Fact, State, Tables};
use ft_oblige::fact_at;
use ft_search::SpentTree;
use std::alloc::Global;

/// Adds a number after some words.
fn add_after(alloc: Global, text: &mut Text, words: &[u8], number: u32) -> Result<(), NoMemory>
    ensures { OnOk result (text.new ≡ text.old ++ (words.now ++ decimal number)) }
{
    text.extend(words)?;
    add_number(alloc, text, number as usize)
}

/// Adds a number between some words.
fn add_within(
    alloc: Global,
    text: &mut Text,
    words: &[u8],
    number: u32,
    last: &[u8],
) -> Result<(), NoMemory>
    ensures { OnOk result (text.new ≡ text.old ++ (words.now ++ decimal number ++ last.now)) }
{
    add_after(alloc, text, words, number)?;
    text.extend(last)
}

/// Adds what is known of short lists.
fn add_short_words(
    alloc: Global,
    text: &mut Text,
    tables: &Tables,
    short: &Short,
) -> Result<(), NoMemory>
    ensures { OnOk result (text.new ≡ text.old ++ short_words tables.now short.now) }
{
    match short {
        Short::Safe { length } => add_after(alloc, text, b"none differ to length ", *length),
        Short::SpentAt { length, .. } => {
            text.extend(b"spent at length ")?;
            add_number(alloc, text, *length as usize)?;
            text.extend(b" after ")?;
            add_number(alloc, text, tables.splits as usize)?;
            text.extend(b" splits")
        }
    }
}

/// What is known of short lists, without the end of its line. A length is a number of scans.
pub fn short_words(alloc: Global, tables: &Tables, short: &Short) -> Result<Text, NoMemory>
    ensures { IfOk result (λ text. text ≡ short_words tables.now short.now) }
{
    let mut text = List::new(alloc);
    add_short_words(alloc, &mut text, tables, short)?;
    Ok(text)
}

fn add_short(alloc: Global, text: &mut Text, tables: &Tables, short: &Short) -> Result<(), NoMemory>
    ensures { OnOk result (text.new ≡ text.old ++ short_line tables.now short.now) }
{
    text.extend(b"short: ")?;
    add_short_words(alloc, text, tables, short)?;
    text.push(b'\n')
}

/// Adds the line of short lists, where they were searched.
fn add_shorts(
    alloc: Global,
    text: &mut Text,
    tables: &Tables,
    short: &Option<Short>,
) -> Result<(), NoMemory>
    ensures { OnOk result (text.new ≡ text.old ++ short_lines tables.now short.now) }
{
    match short {
        Some(short) => add_short(alloc, text, tables, short),
        None => Ok(()),
    }
}

/// Adds a row and a column, or `-`.
fn add_place(alloc: Global, text: &mut Text, place: Option<(u32, u32)>) -> Result<(), NoMemory>
    ensures { OnOk result (text.new ≡ text.old ++ place_words place) }
{
    match place {
        Some(cell) => add_cell(alloc, text, cell),
        None => text.push(b'-'),
    }
}

/// Adds the cells of a fact: none of an invariant.
fn add_cells(
    alloc: Global,
    text: &mut Text,
    fact: &Fact,
    req: Option<(u32, u32)>,
    out: Option<(u32, u32)>,
) -> Result<(), NoMemory>
    ensures { OnOk result (text.new ≡ text.old ++ cells_words (Some fact.now) req out) }
{
    match fact {
        Fact::Invariant { .. } => text.extend(b"none"),
        Fact::Goal { .. } => {
            text.extend(b"req ")?;
            add_place(alloc, text, req)?;
            text.extend(b" out ")?;
            add_place(alloc, text, out)
        }
    }
}

/// The fact that an obligation is about.
fn fact_of(tables: &Tables, obligation: u32) -> &Fact
    requires { IsNumberOfFact tables.now obligation }
    ensures { fact_about tables.now (slice_get (subjects tables.now) (obligation - 1)) ≡ Some result.now }
{
    let at = fact_at(tables, obligation);
    let owner = tables.blocks.get(at.block as usize);
    owner.facts.get(at.fact as usize)
}

fn add_cells_of(
    alloc: Global,
    text: &mut Text,
    tables: &Tables,
    obligation: u32,
    req: Option<(u32, u32)>,
    out: Option<(u32, u32)>,
) -> Result<(), NoMemory>
    requires { IsNumberOfFact tables.now obligation }
    ensures { OnOk result (text.new ≡ text.old ++ cells_line tables.now obligation req out) }
{
    text.extend(b"cells: ")?;
    add_cells(alloc, text, fact_of(tables, obligation), req, out)?;
    text.push(b'\n')
}

/// The text of a fact that fails at a state, up to the state.
fn failing_lines(
    alloc: Global,
    tables: &Tables,
    obligation: u32,
    req: Option<(u32, u32)>,
    out: Option<(u32, u32)>,
) -> Result<Text, NoMemory>
    requires { IsNumberOfFact tables.now obligation }
    ensures { IfOk result (λ text. text ≡ line (codes "open") ++ line (codes "fails: " ++ obligation_name tables.now obligation)
        ++ cells_line tables.now obligation req out ++ line (codes "state:")) }
{
    let mut text = List::copy_of(alloc, b"open\nfails: ")?;
    add_obligation(&mut text, tables, obligation)?;
    text.push(b'\n')?;
    add_cells_of(alloc, &mut text, tables, obligation, req, out)?;
    text.extend(b"state:\n")?;
    Ok(text)
}

/// The text of a fact that fails at a state.
pub(crate) fn fails_text(
    alloc: Global,
    tables: &Tables,
    obligation: u32,
    req: Option<(u32, u32)>,
    out: Option<(u32, u32)>,
    state: &State,
    short: &Short,
) -> Result<Text, NoMemory>
    requires { IsNumberOfFact tables.now obligation }
    ensures { IfOk result (λ text. text ≡ text_of (Report.Fails tables.now obligation req out state.now short.now)) }
{
    let mut text = failing_lines(alloc, tables, obligation, req, out)?;
    add_state(alloc, &mut text, state)?;
    add_short(alloc, &mut text, tables, short)?;
    Ok(text)
}

/// Adds what a search that was spent looked for.
fn add_subject(
    alloc: Global,
    text: &mut Text,
    tables: &Tables,
    subject: Subject,
) -> Result<(), NoMemory>
    requires { IsSubjectOf tables.now subject }
    ensures { OnOk result (text.new ≡ text.old ++ subject_text tables.now subject) }
{
    match subject {
        Subject::Obligation(number) => add_obligation(text, tables, number),
        Subject::NatList(scans) => add_within(alloc, text, b"nat list of ", scans, b" scans"),
    }
}

/// What a search that was spent looked for, and after how many splits, without the end of its line.
pub fn spent_words(alloc: Global, tables: &Tables, subject: Subject) -> Result<Text, NoMemory>
    requires { IsSubjectOf tables.now subject }
    ensures { IfOk result (λ text. text ≡ spent_words tables.now subject) }
{
    let mut text = List::new(alloc);
    add_subject(alloc, &mut text, tables, subject)?;
    text.extend(b" after ")?;
    add_number(alloc, &mut text, tables.splits as usize)?;
    text.extend(b" splits")?;
    Ok(text)
}

fn add_spent(
    alloc: Global,
    text: &mut Text,
    tables: &Tables,
    subject: Subject,
) -> Result<(), NoMemory>
    requires { IsSubjectOf tables.now subject }
    ensures { OnOk result (text.new ≡ text.old ++ spent_line tables.now subject) }
{
    text.extend(b"spent: ")?;
    text.extend(spent_words(alloc, tables, subject)?.as_slice())?;
    text.push(b'\n')
}

/// The text of a search whose splits are used up.
pub(crate) fn spent_text(
    alloc: Global,
    tables: &Tables,
    subject: Subject,
    tree: &SpentTree,
    short: &Option<Short>,
) -> Result<Text, NoMemory>
    requires { IsSubjectOf tables.now subject }
    ensures { IfOk result (λ text. text ≡ text_of (Report.Spent tables.now subject tree.now short.now)) }
{
    let mut text = List::copy_of(alloc, b"open\n")?;
    add_spent(alloc, &mut text, tables, subject)?;
    add_shorts(alloc, &mut text, tables, short)?;
    Ok(text)
}
