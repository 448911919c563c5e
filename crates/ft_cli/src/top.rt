ghost use Rattle.std.specs.Prelude.{◌≡◌, ◌⊎◌, ◌<◌, ◌-◌, ◌^◌, Some, List, ℕ, drop, length, map, string_bytes};
ghost use Rattle.std.specs.List.{All, Contains};
ghost use Rattle.ft_port.specs.Causes.{one_more};
ghost use Rattle.ft_port.specs.Shelf.{OthersStay};
ghost use Rattle.ft_cli.specs.meaning.Judgement.{IsPrint};
ghost use Rattle.ft_cli.specs.Top.{command_of, demo, files_of, use_of, output_of, print, replay, written_as};
ghost use Rattle.ft_cli.specs.Top.{Generates, HasDemo};
ghost use Rattle.ft_cli.specs.Top.{verify, NamesKnown, NoOthers, PrintsAll, IsOutcome, HasStatus};
ghost use Rattle.ft_cli.specs.Top.{Writes, HasAgreement, HasHeadline, HasRefutation, OfEachSet, ReplaysAll, ReplaysRefuted};
ghost use Rattle.ft_cli.specs.meaning.Completeness.{DecidesWithEnough, IsVerdictOn, RefutesDifferent, VerifiesClosed};
ghost use Rattle.ft_report.specs.meaning.Fitting.{IsFitting};
ghost use Rattle.ft_cli.specs.stages.Command.{HasNumber, asked_by};

use crate::command::{Command, command_of};
use crate::ended::Ended;
use crate::fetching::fetched;
use crate::generating::{demo, generated};
use crate::judging::report_on_text;
use crate::law::laws;
use crate::output::Output;
use crate::refusing::unread;
use crate::replaying::replay;
use ft_base::NoMemory;
use ft_parse::parse;
use ft_port::{Failed, Shelf, Sink};
use ft_report::{Report, Which, status_for};
use std::alloc::Global;

/// The words after the first. Where the words are a form, the names of its files are among these.
pub fn file_words(words: &[String]) -> &[String]
    ensures rest { result.now ≡ drop 1 words.now }
    ensures names { NamesKnown (map string_bytes words.now) (map string_bytes result.now) }
{
    match words {
        [_, files @ ..] => files,
        [] => words,
    }
}

/// The tree that a text spells, or why it spells none. The text is shorter than 2^32 - 1 bytes.
fn print(alloc: Global, text: &[u8]) -> Report
    requires { length text.now < 2 ^ 32 - 1 }
    ensures { IsPrint text.now result }
{
    match parse(alloc, text) {
        Ok(tree) => Report::Printed(tree),
        Err(fault) => unread(fault),
    }
}

/// The verdict on the set in a file.
fn verify<S: Shelf>(alloc: Global, file: &str, shelf: &mut S) -> Report
    requires { Contains (S.names shelf.old) file.now }
    ensures outcome { IsOutcome (Some (verify file.now)) (use_of (S.content shelf.old) (S.reads shelf.new) (S.faults shelf.old)
        (S.faults shelf.new) (S.reach shelf.new)) result }
    ensures others { OthersStay file.now (S.reach shelf.old) (S.reach shelf.new) (S.faults shelf.old) (S.faults shelf.new)
        (S.reads shelf.old) (S.reads shelf.new) }
    ensures content { S.content shelf.new ≡ S.content shelf.old }
    ensures names { S.names shelf.new ≡ S.names shelf.old }
{
    match fetched(alloc, shelf, file, Which::Set) {
        Ok(text) => report_on_text(alloc, text.as_slice()),
        Err(report) => report,
    }
}

/// The canonical text of the set in a file.
fn print_file<S: Shelf>(alloc: Global, file: &str, shelf: &mut S) -> Report
    requires { Contains (S.names shelf.old) file.now }
    ensures outcome { IsOutcome (Some (print file.now)) (use_of (S.content shelf.old) (S.reads shelf.new) (S.faults shelf.old)
        (S.faults shelf.new) (S.reach shelf.new)) result }
    ensures others { OthersStay file.now (S.reach shelf.old) (S.reach shelf.new) (S.faults shelf.old) (S.faults shelf.new)
        (S.reads shelf.old) (S.reads shelf.new) }
    ensures content { S.content shelf.new ≡ S.content shelf.old }
    ensures names { S.names shelf.new ≡ S.names shelf.old }
{
    match fetched(alloc, shelf, file, Which::Set) {
        Ok(text) => print(alloc, text.as_slice()),
        Err(report) => report,
    }
}

/// What a command says of its files.
fn report_by<S: Shelf>(alloc: Global, command: &Command, shelf: &mut S) -> Report
    requires known { All (Contains (S.names shelf.old)) (files_of (asked_by command.now)) }
    requires number { HasNumber (asked_by command.now) }
    ensures outcome { IsOutcome (Some (asked_by command.now)) (use_of (S.content shelf.old) (S.reads shelf.new) (S.faults shelf.old)
        (S.faults shelf.new) (S.reach shelf.new)) result }
    ensures others { NoOthers (Some (asked_by command.now)) (S.reach shelf.old) (S.reach shelf.new) (S.faults shelf.old)
        (S.faults shelf.new) (S.reads shelf.old) (S.reads shelf.new) }
    ensures content { S.content shelf.new ≡ S.content shelf.old }
    ensures names { S.names shelf.new ≡ S.names shelf.old }
{
    match command {
        Command::Verify(file) => verify(alloc, file, shelf),
        Command::Print(file) => print_file(alloc, file, shelf),
        Command::Replay { file, trace } => replay(alloc, file, trace, shelf),
        Command::Gen(number) => generated(alloc, *number),
        Command::Demo(number) => demo(alloc, *number),
    }
}

/// What the words ask for.
fn report_on<S: Shelf>(alloc: Global, words: &[String], shelf: &mut S) -> Report
    requires { NamesKnown (map string_bytes words.now) (S.names shelf.old) }
    ensures fitting { IsFitting result }
    ensures outcome { IsOutcome (command_of (map string_bytes words.now))
        (use_of (S.content shelf.old) (S.reads shelf.new) (S.faults shelf.old) (S.faults shelf.new) (S.reach shelf.new)) result }
    ensures others { NoOthers (command_of (map string_bytes words.now)) (S.reach shelf.old) (S.reach shelf.new) (S.faults shelf.old)
        (S.faults shelf.new) (S.reads shelf.old) (S.reads shelf.new) }
    ensures content { S.content shelf.new ≡ S.content shelf.old }
    ensures names { S.names shelf.new ≡ S.names shelf.old }
{
    match command_of(words) {
        Some(command) => report_by(alloc, &command, shelf),
        None => Report::Usage,
    }
}

/// Writes the text of a report at once.
fn write_report<K: Sink>(output: Output, report: Report, text: &[u8], sink: &mut K) -> Ended
    requires { text.now ≡ written_as output report }
    ensures report { result.report ≡ report }
    ensures status { HasStatus (K.faults sink.old) (K.faults sink.new) result }
    ensures written { Writes output (K.taken sink.old) (K.taken sink.new) result }
    ensures once { K.writes sink.new ≡ one_more (K.writes sink.old) }
{
    match sink.write(text) {
        Ok(()) => Ended {
            status: status_for(&report),
            report,
        },
        Err(Failed) => Ended { status: 6, report },
    }
}

/// Writes a report, or that there was no memory for its text.
fn answer<K: Sink>(alloc: Global, output: Output, report: Report, sink: &mut K) -> Ended
    requires { IsFitting report }
    ensures report { (result.report ≡ report) ⊎ (result.report ≡ Report.NoMemory) }
    ensures status { HasStatus (K.faults sink.old) (K.faults sink.new) result }
    ensures written { Writes output (K.taken sink.old) (K.taken sink.new) result }
    ensures once { K.writes sink.new ≡ one_more (K.writes sink.old) }
{
    match output.text_of(alloc, &report) {
        Ok(text) => write_report(output, report, text.as_slice(), sink),
        Err(NoMemory) => write_report(output, Report::NoMemory, output.no_memory(), sink),
    }
}

/// Does what the words after the program's name ask for, with one write of the report. The files that the words
/// name are among the shelf's.
pub fn run<S: Shelf, K: Sink>(alloc: Global, words: &[String], shelf: &mut S, sink: &mut K) -> Ended
    requires { NamesKnown (map string_bytes words.now) (S.names shelf.old) }
    ensures headline { (file : List ℕ) → command_of (map string_bytes words.now) ≡ Some (verify file) → result.status ≡ 0
        → HasHeadline (use_of (S.content shelf.old) (S.reads shelf.new) (S.faults shelf.old) (S.faults shelf.new) (S.reach shelf.new) file)
        result.report }
    ensures refutation { (file : List ℕ) → command_of (map string_bytes words.now) ≡ Some (verify file) → result.status ≡ 1
        → HasRefutation (use_of (S.content shelf.old) (S.reads shelf.new) (S.faults shelf.old) (S.faults shelf.new) (S.reach shelf.new)
        file) result.report }
    ensures complete { OfEachSet (command_of (map string_bytes words.now))
        (use_of (S.content shelf.old) (S.reads shelf.new) (S.faults shelf.old) (S.faults shelf.new) (S.reach shelf.new)) result.report
        IsVerdictOn }
    ensures verifies { OfEachSet (command_of (map string_bytes words.now))
        (use_of (S.content shelf.old) (S.reads shelf.new) (S.faults shelf.old) (S.faults shelf.new) (S.reach shelf.new)) result.report
        VerifiesClosed }
    ensures refutes { OfEachSet (command_of (map string_bytes words.now))
        (use_of (S.content shelf.old) (S.reads shelf.new) (S.faults shelf.old) (S.faults shelf.new) (S.reach shelf.new)) result.report
        RefutesDifferent }
    ensures decides { OfEachSet (command_of (map string_bytes words.now))
        (use_of (S.content shelf.old) (S.reads shelf.new) (S.faults shelf.old) (S.faults shelf.new) (S.reach shelf.new)) result.report
        DecidesWithEnough }
    ensures prints { PrintsAll (command_of (map string_bytes words.now))
        (use_of (S.content shelf.old) (S.reads shelf.new) (S.faults shelf.old) (S.faults shelf.new) (S.reach shelf.new)) result.report }
    ensures replays { (file trace : List ℕ) → command_of (map string_bytes words.now) ≡ Some (replay file trace) → result.status ≡ 0
        → HasAgreement (use_of (S.content shelf.old) (S.reads shelf.new) (S.faults shelf.old) (S.faults shelf.new) (S.reach shelf.new)
        file) (use_of (S.content shelf.old) (S.reads shelf.new) (S.faults shelf.old) (S.faults shelf.new) (S.reach shelf.new) trace)
        result.report }
    ensures replays_all { ReplaysAll (command_of (map string_bytes words.now))
        (use_of (S.content shelf.old) (S.reads shelf.new) (S.faults shelf.old) (S.faults shelf.new) (S.reach shelf.new)) result.report }
    ensures replays_refuted { ReplaysRefuted (command_of (map string_bytes words.now))
        (use_of (S.content shelf.old) (S.reads shelf.new) (S.faults shelf.old) (S.faults shelf.new) (S.reach shelf.new)) result.report }
    ensures outcome { IsOutcome (command_of (map string_bytes words.now))
        (use_of (S.content shelf.old) (S.reads shelf.new) (S.faults shelf.old) (S.faults shelf.new) (S.reach shelf.new)) result.report }
    ensures others { NoOthers (command_of (map string_bytes words.now)) (S.reach shelf.old) (S.reach shelf.new) (S.faults shelf.old)
        (S.faults shelf.new) (S.reads shelf.old) (S.reads shelf.new) }
    ensures status { HasStatus (K.faults sink.old) (K.faults sink.new) result }
    ensures generates { Generates (command_of (map string_bytes words.now)) result.report }
    ensures demonstrates { (n : ℕ) → command_of (map string_bytes words.now) ≡ Some (demo n) → result.status ≡ 0
        → HasDemo n result.report }
    ensures written { Writes (output_of (map string_bytes words.now)) (K.taken sink.old) (K.taken sink.new) result }
    ensures once { K.writes sink.new ≡ one_more (K.writes sink.old) }
    ensures content { S.content shelf.new ≡ S.content shelf.old }
    ensures names { S.names shelf.new ≡ S.names shelf.old }
{
    laws();
    let report = report_on(alloc, words, shelf);
    answer(alloc, Output::of_words(words), report, sink)
}
