//! What traces of the two sets of what is watched spell, and what is written of them.
ghost use Rattle.std.specs.Prelude.{ℕ, ◌≡◌, List, length, IfOk};
ghost use Rattle.ft_core.specs.meaning.Kinds.{monitored, count_of};
ghost use Rattle.ft_mean.specs.meaning.Allowed.{IsMonitored};
ghost use Rattle.ft_mean.specs.meaning.Reading.{Scans};
ghost use Rattle.ft_trace.specs.meaning.Reader.{HasGiven};
ghost use Rattle.ft_worked.specs.Made.{IsMadeOf};
ghost use Rattle.ft_worked.specs.Watched.{level_and_mode, watched};

use crate::watched::{level, level_with_mode};
use ft_base::{NoMemory, Text};
use ft_core::{History, Tables};
use ft_stream::spelled_is_monitored;
use ft_trace::{TraceFault, TraceReader, read_trace, write_trace};
use std::alloc::Global;
use std::test::Fail;

/// The history that a trace spells.
fn read(alloc: Global, set: &Tables, bytes: &[u8]) -> Result<History, TraceFault>
    ensures { IfOk result (IsMonitored set.now) }
{
    spelled_is_monitored();
    match read_trace(alloc, set, bytes) {
        Ok(history) => Ok(history),
        Err(fault) => Err(fault),
    }
}

fn fault_of(alloc: Global, set: &Tables, bytes: &[u8]) -> Option<TraceFault> {
    match read(alloc, set, bytes) {
        Ok(_) => None,
        Err(fault) => Some(fault),
    }
}

/// What is written of the history that a trace spells.
fn rewritten(alloc: Global, set: &Tables, bytes: &[u8]) -> Result<Text, NoMemory> {
    let Ok(history) = read(alloc, set, bytes) else {
        return Err(NoMemory);
    };
    write_trace(alloc, set, &history)
}

// What stands before a trace in a report isn't passed over here.
#[test]
fn a_mark_is_no_head(rt: HostRuntime) -> Result<(), Fail> {
    let set = level(rt.alloc())?;
    for text in ["trace:\nx\n1\n", "trace:\n\u{FEFF}x\n1\n"] {
        let found = fault_of(rt.alloc(), &set, text.as_bytes());
        assert_eq!(rt; found, Some(TraceFault::Head), "{text}");
    }
    Ok(())
}

// Traces of the level, and what is written of each.
const LEVELS: [(&str, &str); 5] = [
    ("x\n007\n", "x\n7\n"),
    ("x\r\n1\r\n2\r\n", "x\n1\n2\n"),
    ("x\n\"7\"\n", "x\n7\n"),
    ("\u{FEFF}x\n1\n", "x\n1\n"),
    ("\nx\n\n1\n\n\n2\n\n", "x\n1\n2\n"),
];

#[test]
fn levels_are_read_and_written(rt: HostRuntime) -> Result<(), Fail> {
    let set = level(rt.alloc())?;
    for (text, wanted) in LEVELS {
        let written = rewritten(rt.alloc(), &set, text.as_bytes())?;
        assert_eq!(rt; written.as_slice(), wanted.as_bytes(), "{text}");
        let again = rewritten(rt.alloc(), &set, written.as_slice())?;
        assert_eq!(rt; again.as_slice(), wanted.as_bytes(), "{text}");
    }
    Ok(())
}

// Traces of the level and the mode, and what is written of each.
const MODES: [(&str, &str); 4] = [
    ("x,m\n3,i\n4,r\n", "x,m\n3,i\n4,r\n"),
    ("x,m\r\n03,r", "x,m\n3,r\n"),
    ("\"x\",\"m\"\n\"3\",\"i\"\n", "x,m\n3,i\n"),
    ("\u{FEFF}\"x\",m\n\n0,\"\"r\n", "x,m\n0,r\n"),
];

#[test]
fn modes_are_read_and_written(rt: HostRuntime) -> Result<(), Fail> {
    let set = level_with_mode(rt.alloc())?;
    for (text, wanted) in MODES {
        let written = rewritten(rt.alloc(), &set, text.as_bytes())?;
        assert_eq!(rt; written.as_slice(), wanted.as_bytes(), "{text}");
    }
    Ok(())
}

/// The next scan of the level and the mode, and whether there was one.
fn next(reader: &mut TraceReader<'_>, set: &Tables, values: &mut [i64]) -> Result<bool, TraceFault>
    requires given { (bytes : List ℕ) × (h : Scans) × HasGiven set.now bytes reader.old h }
    requires room { length values.old ≡ count_of monitored set.now.vars }
    ensures given { (bytes : List ℕ) × (h : Scans) × HasGiven set.now bytes reader.new h }
    ensures room { length values.new ≡ count_of monitored set.now.vars }
{
    match reader.next(set, values) {
        Ok(found) => Ok(found),
        Err(fault) => Err(fault),
    }
}

/// Three answers of a reader.
type Answers = [Result<bool, TraceFault>; 3];

/// What three calls answer on a trace of the level and the mode, and the values after the first.
fn three_answers(
    alloc: Global,
    set: &Tables,
    bytes: &[u8],
) -> Result<(Answers, [i64; 2]), TraceFault>
    requires { IsMadeOf (watched level_and_mode) set.now }
{
    let mut reader = match TraceReader::open(alloc, set, bytes) {
        Ok(reader) => reader,
        Err(fault) => return Err(fault),
    };
    let mut values = [-1; 2];
    let first = next(&mut reader, set, &mut values);
    let kept = values;
    let second = next(&mut reader, set, &mut values);
    let third = next(&mut reader, set, &mut values);
    Ok(([first, second, third], kept))
}

// Traces of the level and the mode, what three calls answer, and the values after the first.
const ANSWERS: [(&str, Answers, [i64; 2]); 3] = [
    ("x,m\n3,r\n", [Ok(true), Ok(false), Ok(false)], [3, 1]),
    ("x,m\n9,i\n\n4,r\n", [Ok(true), Ok(true), Ok(false)], [9, 0]),
    (
        "x,m\n0,r\n4,q\n5,i\n",
        [
            Ok(true),
            Err(TraceFault::Value { scan: 1, column: 2 }),
            Err(TraceFault::Value { scan: 1, column: 2 }),
        ],
        [0, 1],
    ),
];

#[test]
fn a_reader_stays_at_its_end(rt: HostRuntime) -> Result<(), Fail> {
    let set = level_with_mode(rt.alloc())?;
    for (text, answers, values) in ANSWERS {
        let found = three_answers(rt.alloc(), &set, text.as_bytes());
        assert_eq!(rt; found, Ok((answers, values)), "{text}");
    }
    Ok(())
}
