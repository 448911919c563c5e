ghost use Rattle.std.specs.Prelude.{codes, IfOk};
ghost use Rattle.std.specs.List.{Contains};
ghost use Rattle.ft_port.specs.Counts.{names_of};

use ft_base::{List, NoMemory, Text};
use ft_port::{FetchError, FileShelf, MemShelf, MemSink, OutSink, Sink, fetch};
use std::alloc::Global;
use std::fs;
use std::test::Fail;

/// A shelf of one file `f`, with a later entry of the same name, which doesn't count.
fn shelf_of(alloc: Global, content: &[u8], failing: u64) -> Result<MemShelf, NoMemory>
    ensures { IfOk result (λ shelf. Contains (names_of shelf.counts) (codes "f")) }
{
    let content = List::copy_of(alloc, content)?;
    let mut files = List::new(alloc);
    files.push((List::copy_of(alloc, b"f")?, Some(content)))?;
    files.push((List::copy_of(alloc, b"f")?, Some(List::new(alloc))))?;
    MemShelf::new(alloc, files, List::copy_of(alloc, &[failing])?)
}

/// A shelf of one real file.
fn file_shelf_of(rt: HostRuntime, name: &str) -> Result<FileShelf<HostRuntime>, NoMemory>
    ensures { IfOk result (λ shelf. Contains (names_of shelf) name.now) }
{
    let alloc = rt.alloc();
    let name = String::from_str(alloc, name)?;
    FileShelf::new(rt, alloc, &[name])
}

/// What was fetched, in words where it is nothing.
fn told(alloc: Global, fetched: Result<Text, FetchError>) -> Result<Text, NoMemory> {
    match fetched {
        Ok(text) => Ok(text),
        Err(FetchError::Failed) => List::copy_of(alloc, b"failed"),
        Err(FetchError::TooLong) => List::copy_of(alloc, b"too long"),
        Err(FetchError::NoMemory) => Err(NoMemory),
    }
}

/// What is told of a file of these bytes.
fn fetched(alloc: Global, content: &[u8], failing: u64, limit: u64) -> Result<Text, NoMemory> {
    let mut shelf = shelf_of(alloc, content, failing)?;
    told(alloc, fetch(alloc, &mut shelf, "f", limit))
}

/// What is told of a real file.
fn fetched_file(rt: HostRuntime, name: &str, limit: u64) -> Result<Text, NoMemory> {
    let alloc = rt.alloc();
    let mut shelf = file_shelf_of(rt, name)?;
    told(alloc, fetch(alloc, &mut shelf, name, limit))
}

// The read that fails, the longest file, and what is fetched of a file of three bytes.
const FETCHED: [(u64, u64, &[u8]); 7] = [
    (0, 3, b"abc"),
    (0, 18_446_744_073_709_551_615, b"abc"),
    (0, 2, b"too long"),
    (0, 0, b"too long"),
    (1, 3, b"failed"),
    (2, 3, b"failed"),
    (3, 3, b"abc"),
];

#[test]
fn fetches_from_memory(rt: HostRuntime) -> Result<(), Fail> {
    for (failing, limit, wanted) in FETCHED {
        let text = fetched(rt.alloc(), b"abc", failing, limit)?;
        assert_eq!(rt; text.as_slice(), wanted, "{failing} {limit}");
    }
    let text = fetched(rt.alloc(), b"", 0, 0)?;
    assert_eq!(rt; text.is_empty(), true);
    Ok(())
}

const REFUSED: [(&str, u64, &[u8]); 3] = [
    ("fetched.txt", 149_999, b"too long"),
    ("missing.txt", 10, b"failed"),
    (".", 10, b"failed"),
];

#[test]
fn fetches_real_files(rt: HostRuntime) -> Result<(), Fail> {
    let long = Vec::from_elem(rt.alloc(), 7u8, 150_000)?;
    fs::write(&rt, "fetched.txt", long.as_slice())?;
    let text = fetched_file(rt.clone()?, "fetched.txt", 150_000)?;
    assert!(rt; text.as_slice() == long.as_slice());
    for (name, limit, wanted) in REFUSED {
        let text = fetched_file(rt.clone()?, name, limit)?;
        assert_eq!(rt; text.as_slice(), wanted, "{name} {limit}");
    }
    fs::remove_file(&rt, "fetched.txt")?;
    Ok(())
}

// The room, the write that fails and after how many bytes, and what two writes of `verified` leave in the sink.
const TAKEN: [(usize, (u64, usize), &[u8]); 7] = [
    (16, (0, 0), b"verifiedverified"),
    (100, (1, 3), b"ververified"),
    (100, (1, 20), b"verifiedverified"),
    (100, (2, 0), b"verified"),
    (100, (2, 5), b"verifiedverif"),
    (5, (0, 0), b"verif"),
    (2, (1, 3), b"ve"),
];

#[test]
fn takes_what_it_may(rt: HostRuntime) -> Result<(), Fail> {
    for (room, failing, taken) in TAKEN {
        let mut sink = MemSink::open(rt.alloc(), room, List::copy_of(rt.alloc(), &[failing])?)?;
        let first = sink.write(b"verified").is_ok();
        let second = sink.write(b"verified").is_ok();
        assert_eq!(rt;
            (first, second),
            (failing.0 != 1 && room >= 8, failing.0 != 2 && room >= 16)
        );
        assert_eq!(rt; sink.taken(), taken, "room {room}");
    }
    let mut out = OutSink::new(rt.clone()?);
    assert_eq!(rt; out.write(b"written\n").is_ok(), true);
    Ok(())
}
