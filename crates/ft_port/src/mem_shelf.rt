ghost use Rattle.std.specs.Prelude.{◌≡◌, ◌↔◌, IsTrue, ◌⊎◌, ◌-◌, min, List, ℕ, true, Some, None, Ok, map, length, IfOk, IsErr, ◌∷◌};
ghost use Rattle.std.specs.List.{Contains, find};
ghost use Rattle.std.specs.Str.{bytes_eq};
ghost use Rattle.std.specs.Option.{option_map};
ghost use Rattle.ft_port.specs.Causes.{HasCause, one_more};
ghost use Rattle.ft_port.specs.Counts.{AreUnread, names_of, reach_by, faults_by, reads_by};
ghost use Rattle.ft_port.specs.Shelf.{ReadsFrom, Reaches, OthersStay};
ghost use Rattle.ft_port.specs.Reads.{read_of};
ghost use Rattle.ft_port.specs.MemShelf.{content_in, MustFail};
ghost use Rattle.ft_port.specs.declared.shelf.Failed.{Failed};

use crate::counts::note_read;
use crate::entry::Entry;
use crate::shelf::{Failed, Shelf};
use ft_base::{List, NoMemory, Text};
use std::alloc::Global;
use std::marker::Model;

/// Files in memory. Its listed calls fail, and so does each call on a file that isn't there.
#[derive(Drop)]
pub struct MemShelf {
    files: List<(Text, Option<Text>)>,
    failing: List<u64>,
    calls: u64,
    counts: Vec<Entry>,
}

impl Model for MemShelf {
    ghost use Rattle.ft_port.specs.MemShelf.{ShelfState};

    ghost Value = { ShelfState };

    ghost view = { λ s. record { files = s.files; failing = s.failing; calls = s.calls; counts = s.counts.items } };
}

impl MemShelf {
    /// Files under their names; None is a file that isn't there. The first entry of a name counts. The calls with
    /// the numbers in `failing`, from 1, fail.
    pub fn new(
        alloc: Global,
        files: List<(Text, Option<Text>)>,
        failing: List<u64>,
    ) -> Result<MemShelf, NoMemory>
        ensures files { IfOk result (λ shelf. shelf.files ≡ files) }
        ensures failing { IfOk result (λ shelf. shelf.failing ≡ failing) }
        ensures calls { IfOk result (λ shelf. shelf.calls ≡ 0) }
        ensures unread { IfOk result (λ shelf. AreUnread (map (λ file. file.0) files) shelf.counts) }
    {
        let mut counts = Vec::new(alloc);
        for file in files.as_slice() {
            counts.push(Entry::unread(alloc, file.0.as_slice())?)?;
        }
        Ok(MemShelf {
            files,
            failing,
            calls: 0,
            counts,
        })
    }
}

/// The first entry of this name.
fn entry_of<'f>(files: &'f [(Text, Option<Text>)], name: &[u8]) -> Option<&'f (Text, Option<Text>)>
    ensures { option_map (λ entry. entry.now) result ≡ find (λ file. bytes_eq file.0 name.now) files.now }
{
    files.iter().find(|file| file.0.as_slice() == name)
}

/// What stands under a name.
fn content_of<'f>(files: &'f [(Text, Option<Text>)], name: &[u8]) -> Option<&'f [u8]>
    ensures { option_map (λ bytes. bytes.now) result ≡ content_in files.now name.now }
{
    match entry_of(files, name) {
        Some(entry) => match &entry.1 {
            Some(bytes) => Some(bytes.as_slice()),
            None => None,
        },
        None => None,
    }
}

/// Copies the bytes from `place` on, and tells how many these are.
fn copy_from(bytes: &[u8], place: u64, into: &mut [u8]) -> usize
    ensures bytes { ReadsFrom {E = Failed} (Some bytes.now) place (Ok result) into.new }
    ensures most { result ≡ min (length into.new) (length bytes.now - place) }
{
    if place >= bytes.len() as u64 {
        return 0;
    }
    let rest = &bytes[place as usize..];
    let count = rest.len().min(into.len());
    into[..count].copy_from_slice(&rest[..count]);
    count
}

/// Whether the call of this number is one of those that fail.
fn is_listed(failing: &[u64], call: u64) -> bool
    ensures { IsTrue result ↔ Contains failing.now call }
{
    failing.contains(&call)
}

impl MemShelf {
    /// Whether the next call is one of those that fail.
    fn next_is_listed(&self) -> bool
        ensures { IsTrue result ↔ Contains self.now.failing (one_more self.now.calls) }
    {
        is_listed(self.failing.as_slice(), self.calls.saturating_add(1))
    }

    /// What stands under a name.
    fn content(&self, name: &[u8]) -> Option<&[u8]>
        ensures { option_map (λ bytes. bytes.now) result ≡ content_in self.now.files name.now }
    {
        content_of(self.files.as_slice(), name)
    }
}

/// Reads from `place` on, unless the call is listed or there is no file.
fn read_part(
    content: Option<&[u8]>,
    listed: bool,
    place: u64,
    into: &mut [u8],
) -> Result<usize, Failed>
    ensures bytes { ReadsFrom (option_map (λ bytes. bytes.now) content.entry) place result into.new }
    ensures most { (file : List ℕ) → option_map (λ bytes. bytes.now) content.entry ≡ Some file
        → IfOk result (λ n. n ≡ min (length into.new) (length file - place)) }
    ensures fails { IsErr result ↔ (IsTrue listed ⊎ (option_map (λ bytes. bytes.now) content.entry ≡ None)) }
{
    match content {
        Some(bytes) if !listed => Ok(copy_from(bytes, place, into)),
        _ => Err(Failed),
    }
}

impl Shelf for MemShelf {
    ghost names = { λ s. names_of s.counts };

    ghost content = { λ s. content_in s.files };

    ghost reach = { λ s. reach_by s.counts };

    ghost faults = { λ s. faults_by s.counts };

    ghost reads = { λ s. reads_by s.counts };

    fn read(&mut self, name: &str, place: u64, into: &mut [u8]) -> Result<usize, Failed>
        requires { Contains (names_of self.old.counts) name.now }
        ensures bytes { ReadsFrom (content_in self.old.files name.now) place result into.new }
        ensures most { (file : List ℕ) → content_in self.old.files name.now ≡ Some file
            → IfOk result (λ n. n ≡ min (length into.new) (length file - place)) }
        ensures reach { Reaches (reach_by self.old.counts name.now) (reach_by self.new.counts name.now) place result }
        ensures cause { HasCause (faults_by self.old.counts name.now) (faults_by self.new.counts name.now) result }
        ensures reads { reads_by self.new.counts name.now ≡ read_of place result into.new ∷ reads_by self.old.counts name.now }
        ensures others { OthersStay name.now (reach_by self.old.counts) (reach_by self.new.counts) (faults_by self.old.counts)
            (faults_by self.new.counts) (reads_by self.old.counts) (reads_by self.new.counts) }
        ensures fails { IsErr result ↔ MustFail self.old name.now }
        ensures calls { self.new.calls ≡ one_more self.old.calls }
        ensures failing { self.new.failing ≡ self.old.failing }
        ensures names { names_of self.new.counts ≡ names_of self.old.counts }
        ensures files { self.new.files ≡ self.old.files }
    {
        let listed = self.next_is_listed();
        let content = self.content(name.as_bytes());
        let result = read_part(content, listed, place, into);
        self.calls = self.calls.saturating_add(1);
        note_read(&mut self.counts, name.as_bytes(), place, result, into);
        result
    }
}
