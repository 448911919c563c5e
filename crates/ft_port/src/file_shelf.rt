ghost use Rattle.std.specs.Prelude.{◌≡◌, ◌≤◌, IfOk, map, string_bytes, length, None};
ghost use Rattle.ft_port.specs.Counts.{AreUnread, names_of, reach_by, faults_by, reads_by};

use crate::counts::note_read;
use crate::entry::Entry;
use crate::shelf::{Failed, Shelf};
use ft_base::NoMemory;
use std::alloc::Global;
use std::io::{Read, Seek, SeekFrom};
use std::marker::Model;
use std::rt::Files;
use std::{fs, io};

/// The files of the system under the names that it was made for. Contracts see the counts and the reads of each
/// name, and not what the files hold. A file that isn't there is a fault, and so is a directory.
#[derive(Drop)]
pub struct FileShelf<R: Files + Drop> {
    rt: R,
    counts: Vec<Entry>,
}

impl<R: Files + Drop> Model for FileShelf<R> {
    ghost use Rattle.std.specs.Prelude.{List};
    ghost use Rattle.ft_port.specs.declared.entry.Entry.{Entry};

    ghost Value = { List Entry };

    ghost view = { λ shelf. shelf.counts.items };
}

impl<R: Files + Drop> FileShelf<R> {
    /// A shelf of the files of these names.
    pub fn new(rt: R, alloc: Global, names: &[String]) -> Result<FileShelf<R>, NoMemory>
        ensures { IfOk result (AreUnread (map string_bytes names.now)) }
    {
        let mut counts = Vec::new(alloc);
        for name in names {
            counts.push(Entry::unread(alloc, name.as_bytes())?)?;
        }
        Ok(FileShelf { rt, counts })
    }
}

/// Reads from a place of a file, and tells how many bytes it gave.
fn read_at<R: Files>(rt: &R, name: &str, place: u64, into: &mut [u8]) -> io::Result<usize>
    ensures { IfOk result (λ n. n ≤ length into.new) }
{
    let mut file = fs::open(rt, name)?;
    file.seek(SeekFrom::Start(place))?;
    file.read(into)
}

impl<R: Files + Drop> Shelf for FileShelf<R> {
    ghost names = { names_of };

    ghost content = { λ shelf name. None };

    ghost reach = { reach_by };

    ghost faults = { faults_by };

    ghost reads = { reads_by };

    fn read(&mut self, name: &str, place: u64, into: &mut [u8]) -> Result<usize, Failed> {
        let result = match read_at(&self.rt, name, place, into) {
            Ok(count) => Ok(count),
            Err(_) => Err(Failed),
        };
        note_read(&mut self.counts, name.as_bytes(), place, result, into);
        result
    }
}
