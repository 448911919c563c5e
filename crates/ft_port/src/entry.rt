ghost use Rattle.std.specs.Prelude.{◌≡◌, ◌∷◌, IfOk};
ghost use Rattle.ft_port.specs.Causes.{HasCause};
ghost use Rattle.ft_port.specs.Counts.{unread};
ghost use Rattle.ft_port.specs.Reads.{read_of};
ghost use Rattle.ft_port.specs.Shelf.{Reaches};

use crate::reads::Reads;
use crate::shelf::Failed;
use ft_base::{List, NoMemory, Text};
use std::alloc::Global;

/// A name, how far the reads of it came, how many of them failed, and, for clauses alone, what they were.
#[derive(Drop)]
pub struct Entry {
    pub name: Text,
    pub reach: u64,
    pub faults: u64,
    pub reads: Reads,
}

impl Entry {
    /// A copy of this name, before its first read.
    pub fn unread(alloc: Global, name: &[u8]) -> Result<Entry, NoMemory>
        ensures { IfOk result (λ entry. entry ≡ unread name.now) }
    {
        Ok(Entry {
            name: List::copy_of(alloc, name)?,
            reach: 0,
            faults: 0,
            reads: Reads::none(),
        })
    }

    /// Notes what a read from `place` on gave.
    pub fn count_read(&mut self, place: u64, given: Result<usize, Failed>, into: &[u8])
        ensures name { self.new.name ≡ self.old.name }
        ensures reach { Reaches self.old.reach self.new.reach place given }
        ensures cause { HasCause self.old.faults self.new.faults given }
        ensures reads { self.new.reads.list ≡ read_of place given into.now ∷ self.old.reads.list }
    {
        self.reads = self.reads.followed_by(&place, &given, into);
        match given {
            Ok(0) => {}
            Ok(count) => self.reach = self.reach.max(place.saturating_add(count as u64)),
            Err(Failed) => self.faults = self.faults.saturating_add(1),
        }
    }
}
