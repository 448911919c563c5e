ghost use Rattle.std.specs.Prelude.{◌≡◌, [], ◌∷◌, ◌++◌, ◌<◌, length, slice_get, slice_index_or, IfOk, OnOk, OnErr};

use ft_base::{Duplicate, List, NoMemory};
use std::alloc::Global;
use std::marker::Model;

/// A list of scans, each a list of values in order of declaration. Contracts see the list of lists.
#[derive(Drop)]
pub struct History {
    alloc: Global,
    scans: List<List<i64>>,
}

impl Model for History {
    ghost use Rattle.std.specs.Prelude.{List, ℤ};

    ghost Value = { List (List ℤ) };

    ghost view = { λ history. history.scans };
}

impl History {
    /// No scan. It takes no memory.
    pub fn new(alloc: Global) -> History
        ensures { result ≡ [] }
    {
        History {
            alloc,
            scans: List::new(alloc),
        }
    }

    /// Adds a scan at the end. Where memory is refused the history stays as it was.
    pub fn add(&mut self, values: &[i64]) -> Result<(), NoMemory>
        ensures ok { OnOk result (self.new ≡ self.old ++ values.now ∷ []) }
        ensures err { OnErr result (self.new ≡ self.old) }
    {
        let scan = List::copy_of(self.alloc, values)?;
        self.scans.push(scan)
    }

    /// How many scans there are.
    pub fn scans(&self) -> usize
        ensures { result ≡ length self.now }
    {
        self.scans.len()
    }

    /// How many values a scan has.
    pub fn width(&self, scan: usize) -> usize
        requires { scan < length self.now }
        ensures { result ≡ length (slice_index_or self.now scan []) }
    {
        self.scans.get(scan).len()
    }

    /// The value of a scan at a place, both from 0.
    pub fn value(&self, scan: usize, place: usize) -> i64
        requires scan { scan < length self.now }
        requires place { place < length (slice_index_or self.now scan []) }
        ensures { slice_get (slice_index_or self.now scan []) place ≡ Some result }
    {
        *self.scans.get(scan).get(place)
    }

    /// The values of a scan, lent for reading.
    pub fn row(&self, scan: usize) -> &[i64]
        requires { scan < length self.now }
        ensures { result.now ≡ slice_index_or self.now scan [] }
    {
        self.scans.get(scan).as_slice()
    }
}

impl Duplicate for History {
    fn duplicate(&self, alloc: Global) -> Result<History, NoMemory> {
        Ok(History {
            alloc,
            scans: self.scans.duplicate(alloc)?,
        })
    }
}
