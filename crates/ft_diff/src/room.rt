ghost use Rattle.std.specs.Prelude.{◌≡◌, ◌<◌, length, slice_get, IfOk};

use ft_base::{NoMemory, Span};
use std::alloc::Global;
use std::marker::Model;

/// Room in which differences are solved, taken once. Contracts see a number for each unknown that there is room for.
#[derive(Drop)]
pub struct DiffRoom {
    pub(crate) spans: Vec<Span>,
    pub(crate) lowered_by: Vec<usize>,
}

impl Model for DiffRoom {
    ghost use Rattle.std.specs.Prelude.{List, ℤ, map, length, ◌≡◌};

    ghost Value = { List ℤ };

    ghost view = { λ room. map (λ s. s.1) room.spans.items };

    ghost invariant = { λ room. length room.lowered_by.items ≡ length room.spans.items };
}

impl DiffRoom {
    /// Room for areas of at most this many unknowns. Lines need no memory of their own, so a list of more than
    /// `count` lines is solved too.
    pub fn open(alloc: Global, unknowns: u32, count: usize) -> Result<DiffRoom, NoMemory>
        ensures { IfOk result (λ room. length room ≡ unknowns) }
    {
        let Some(zero) = Span::new(0, 0) else {
            unreachable!();
        };
        let mut spans = Vec::new(alloc);
        let mut lowered_by = Vec::new(alloc);
        for _unknown in 0..unknowns {
            spans.push(zero)?;
            lowered_by.push(0)?;
        }
        Ok(DiffRoom { spans, lowered_by })
    }

    /// The number of an unknown in the solution that was found last.
    pub fn value(&self, unknown: u32) -> i64
        requires { unknown < length self.now }
        ensures { slice_get self.now unknown ≡ Some result }
    {
        self.spans[unknown as usize].hi()
    }
}
