//! The reads of a name so far. Only clauses read them: they have no bytes, and noting one does nothing when the program runs.
ghost use Rattle.std.specs.Prelude.{◌≡◌, List, [], ◌∷◌};
ghost use Rattle.std.specs.Borrow.{ftrue};
ghost use Rattle.ft_port.specs.Reads.{Read, read_of};

use crate::shelf::Failed;
use std::marker::{Model, PhantomData};

/// The reads of a name, the last first.
#[derive(Drop)]
pub struct Reads {
    of: PhantomData<u8>,
    pub ghost list: { List Read },
}

impl Model for Reads {
    ghost also_owns = { λ _. ftrue };
}

impl Reads {
    /// No read.
    pub(crate) fn none() -> Reads
        ensures { result ≡ record { of = record {}; list = [] } }
    {
        Reads { of: PhantomData }
    }

    /// These and then a read from this place on, with what it answered and how it left the bytes it was to fill.
    pub(crate) fn followed_by(
        &self,
        _place: &u64,
        _given: &Result<usize, Failed>,
        _into: &[u8],
    ) -> Reads
        ensures { result.list ≡ read_of _place.now _given.now _into.now ∷ self.now.list }
    {
        Reads { of: PhantomData }
    }
}
