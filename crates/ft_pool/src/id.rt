//! Where a value of a region lies, and how far a region was filled.
ghost use Rattle.std.specs.Prelude.{◌≡◌, ⊤};

use std::alloc::AllocError;
use std::marker::{Model, PhantomData};

/// The place of a value in its region, from 0. Contracts see the number.
pub struct Id<T> {
    number: usize,
    of: PhantomData<*const T>,
}

impl<T> Model for Id<T> {
    ghost use Rattle.std.specs.Prelude.{ℕ};

    ghost Value = { ℕ };

    ghost view = { λ id. id.number };

    ghost inverse = { λ number. record { number = number; of = record {} } };
}

impl<T> Clone for Id<T> {
    ghost is_clone = { λ id copy. copy ≡ id };

    ghost is_infallible = { λ _. ⊤ };

    fn clone(&self) -> Result<Id<T>, AllocError> {
        Ok(Id {
            number: self.number,
            of: PhantomData,
        })
    }
}

impl<T> Copy for Id<T> {}

impl<T> Id<T> {
    pub(crate) fn new(number: usize) -> Id<T>
        ensures { result ≡ number }
    {
        Id {
            number,
            of: PhantomData,
        }
    }

    pub(crate) fn number(self) -> usize
        ensures { result ≡ self }
    {
        self.number
    }
}

/// How many values a region had at one moment. Contracts see the number.
#[derive(Clone, Copy)]
pub struct Mark {
    len: usize,
}

impl Model for Mark {
    ghost use Rattle.std.specs.Prelude.{ℕ};

    ghost Value = { ℕ };

    ghost view = { λ mark. mark.len };

    ghost inverse = { λ len. record { len = len } };
}

impl Mark {
    pub(crate) fn new(len: usize) -> Mark
        ensures { result ≡ len }
    {
        Mark { len }
    }

    pub(crate) fn len(self) -> usize
        ensures { result ≡ self }
    {
        self.len
    }
}
