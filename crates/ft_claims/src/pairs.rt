//! The pairs of a form and a divisor that have an unknown.
ghost use Rattle.std.specs.Prelude.{◌≡◌, ◌++◌, [], ◌∷◌, length, IfOk, OnOk, if◌then◌else◌};
ghost use Rattle.std.specs.List.{position_or_len};
ghost use Rattle.ft_claims.specs.meaning.Forms.{is_in, same_entry};

use crate::sums::Sum;
use ft_base::NoMemory;
use indexmap::IndexSet;
use std::alloc::Global;
use std::marker::Model;

/// Different pairs of a form and a divisor, in the order of their unknowns. A pair is found by its hash.
#[derive(Drop)]
pub struct Pairs {
    pairs: IndexSet<(Sum, i64)>,
}

impl Model for Pairs {
    ghost use Rattle.ft_claims.specs.meaning.Forms.{Entries};

    ghost Value = { Entries };

    ghost view = { λ all. all.pairs.keys };
}

impl Pairs {
    /// No pair. It takes no memory.
    pub fn new(alloc: Global) -> Pairs
        ensures { result ≡ [] }
    {
        Pairs {
            pairs: IndexSet::new(alloc),
        }
    }

    /// How many pairs there are.
    pub fn len(&self) -> usize
        ensures { result ≡ length self.now }
    {
        self.pairs.len()
    }

    /// The pairs, lent for reading.
    pub fn as_slice(&self) -> &[(Sum, i64)]
        ensures { result.now ≡ self.now }
    {
        self.pairs.as_slice()
    }

    /// The place of a pair, which is added at the end where it isn't there.
    pub fn place_in(&mut self, form: Sum, divisor: i64) -> Result<usize, NoMemory>
        ensures pairs { OnOk result (self.new ≡ if is_in self.old (form, divisor) then self.old else self.old ++ (form, divisor) ∷ []) }
        ensures place { IfOk result (λ place. place ≡ position_or_len (same_entry (form, divisor)) self.new) }
    {
        let (place, _) = self.pairs.insert_full((form, divisor))?;
        Ok(place)
    }
}
