//! A list that only clauses read. It has no bytes, and its calls do nothing when the program runs.
ghost use Rattle.std.specs.Prelude.{◌≡◌, List, [], ◌∷◌, ◌++◌};
ghost use Rattle.std.specs.Borrow.{ftrue};

use std::marker::{Model, PhantomData};

/// What something was told, one item a scan.
#[derive(Drop)]
pub struct Told<T> {
    of: PhantomData<T>,
    pub ghost items: { List T },
}

impl<T> Model for Told<T> {
    ghost also_owns = { λ _. ftrue };
}

impl<T> Told<T> {
    /// No item.
    pub fn new() -> Told<T>
        ensures { result.items ≡ [] }
    {
        Told { of: PhantomData }
    }

    /// These and one more at the end.
    pub fn followed_by(&self, _now: &T) -> Told<T>
        ensures { result.items ≡ self.now.items ++ _now.now ∷ [] }
    {
        Told { of: PhantomData }
    }
}
