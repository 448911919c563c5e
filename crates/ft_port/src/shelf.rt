ghost use Rattle.std.specs.Prelude.{◌≡◌, ◌∷◌, ℕ, List, Option};
ghost use Rattle.std.specs.List.{Contains};
ghost use Rattle.ft_port.specs.Causes.{HasCause};
ghost use Rattle.ft_port.specs.Reads.{Read, read_of};
ghost use Rattle.ft_port.specs.Shelf.{ReadsFrom, Reaches, OthersStay};

/// A read or a write was refused by the outside.
#[derive(Clone, Copy, Debug, PartialEq, Eq, Drop)]
pub struct Failed;

/// Files under names. It counts the faults of each name, and clauses speak of what each read gave.
pub trait Shelf {
    /// The names that it was made for.
    ghost names: { Self → List (List ℕ) };

    /// What it holds under a name, where it tells that.
    ghost content: { Self → List ℕ → Option (List ℕ) };

    /// The greatest `place + n` of a read of this name that gave n > 0 bytes; 0 before the first.
    ghost reach: { Self → List ℕ → ℕ };

    /// How many reads of this name failed.
    ghost faults: { Self → List ℕ → ℕ };

    /// The reads of this name, the last first.
    ghost reads: { Self → List ℕ → List Read };

    /// Fills the front of `into` with the bytes of the file from `place` on, and tells how many these are. None
    /// are given at the file's end or past it, and into an empty `into`. It takes no memory.
    fn read(&mut self, name: &str, place: u64, into: &mut [u8]) -> Result<usize, Failed>
        requires { Contains (names self.old) name.now }
        ensures bytes { ReadsFrom (content self.old name.now) place result into.new }
        ensures reach { Reaches (reach self.old name.now) (reach self.new name.now) place result }
        ensures reads { reads self.new name.now ≡ read_of place result into.new ∷ reads self.old name.now }
        ensures cause { HasCause (faults self.old name.now) (faults self.new name.now) result }
        ensures others { OthersStay name.now (reach self.old) (reach self.new) (faults self.old) (faults self.new) (reads self.old)
            (reads self.new) }
        ensures names { names self.new ≡ names self.old }
        ensures content { content self.new ≡ content self.old };
}
