ghost use Rattle.std.specs.Prelude.{◌≡◌, ℕ, List, Option};
ghost use Rattle.ft_port.specs.Causes.{HasCause, one_more};
ghost use Rattle.ft_port.specs.Sink.{Takes};

use crate::shelf::Failed;

/// A taker of bytes. It counts its writes and its faults.
pub trait Sink {
    /// All that was taken, where it tells that.
    ghost taken: { Self → Option (List ℕ) };

    /// How many writes there were.
    ghost writes: { Self → ℕ };

    /// How many writes failed.
    ghost faults: { Self → ℕ };

    /// Takes all the bytes, or fails after some of the first of them. It takes no memory.
    fn write(&mut self, bytes: &[u8]) -> Result<(), Failed>
        ensures taken { Takes (taken self.old) (taken self.new) bytes.now result }
        ensures writes { writes self.new ≡ one_more (writes self.old) }
        ensures cause { HasCause (faults self.old) (faults self.new) result };
}
