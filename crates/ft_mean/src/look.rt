ghost use Rattle.std.specs.Prelude.{◌≡◌};
ghost use Rattle.ft_mean.specs.meaning.Value.{View};

/// All that a term or a condition asks of a scan. Variables and memories are named by their places in the set.
///
/// An implementer says by its `view` what every name stands for, and owes that each answer is the view's: at every place,
/// also where the set has no variable or memory. It owes nothing of how large the numbers are. Who calls `value_of` or
/// `truth_of` shows that the view keeps the sizes of a set over which the term or condition is small.
pub trait Look {
    /// What every name stands for.
    ghost view: { Self → View };

    /// The value of a variable at this scan.
    fn now_of(&self, variable: u32) -> i64
        ensures { result ≡ View.now (view self.now) variable };

    /// Its value one scan before.
    fn before_of(&self, variable: u32) -> i64
        ensures { result ≡ View.before (view self.now) variable };

    /// The age of a timer.
    fn age_of(&self, memory: u32) -> i64
        ensures { result ≡ View.age (view self.now) memory };

    /// The truth of a memory.
    fn memory_of(&self, memory: u32) -> bool
        ensures { result ≡ View.memory (view self.now) memory };
}
