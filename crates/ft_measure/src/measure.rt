ghost use Rattle.std.specs.Prelude.{◌≡◌};
ghost use Rattle.ft_measure.specs.meaning.Measures.{capped, is_above, joined, unmeasured};

/// The greatest size of a term.
pub(crate) const LIMIT: u64 = 1_000_000_000_000_000;

/// What is known of a number term.
#[derive(Clone, Copy, Drop)]
pub struct Measure {
    /// Whether no variable, `prev` or `age` stands in it.
    pub constant: bool,
    /// Whether a part of it has a size above 10^15.
    pub large: bool,
    /// Its value, where it is constant, not large, and every divisor in it is above 0.
    pub value: Option<i64>,
    /// Its size, where it has one. Sizes above 10^15 count as one more than that.
    pub size: Option<u64>,
}

/// A size, of which all above 10^15 count as one more.
pub(crate) fn capped(size: u64) -> u64
    ensures { result ≡ capped size }
{
    if size > LIMIT { LIMIT + 1 } else { size }
}

/// Whether a size is there and above 10^15.
pub(crate) fn is_above(size: Option<u64>) -> bool
    ensures { result ≡ is_above size }
{
    match size {
        Some(size) => size > LIMIT,
        None => false,
    }
}

/// The measure of a term by what is known of its parts. It keeps its value only where no part of it is large, nor the whole.
pub(crate) fn joined(constant: bool, large: bool, value: Option<i64>, size: Option<u64>) -> Measure
    ensures { result ≡ joined constant large value size }
{
    let large = large || is_above(size);
    Measure {
        constant,
        large,
        value: if large { None } else { value },
        size,
    }
}

/// The measure of what is no number term.
pub(crate) fn unmeasured() -> Measure
    ensures { result ≡ unmeasured }
{
    Measure {
        constant: false,
        large: false,
        value: None,
        size: None,
    }
}
