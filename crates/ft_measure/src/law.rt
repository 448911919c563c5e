ghost use Rattle.ft_measure.specs.laws.Bounded.{LinearIsSmall, ValuesBounded};

/// A value is known only of a constant with no part of size above 10^15, and is at most the size of its term, whatever the
/// tree is.
pub fn values_bounded()
    ensures { ValuesBounded }
{}

/// Where no part of an expression is at fault, neither a part of it nor the whole has a size above 10^15. So what stands for a
/// constant that is too large to be computed never decides more than which fault comes first.
pub fn linear_is_small()
    ensures { LinearIsSmall }
{}
