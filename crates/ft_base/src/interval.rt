ghost use Rattle.std.specs.Prelude.{◌≡◌, ◌↔◌, ◌≤◌, IsTrue, unsigned_abs};
ghost use Rattle.std.specs.Option.{SomeIff};
ghost use Rattle.ft_base.specs.Interval.{IsWithin, IsBounded};

use std::marker::Model;

/// The whole numbers from `lo` to `hi`, both at most `LIMIT` either way. Contracts see the pair of the bounds.
#[derive(Clone, Copy, Debug, PartialEq, Eq, Drop)]
pub struct Interval<const LIMIT: u64> {
    lo: i64,
    hi: i64,
}

/// The values of a variable: bounds of at most 1,000,000,000 either way.
pub type Range = Interval<1_000_000_000>;

/// The values of an unknown of a formula: bounds of at most 4,000,000,000,000,000 either way.
pub type Span = Interval<4_000_000_000_000_000>;

impl<const LIMIT: u64> Model for Interval<LIMIT> {
    ghost use Rattle.std.specs.Prelude.{ℤ};
    ghost use Rattle.ft_base.specs.Interval.{IsBounded};

    ghost Value = { ℤ × ℤ };

    ghost view = { λ r. (r.lo, r.hi) };

    ghost invariant = { λ r. IsBounded LIMIT r.lo r.hi };

    ghost inverse = { λ bounds. record { lo = bounds.0; hi = bounds.1 } };
}

impl<const LIMIT: u64> Interval<LIMIT> {
    /// The interval of these bounds. None exactly where `lo > hi` or a bound is beyond the limit.
    pub fn new(lo: i64, hi: i64) -> Option<Interval<LIMIT>>
        ensures { SomeIff result (IsBounded LIMIT lo hi) (lo, hi) }
    {
        if lo <= hi && lo.unsigned_abs() <= LIMIT && hi.unsigned_abs() <= LIMIT {
            Some(Interval { lo, hi })
        } else {
            None
        }
    }

    /// The least number of the interval.
    pub fn lo(&self) -> i64
        ensures value { result ≡ self.now.0 }
        ensures bounded { IsBounded LIMIT self.now.0 self.now.1 }
    {
        self.lo
    }

    /// The greatest number of the interval.
    pub fn hi(&self) -> i64
        ensures value { result ≡ self.now.1 }
        ensures bounded { IsBounded LIMIT self.now.0 self.now.1 }
    {
        self.hi
    }

    /// Whether a number lies in the interval.
    pub fn has(&self, value: i64) -> bool
        ensures { IsTrue result ↔ IsWithin self.now value }
    {
        self.lo <= value && value <= self.hi
    }
}
