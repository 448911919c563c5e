ghost use Rattle.std.specs.Prelude.{◌≡◌, ◌++◌, [], ◌∷◌, ◌<ℤ◌, ◌||◌, int_le, if◌then◌else◌};
ghost use Rattle.ft_memo.specs.Band.{hyst_after};

use crate::told::Told;
use ft_mean::past_laws;
use std::marker::Model;

/// Which of two bounds a number met last. Contracts see the bounds, the start and the numbers so far, one a scan.
#[derive(Drop)]
pub struct Band {
    lo: i64,
    hi: i64,
    start: bool,
    bit: bool,
    past: Told<i64>,
}

impl Model for Band {
    ghost use Rattle.ft_memo.specs.Band.{Banded, IsKept};

    ghost Value = { Banded };

    ghost view = { λ band. record { lo = band.lo; hi = band.hi; start = band.start; numbers = band.past.items } };

    ghost invariant = { λ band. IsKept band.lo band.hi band.start band.past.items band.bit };
}

/// The bit one scan later: between the bounds it stays.
fn next_bit(lo: i64, hi: i64, before: bool, now: i64) -> bool
    requires { lo <ℤ hi }
    ensures { result ≡ (if int_le hi now || int_le now lo then int_le hi now else before) }
{
    if now >= hi {
        true
    } else if now <= lo {
        false
    } else {
        before
    }
}

impl Band {
    /// A band that was given no number yet. The bounds lie apart.
    pub fn new(lo: i64, hi: i64, start: bool) -> Band
        requires { lo <ℤ hi }
        ensures lo { result.lo ≡ lo }
        ensures hi { result.hi ≡ hi }
        ensures start { result.start ≡ start }
        ensures numbers { result.numbers ≡ [] }
    {
        Band {
            lo,
            hi,
            start,
            bit: start,
            past: Told::new(),
        }
    }

    /// Goes on by one scan, and tells whether the upper bound was met since the lower one was; its start where neither was.
    pub fn advance(&mut self, now: i64) -> bool
        ensures lo { self.new.lo ≡ self.old.lo }
        ensures hi { self.new.hi ≡ self.old.hi }
        ensures start { self.new.start ≡ self.old.start }
        ensures numbers { self.new.numbers ≡ self.old.numbers ++ now ∷ [] }
        ensures hyst { result ≡ hyst_after self.new.lo self.new.hi self.new.start self.new.numbers }
    {
        past_laws();
        let bit = next_bit(self.lo, self.hi, self.bit, now);
        self.bit = bit;
        self.past = self.past.followed_by(&now);
        bit
    }
}
