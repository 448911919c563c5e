ghost use Rattle.std.specs.Prelude.{◌≡◌, ◌++◌, [], ◌∷◌, ◌≤ℤ◌, ◌+ℤ◌, pos, negsuc, int_le, if◌then◌else◌};
ghost use Rattle.std.specs.Int.{int_min};
ghost use Rattle.ft_core.specs.checked.Sound.{IsHold, IsPeriod};
ghost use Rattle.ft_memo.specs.Timer.{held_after, age_after};

use crate::told::Told;
use ft_mean::past_laws;
use std::marker::Model;

/// How long a condition has been true, up to a hold. Contracts see the hold, the period and the truths so far, one a scan.
#[derive(Drop)]
pub struct Timer {
    hold: i64,
    period: i64,
    age: i64,
    past: Told<bool>,
}

impl Model for Timer {
    ghost use Rattle.ft_memo.specs.Timer.{Timed, IsRunning};

    ghost Value = { Timed };

    ghost view = { λ timer. record { hold = timer.hold; period = timer.period; truths = timer.past.items } };

    ghost invariant = { λ timer. IsRunning timer.hold timer.period timer.past.items timer.age };
}

/// The age one scan later: it begins at 0, and stops at the hold.
fn next_age(hold: i64, period: i64, before: i64, now: bool) -> i64
    requires hold { IsHold hold }
    requires period { IsPeriod period }
    requires before { before ≤ℤ hold }
    ensures { result ≡ (if now then (if int_le (pos 0) before then int_min hold (before +ℤ period) else pos 0) else negsuc 0) }
{
    if !now {
        -1
    } else if before < 0 {
        0
    } else {
        hold.min(before + period)
    }
}

impl Timer {
    /// A timer that was given no truth yet. The hold is 0 to 1,000,000 and the period, the time from one scan to the next,
    /// 1 to 10,000, both in milliseconds.
    pub fn new(hold: i64, period: i64) -> Timer
        requires hold { IsHold hold }
        requires period { IsPeriod period }
        ensures hold { result.hold ≡ hold }
        ensures period { result.period ≡ period }
        ensures truths { result.truths ≡ [] }
    {
        Timer {
            hold,
            period,
            age: -1,
            past: Told::new(),
        }
    }

    /// Goes on by one scan, and tells whether the condition has been true for the hold.
    pub fn advance(&mut self, now: bool) -> bool
        ensures hold { self.new.hold ≡ self.old.hold }
        ensures period { self.new.period ≡ self.old.period }
        ensures truths { self.new.truths ≡ self.old.truths ++ now ∷ [] }
        ensures held { result ≡ held_after self.new.hold self.new.period self.new.truths }
    {
        past_laws();
        let age = next_age(self.hold, self.period, self.age, now);
        self.age = age;
        self.past = self.past.followed_by(&now);
        age >= self.hold
    }

    /// How many milliseconds the condition has been true at the last scan, up to the hold; -1 where it is false, and where
    /// there was no scan.
    pub fn age(&self) -> i64
        ensures { result ≡ age_after self.now.hold self.now.period self.now.truths }
    {
        self.age
    }
}
