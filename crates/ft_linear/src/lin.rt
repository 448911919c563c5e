ghost use Rattle.std.specs.Prelude.{◌≡◌, ◌≢◌, ◌≤◌, ◌↔◌, ◌+ℤ◌, IsTrue, pos, length, unsigned_abs, All};
ghost use Rattle.std.specs.Option.{SomeIff};
ghost use Rattle.ft_linear.specs.meaning.Form.{IsProper, IsSmall, AreRising, HasUnknowns, values_at, form_at, least, most};
ghost use Rattle.ft_linear.specs.meaning.Part.{fixed_form};

use crate::sums::{least_of, most_of, sum_of, whole};
use ft_base::{List, Span, Three};
use std::marker::Model;

/// The greatest factor and the greatest constant of a form, either way.
const LIMIT: u64 = 4_000_000_000_000_000;

/// The most factors of a form.
const FACTORS: usize = 10_000;

/// A whole linear form: a sum of whole factors of unknowns, which are numbered from 0, and a constant.
#[derive(Drop)]
pub struct Lin {
    factors: List<(u32, i64)>,
    constant: i64,
}

impl Model for Lin {
    ghost use Rattle.ft_linear.specs.meaning.Form.{LinView, IsProper};

    ghost Value = { LinView };

    ghost view = { λ form. record { factors = form.factors; constant = form.constant } };

    ghost invariant = { λ form. IsProper form.factors form.constant };
}

/// Whether a number may be a factor.
fn is_factor(factor: i64) -> bool
    ensures { IsTrue result ↔ ((factor ≢ pos 0) × IsSmall factor) }
{
    factor != 0 && factor.unsigned_abs() <= LIMIT
}

/// Whether a factor may stand where unknowns from this one on may.
fn may_follow(from: u64, factor: (u32, i64)) -> bool
    ensures { IsTrue result ↔ ((from ≤ factor.0) × (factor.1 ≢ pos 0) × IsSmall factor.1) }
{
    from <= u64::from(factor.0) && is_factor(factor.1)
}

/// Whether the unknowns rise strictly and each factor may be one.
fn are_rising(factors: &[(u32, i64)]) -> bool
    ensures { IsTrue result ↔ AreRising 0 factors.now }
{
    let mut from = 0;
    for factor in factors {
        if !may_follow(from, *factor) {
            return false;
        }
        from = u64::from(factor.0) + 1;
    }
    true
}

impl Lin {
    /// The form with these factors and this constant. None exactly where the unknowns don't rise strictly,
    /// a factor is 0, a factor or the constant is beyond 4,000,000,000,000,000 either way, or there are
    /// more than 10,000 factors. It takes no memory.
    pub fn new(factors: List<(u32, i64)>, constant: i64) -> Option<Lin>
        ensures { SomeIff result (IsProper factors constant) (record { factors = factors; constant = constant }) }
    {
        if factors.len() <= FACTORS
            && are_rising(factors.as_slice())
            && constant.unsigned_abs() <= LIMIT
        {
            Some(Lin { factors, constant })
        } else {
            None
        }
    }

    /// The factors, each with its unknown. The unknowns rise strictly.
    pub fn factors(&self) -> &[(u32, i64)]
        ensures value { result.now ≡ self.now.factors }
        ensures proper { IsProper self.now.factors self.now.constant }
    {
        self.factors.as_slice()
    }

    /// The constant.
    pub fn constant(&self) -> i64
        ensures value { result ≡ self.now.constant }
        ensures small { IsSmall self.now.constant }
    {
        self.constant
    }

    /// Whether each unknown of the form is below this number.
    pub fn is_over(&self, count: usize) -> bool
        ensures { IsTrue result ↔ HasUnknowns count self.now.factors }
    {
        self.factors
            .as_slice()
            .iter()
            .all(|factor| (factor.0 as usize) < count)
    }

    /// The form with these factors and this constant, of which the caller knows that they make one.
    pub fn of_proper(factors: List<(u32, i64)>, constant: i64) -> Lin
        requires { IsProper factors constant }
        ensures { result ≡ record { factors = factors; constant = constant } }
    {
        Lin { factors, constant }
    }

    /// The value of the form at a point.
    pub(crate) fn value(&self, values: &[i64]) -> i128
        requires over { HasUnknowns (length values.now) self.now.factors }
        requires small { All IsSmall values.now }
        ensures { result ≡ form_at (values_at values.now) self.now }
    {
        whole(sum_of(self.factors(), values), self.constant())
    }

    /// The least value of the form over an area.
    pub fn least(&self, spans: &[Span]) -> i128
        requires { HasUnknowns (length spans.now) self.now.factors }
        ensures { result ≡ least spans.now self.now.factors +ℤ self.now.constant }
    {
        whole(least_of(self.factors(), spans), self.constant())
    }

    /// The greatest value of the form over an area.
    pub fn most(&self, spans: &[Span]) -> i128
        requires { HasUnknowns (length spans.now) self.now.factors }
        ensures { result ≡ most spans.now self.now.factors +ℤ self.now.constant }
    {
        whole(most_of(self.factors(), spans), self.constant())
    }

    /// What an area fixes the form's atom to: Yes where no value of the form is positive, No where each is,
    /// by the sum of the bounds.
    pub(crate) fn fixed(&self, spans: &[Span]) -> Three
        requires { HasUnknowns (length spans.now) self.now.factors }
        ensures { result ≡ fixed_form spans.now (Some self.now) }
    {
        if self.most(spans) <= 0 {
            Three::Yes
        } else if self.least(spans) > 0 {
            Three::No
        } else {
            Three::Maybe
        }
    }
}
