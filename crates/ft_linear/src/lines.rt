// The lines of a sum: forced literals and bounds, each with its form and its multiplier.

ghost use Rattle.std.specs.Prelude.{◌≡◌, ◌≤◌, ◌<◌, ◌+◌, ◌&&◌, ◌-ℤ◌, neg_ℤ, pos, true, [], ◌∷◌, length, slice_get, unsigned_abs, is_some};
ghost use Rattle.std.specs.Prelude.{if◌then◌else◌};
ghost use Rattle.ft_linear.specs.summing.Sizes.{line_most};
ghost use Rattle.ft_linear.specs.meaning.Form.{AreRising, IsSmall, span_at};
ghost use Rattle.ft_linear.specs.meaning.Part.{forced};
ghost use Rattle.ft_linear.specs.meaning.Marks.{AreFor, AreJudged};
ghost use Rattle.ft_linear.specs.meaning.Rules.{are_lines, constant_in, factor_of, factors_in, is_line, is_multiplier, line_form, times_of};

use crate::formula::Formula;
use crate::marks::Marks;
use crate::part::Part;

/// The most lines of a sum.
const LINES: usize = 4_300;

/// The greatest multiplier.
const TIMES: u64 = 4_611_686_018_427_387_904;

/// A line that is at most 0 in a part, and how many times it is taken.
#[derive(Clone, Copy, Drop)]
pub enum Line {
    /// A forced literal: the atom's form, or 1 minus it where the atom is forced false.
    Atom {
        /// The atom.
        number: u32,
        /// What it is forced to.
        value: bool,
        /// The multiplier.
        times: u64,
    },
    /// An unknown minus its upper bound.
    Upper {
        /// The unknown.
        unknown: u32,
        /// The multiplier.
        times: u64,
    },
    /// The lower bound of an unknown minus the unknown.
    Lower {
        /// The unknown.
        unknown: u32,
        /// The multiplier.
        times: u64,
    },
}

/// How many times a line is taken.
pub fn times_of(line: &Line) -> u64
    ensures { result ≡ times_of line.now }
{
    match *line {
        Line::Atom { times, .. } => times,
        Line::Upper { times, .. } => times,
        Line::Lower { times, .. } => times,
    }
}

/// Whether a line may be taken so many times.
fn is_multiplier(times: u64) -> bool
    ensures { result ≡ is_multiplier times }
{
    1 <= times && times <= TIMES
}

/// Whether a literal of an atom of the formula is forced.
fn is_forced(formula: &Formula, part: &Part, marks: &Marks, atom: usize, value: bool) -> bool
    requires opened { AreFor formula.now part.now marks.now }
    requires judged { AreJudged formula.now part.now marks.now }
    ensures { result ≡ (forced formula.now part.now atom value && is_some (slice_get formula.now.atoms atom)) }
{
    if atom >= formula.atoms().len() {
        return false;
    }
    marks.is_forced(atom, value)
}

/// Whether a line has a form: its literal is forced, or its unknown is there.
fn has_form(formula: &Formula, part: &Part, marks: &Marks, line: &Line) -> bool
    requires opened { AreFor formula.now part.now marks.now }
    requires judged { AreJudged formula.now part.now marks.now }
    ensures { result ≡ is_some (line_form formula.now part.now line.now) }
{
    match *line {
        Line::Atom { number, value, .. } => {
            is_forced(formula, part, marks, number as usize, value)
        }
        Line::Upper { unknown, .. } => (unknown as usize) < part.area().spans.len(),
        Line::Lower { unknown, .. } => (unknown as usize) < part.area().spans.len(),
    }
}

/// Whether these are lines whose sum can be taken: not too many, each with a form and a multiplier.
pub fn are_lines(formula: &Formula, part: &Part, marks: &Marks, lines: &[Line]) -> bool
    requires opened { AreFor formula.now part.now marks.now }
    requires judged { AreJudged formula.now part.now marks.now }
    ensures { result ≡ are_lines formula.now part.now lines.now }
{
    if lines.is_empty() || lines.len() > LINES {
        return false;
    }
    for line in lines {
        if !(is_multiplier(times_of(line)) && has_form(formula, part, marks, line)) {
            return false;
        }
    }
    true
}

/// The factor of an unknown in a form, whose unknowns rise.
pub fn factor_of(factors: &[(u32, i64)], unknown: u32) -> i64
    requires { AreRising 0 factors.now }
    ensures value { result ≡ factor_of unknown factors.now }
    ensures small { IsSmall result }
{
    for factor in factors {
        if factor.0 == unknown {
            return factor.1;
        }
    }
    0
}

/// A factor of a literal's form, by that of its atom: the same where the atom is to be true, and else minus it.
pub fn literal_factor(value: bool, factor: i64) -> i64
    requires { IsSmall factor }
    ensures value { result ≡ if value then factor else neg_ℤ factor }
    ensures small { IsSmall result }
{
    if value { factor } else { -factor }
}

/// The constant of a literal's form, by that of its atom: the same where the atom is to be true, and else 1 minus it.
pub fn literal_constant(value: bool, constant: i64) -> i64
    requires { IsSmall constant }
    ensures value { result ≡ if value then constant else (pos 1 -ℤ constant) }
    ensures small { unsigned_abs result ≤ unsigned_abs constant + 1 }
{
    if value { constant } else { 1 - constant }
}

/// The greatest number of an unknown.
fn upper_bound(part: &Part, unknown: usize) -> i64
    requires { unknown < length part.now.spans }
    ensures value { result ≡ (span_at part.now.spans unknown).1 }
    ensures small { IsSmall result }
{
    part.area().spans.as_slice()[unknown].hi()
}

/// The least number of an unknown.
fn lower_bound(part: &Part, unknown: usize) -> i64
    requires { unknown < length part.now.spans }
    ensures value { result ≡ (span_at part.now.spans unknown).0 }
    ensures small { IsSmall result }
{
    part.area().spans.as_slice()[unknown].lo()
}

/// The constant of a line.
pub fn line_constant(formula: &Formula, part: &Part, line: &Line) -> i64
    requires { is_line formula.now part.now line.now ≡ true }
    ensures value { result ≡ constant_in (line_form formula.now part.now line.now) }
    ensures small { unsigned_abs result ≤ line_most }
{
    match *line {
        Line::Atom { number, value, .. } => {
            literal_constant(value, formula.atoms()[number as usize].constant())
        }
        Line::Upper { unknown, .. } => -upper_bound(part, unknown as usize),
        Line::Lower { unknown, .. } => lower_bound(part, unknown as usize),
    }
}
