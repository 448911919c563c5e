// Totals of the factors of lines, one for each unknown. A line adds to the totals of its own unknowns alone, and these are
// made 0 again afterwards, so a sum takes time by the factors of its lines, however many unknowns there are.
//
// A factor of a line is at most 4e15 either way and its constant at most 4e15 + 1. Times a multiplier of at most
// 2^62 that is below 1.85e34, and 4,300 lines add up to less than 7.94e37 either way, which an i128 holds
// in any order of adding. So the number of lines and each multiplier are tested before the first product.

ghost use Rattle.std.specs.Prelude.{◌≡◌, ◌≤◌, ◌<◌, ◌+◌, ◌*◌, ◌+ℤ◌, ◌*ℤ◌, ℤ, pos, [], ◌∷◌, neg_ℤ, true, false, length, unsigned_abs, slice_set};
ghost use Rattle.std.specs.Prelude.{if◌then◌else◌, IfOk};
ghost use Rattle.ft_linear.specs.meaning.Bounds.{times_most};
ghost use Rattle.ft_linear.specs.meaning.Form.{AreRising, HasUnknowns, values_at};
ghost use Rattle.ft_linear.specs.meaning.Formula.{IsOver};
ghost use Rattle.ft_linear.specs.meaning.Rules.{are_lines, factors_in, is_line, line_form, times_of};
ghost use Rattle.ft_linear.specs.summing.Sizes.{line_most, line_product_most, line_sum_most};
ghost use Rattle.ft_linear.specs.summing.Totals.{AreAdded, AreClear, AreCleared, AreTotals, AreWithin, are_free, is_free};

use crate::formula::Formula;
use crate::lines::Line;
use crate::part::Part;
use ft_base::NoMemory;
use std::alloc::Global;
use std::marker::Model;

/// Room in which lines are summed: a total for each unknown, all of which are 0 between calls. Contracts see for how many
/// unknowns there is room.
#[derive(Drop)]
pub struct SumRoom {
    pub(crate) totals: Vec<i128>,
}

impl Model for SumRoom {
    ghost use Rattle.std.specs.Prelude.{ℕ, length};
    ghost use Rattle.ft_linear.specs.summing.Totals.{AreClear};

    ghost Value = { ℕ };

    ghost view = { λ room. length room.totals.items };

    ghost invariant = { λ room. AreClear room.totals.items };
}

impl SumRoom {
    /// Room for areas of at most this many unknowns.
    pub fn open(alloc: Global, unknowns: usize) -> Result<SumRoom, NoMemory>
        ensures { IfOk result (λ room. room ≡ unknowns) }
    {
        let mut totals = Vec::new(alloc);
        for _unknown in 0..unknowns {
            totals.push(0)?;
        }
        Ok(SumRoom { totals })
    }
}

/// A number of a line as many times as the line is taken.
pub fn product(times: i64, number: i64) -> i128
    requires times { unsigned_abs times ≤ times_most }
    requires number { unsigned_abs number ≤ line_most }
    ensures value { result ≡ times *ℤ number }
    ensures small { unsigned_abs result ≤ line_product_most }
{
    i128::from(times) * i128::from(number)
}

/// One more product, after so many.
pub fn plus(total: i128, term: i128, count: usize) -> i128
    requires total { unsigned_abs total ≤ line_product_most * count }
    requires term { unsigned_abs term ≤ line_product_most }
    requires count { count < 4300 }
    ensures sum { result ≡ total +ℤ term }
    ensures small { unsigned_abs result ≤ line_product_most * (count + 1) }
{
    total + term
}

/// A multiplier, or minus it where the literal is that its atom is false.
pub fn signed(value: bool, times: u64) -> i64
    requires { times ≤ times_most }
    ensures value { result ≡ if value then pos times else neg_ℤ (pos times) }
    ensures small { unsigned_abs result ≤ times_most }
{
    let times = times as i64;
    if value { times } else { -times }
}

/// Adds a factor of a line, so many times, after so many lines.
fn add_at(totals: &mut [i128], unknown: u32, times: i64, factor: i64, count: usize)
    requires unknown { unknown < length totals.old }
    requires total { unsigned_abs (values_at totals.old unknown) ≤ line_product_most * count }
    requires times { unsigned_abs times ≤ times_most }
    requires factor { unsigned_abs factor ≤ line_most }
    requires count { count < 4300 }
    ensures { totals.new ≡ slice_set totals.old unknown (values_at totals.old unknown +ℤ (times *ℤ factor)) }
{
    let total = totals[unknown as usize];
    totals[unknown as usize] = plus(total, product(times, factor), count);
}

/// Adds the factors of a form, each so many times, after so many lines.
fn add_factors(totals: &mut [i128], factors: &[(u32, i64)], times: i64, count: usize)
    requires over { HasUnknowns (length totals.old) factors.now }
    requires rising { AreRising 0 factors.now }
    requires times { unsigned_abs times ≤ times_most }
    requires count { count < 4300 }
    requires small { AreWithin (line_product_most * count) totals.old }
    ensures added { AreAdded totals.old times factors.now totals.new }
    ensures small { AreWithin (line_product_most * (count + 1)) totals.new }
{
    for factor in factors {
        add_at(totals, factor.0, times, factor.1, count);
    }
}

/// Adds the bound of an unknown, with this factor, after so many lines.
fn add_bound(totals: &mut [i128], unknown: u32, times: u64, factor: i64, count: usize)
    requires over { unknown < length totals.old }
    requires times { times ≤ times_most }
    requires factor { unsigned_abs factor ≤ 1 }
    requires count { count < 4300 }
    requires small { AreWithin (line_product_most * count) totals.old }
    ensures added { AreAdded totals.old (pos times) ((unknown, factor) ∷ []) totals.new }
    ensures small { AreWithin (line_product_most * (count + 1)) totals.new }
{
    add_at(totals, unknown, signed(true, times), factor, count);
}

/// Adds the factors of a line, after so many lines.
fn add_line(formula: &Formula, part: &Part, line: &Line, count: usize, totals: &mut [i128])
    requires line { is_line formula.now part.now line.now ≡ true }
    requires over { IsOver (length part.now.spans) formula.now }
    requires room { length part.now.spans ≤ length totals.old }
    requires count { count < 4300 }
    requires small { AreWithin (line_product_most * count) totals.old }
    ensures added { AreAdded totals.old (pos (times_of line.now)) (factors_in (line_form formula.now part.now line.now)) totals.new }
    ensures small { AreWithin (line_product_most * (count + 1)) totals.new }
{
    match *line {
        Line::Atom {
            number,
            value,
            times,
        } => {
            let form = &formula.atoms()[number as usize];
            add_factors(totals, form.factors(), signed(value, times), count);
        }
        Line::Upper { unknown, times } => add_bound(totals, unknown, times, 1, count),
        Line::Lower { unknown, times } => add_bound(totals, unknown, times, -1, count),
    }
}

/// Adds the factors of all lines to totals that are 0.
pub fn add_lines(formula: &Formula, part: &Part, lines: &[Line], totals: &mut [i128])
    requires lines { are_lines formula.now part.now lines.now ≡ true }
    requires over { IsOver (length part.now.spans) formula.now }
    requires room { length part.now.spans ≤ length totals.old }
    requires clear { AreClear totals.old }
    ensures totals { AreTotals formula.now part.now lines.now totals.new }
    ensures small { AreWithin line_sum_most totals.new }
{
    'lines: for (at, line) in lines.iter().enumerate() {
        add_line(formula, part, line, at, totals);
    }
}

/// Makes the totals of a form's unknowns 0.
fn clear_factors(totals: &mut [i128], factors: &[(u32, i64)])
    requires { HasUnknowns (length totals.old) factors.now }
    ensures { AreCleared totals.old (λ u. is_free u factors.now) totals.new }
{
    for factor in factors {
        totals[factor.0 as usize] = 0;
    }
}

/// Makes the total of an unknown 0.
fn clear_bound(totals: &mut [i128], unknown: u32)
    requires { unknown < length totals.old }
    ensures { (factor : ℤ) → AreCleared totals.old (λ u. is_free u ((unknown, factor) ∷ [])) totals.new }
{
    totals[unknown as usize] = 0;
}

/// Makes the totals of a line's unknowns 0.
fn clear_line(formula: &Formula, part: &Part, line: &Line, totals: &mut [i128])
    requires line { is_line formula.now part.now line.now ≡ true }
    requires over { IsOver (length part.now.spans) formula.now }
    requires room { length part.now.spans ≤ length totals.old }
    ensures { AreCleared totals.old (λ u. is_free u (factors_in (line_form formula.now part.now line.now))) totals.new }
{
    match *line {
        Line::Atom { number, .. } => {
            let form = &formula.atoms()[number as usize];
            clear_factors(totals, form.factors());
        }
        Line::Upper { unknown, .. } => clear_bound(totals, unknown),
        Line::Lower { unknown, .. } => clear_bound(totals, unknown),
    }
}

/// Makes the totals of these lines 0 again.
pub fn clear_lines(formula: &Formula, part: &Part, lines: &[Line], totals: &mut [i128])
    requires lines { are_lines formula.now part.now lines.now ≡ true }
    requires over { IsOver (length part.now.spans) formula.now }
    requires room { length part.now.spans ≤ length totals.old }
    requires totals { AreTotals formula.now part.now lines.now totals.old }
    ensures { AreClear totals.new }
{
    for line in lines {
        clear_line(formula, part, line, totals);
    }
}
