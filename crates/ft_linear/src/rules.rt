// Sums of forced literals and bounds: whether they contradict, and the span that they leave an unknown.

ghost use Rattle.std.specs.Prelude.{◌≡◌, ◌≢◌, ◌≤◌, ◌<◌, ◌+◌, ◌*◌, ◌||◌, ◌↔◌, ◌+ℤ◌, ◌-ℤ◌, ◌*ℤ◌, ◌<ℤ◌, neg_ℤ, ℕ, ℤ, pos, Bool, true, false};
ghost use Rattle.std.specs.Prelude.{length, unsigned_abs, IsTrue, IfSome, IfNone};
ghost use Rattle.std.specs.List.{list_all};
ghost use Rattle.ft_base.specs.Interval.{IsWithin};
ghost use Rattle.ft_base.specs.Division.{floor_of};
ghost use Rattle.ft_linear.specs.summing.Sizes.{line_most, line_product_most, line_sum_most, product_most, sum_most};
ghost use Rattle.ft_linear.specs.meaning.Form.{HasUnknowns, InArea, least, span_at};
ghost use Rattle.ft_linear.specs.meaning.Formula.{IsOver};
ghost use Rattle.ft_linear.specs.meaning.Marks.{AreFor, AreJudged};
ghost use Rattle.ft_linear.specs.meaning.Rules.{Contradicts, HoldsForced, Tightens, are_lines, factors_in, is_line, line_form};
ghost use Rattle.ft_linear.specs.meaning.Rules.{literal_form, narrowed, down_to, up_to, total_constant, total_factor};
ghost use Rattle.ft_linear.specs.meaning.Halving.{single_span};
ghost use Rattle.ft_linear.specs.summing.Cancelling.{is_kept, is_cancelled, are_cancelled};
ghost use Rattle.ft_linear.specs.summing.Totals.{AreClear, AreTotals};

use crate::formula::Formula;
use crate::lin::Lin;
use crate::lines::{
    Line, are_lines, factor_of, line_constant, literal_constant, literal_factor, times_of,
};
use crate::marks::Marks;
use crate::part::Part;
use crate::sums::{least_of, lowest, most_of};
use crate::totals::{SumRoom, add_lines, clear_lines, plus, product, signed};
use ft_base::Span;

/// The constant in the sum of the lines.
fn total_constant(formula: &Formula, part: &Part, lines: &[Line]) -> i128
    requires { are_lines formula.now part.now lines.now ≡ true }
    ensures value { result ≡ total_constant formula.now part.now lines.now }
    ensures small { unsigned_abs result ≤ line_sum_most }
{
    let mut total = 0;
    'lines: for (at, line) in lines.iter().enumerate() {
        let constant = line_constant(formula, part, line);
        total = plus(total, product(signed(true, times_of(line)), constant), at);
    }
    total
}

/// Whether an unknown is the one that is kept.
fn is_kept(kept: Option<u32>, unknown: u32) -> bool
    ensures { result ≡ is_kept kept unknown }
{
    match kept {
        Some(kept) => unknown == kept,
        None => false,
    }
}

/// Whether an unknown cancels by its total, or is the one that is kept.
fn is_cancelled(totals: &[i128], kept: Option<u32>, unknown: u32) -> bool
    requires { unknown < length totals.now }
    ensures { result ≡ is_cancelled kept totals.now unknown }
{
    is_kept(kept, unknown) || totals[unknown as usize] == 0
}

/// Whether the unknowns of these factors all cancel.
fn are_cancelled(totals: &[i128], kept: Option<u32>, factors: &[(u32, i64)]) -> bool
    requires { HasUnknowns (length totals.now) factors.now }
    ensures { result ≡ are_cancelled kept totals.now factors.now }
{
    for factor in factors {
        if !is_cancelled(totals, kept, factor.0) {
            return false;
        }
    }
    true
}

/// Whether the unknowns of a line all cancel.
fn line_cancelled(
    formula: &Formula,
    part: &Part,
    line: &Line,
    kept: Option<u32>,
    totals: &[i128],
) -> bool
    requires line { is_line formula.now part.now line.now ≡ true }
    requires over { IsOver (length part.now.spans) formula.now }
    requires room { length part.now.spans ≤ length totals.now }
    ensures { result ≡ are_cancelled kept totals.now (factors_in (line_form formula.now part.now line.now)) }
{
    match *line {
        Line::Atom { number, .. } => {
            let form = &formula.atoms()[number as usize];
            are_cancelled(totals, kept, form.factors())
        }
        Line::Upper { unknown, .. } => is_cancelled(totals, kept, unknown),
        Line::Lower { unknown, .. } => is_cancelled(totals, kept, unknown),
    }
}

/// Whether each unknown of the lines cancels by the totals of their factors, but for one that may be kept.
fn all_cancelled(
    formula: &Formula,
    part: &Part,
    lines: &[Line],
    kept: Option<u32>,
    totals: &[i128],
) -> bool
    requires lines { are_lines formula.now part.now lines.now ≡ true }
    requires over { IsOver (length part.now.spans) formula.now }
    requires room { length part.now.spans ≤ length totals.now }
    requires totals { AreTotals formula.now part.now lines.now totals.now }
    ensures { IsTrue result ↔ ((u : ℕ) → is_kept kept u ≡ false → total_factor formula.now part.now u lines.now ≡ pos 0) }
{
    for line in lines {
        if !line_cancelled(formula, part, line, kept, totals) {
            return false;
        }
    }
    true
}

/// Whether each unknown cancels in the sum of the lines.
fn cancel(formula: &Formula, part: &Part, lines: &[Line], totals: &mut [i128]) -> bool
    requires lines { are_lines formula.now part.now lines.now ≡ true }
    requires over { IsOver (length part.now.spans) formula.now }
    requires room { length part.now.spans ≤ length totals.old }
    requires clear { AreClear totals.old }
    ensures cancel { IsTrue result ↔ ((u : ℕ) → total_factor formula.now part.now u lines.now ≡ pos 0) }
    ensures clear { AreClear totals.new }
{
    add_lines(formula, part, lines, totals);
    let cancelled = all_cancelled(formula, part, lines, None, totals);
    clear_lines(formula, part, lines, totals);
    cancelled
}

/// The factor of an unknown in the sum of the lines. None exactly where another unknown doesn't cancel.
fn factor_alone(
    formula: &Formula,
    part: &Part,
    lines: &[Line],
    unknown: u32,
    totals: &mut [i128],
) -> Option<i128>
    requires lines { are_lines formula.now part.now lines.now ≡ true }
    requires over { IsOver (length part.now.spans) formula.now }
    requires room { length part.now.spans ≤ length totals.old }
    requires unknown { unknown < length part.now.spans }
    requires clear { AreClear totals.old }
    ensures value { IfSome result (λ factor. factor ≡ total_factor formula.now part.now unknown lines.now) }
    ensures small { IfSome result (λ factor. unsigned_abs factor ≤ line_sum_most) }
    ensures alone { IfSome result (λ factor. (v : ℕ) → v ≢ unknown → total_factor formula.now part.now v lines.now ≡ pos 0) }
    ensures none { IfNone result (((v : ℕ) → v ≢ unknown → total_factor formula.now part.now v lines.now ≡ pos 0) → ⊥) }
    ensures clear { AreClear totals.new }
{
    add_lines(formula, part, lines, totals);
    let cancelled = all_cancelled(formula, part, lines, Some(unknown), totals);
    let factor = totals[unknown as usize];
    clear_lines(formula, part, lines, totals);
    if cancelled { Some(factor) } else { None }
}

/// Whether the lines, each times its multiplier, add up to a positive constant with no unknown. True only where no
/// point of the part makes each forced literal true. The part is the one that was judged last. False also where
/// there is no line or more than 4,300, a multiplier is 0 or above 2^62, a literal isn't forced, or an unknown
/// isn't there. It takes no memory, and time by the lines and their factors.
pub fn contradict(
    formula: &Formula,
    part: &Part,
    marks: &Marks,
    lines: &[Line],
    room: &mut SumRoom,
) -> bool
    requires opened { AreFor formula.now part.now marks.now }
    requires judged { AreJudged formula.now part.now marks.now }
    requires over { IsOver (length part.now.spans) formula.now }
    requires room { length part.now.spans ≤ room.old }
    ensures holds { IsTrue result ↔ Contradicts formula.now part.now lines.now }
    ensures none { IsTrue result → (x : ℕ → ℤ) → InArea part.now.spans x → HoldsForced formula.now part.now x → ⊥ }
    ensures room { room.new ≡ room.old }
{
    if !are_lines(formula, part, marks, lines) {
        return false;
    }
    if !cancel(formula, part, lines, &mut room.totals) {
        return false;
    }
    total_constant(formula, part, lines) > 0
}

/// The span with this upper end, where that is smaller and not empty.
fn up_to(span: Span, hi: i128) -> Option<Span>
    ensures { result ≡ up_to span hi }
{
    if i128::from(span.lo()) <= hi && hi < i128::from(span.hi()) {
        Span::new(span.lo(), hi as i64)
    } else {
        None
    }
}

/// The span with this lower end, where that is smaller and not empty.
fn down_to(span: Span, lo: i128) -> Option<Span>
    ensures { result ≡ down_to span lo }
{
    if i128::from(span.lo()) < lo && lo <= i128::from(span.hi()) {
        Span::new(lo as i64, span.hi())
    } else {
        None
    }
}

/// Minus the number.
fn opposite(number: i128) -> i128
    requires { unsigned_abs number ≤ line_sum_most }
    ensures value { result ≡ neg_ℤ number }
    ensures small { unsigned_abs result ≤ line_sum_most }
{
    -number
}

/// The quotient, rounded down.
fn floor(number: i128, divisor: i128) -> i128
    requires small { unsigned_abs number ≤ line_sum_most }
    requires above { pos 0 <ℤ divisor }
    ensures value { result ≡ floor_of number divisor }
    ensures small { unsigned_abs result ≤ line_sum_most }
{
    number.div_euclid(divisor)
}

/// The numbers x of the span with g*x + c at most 0.
fn narrowed(g: i128, c: i128, span: Span) -> Option<Span>
    requires factor { unsigned_abs g ≤ line_sum_most }
    requires constant { unsigned_abs c ≤ line_sum_most }
    ensures { result ≡ narrowed g c span }
{
    let most = opposite(c);
    if g > 0 {
        up_to(span, floor(most, g))
    } else if g < 0 {
        down_to(span, opposite(floor(most, opposite(g))))
    } else {
        None
    }
}

/// The span that the lines leave an unknown. They have to add up, each times its multiplier, to `g*x + c <= 0` with the
/// unknown x alone and g not 0; the span is the unknown's with its upper end by floor, or its lower end by ceiling.
/// None exactly where they don't, where the span is empty or no smaller, and where `contradict` is false of any lines.
/// Each point of the part that makes each forced literal true lies in it. It takes no memory, and time by the lines and their factors.
pub fn tighten(
    formula: &Formula,
    part: &Part,
    marks: &Marks,
    unknown: u32,
    lines: &[Line],
    room: &mut SumRoom,
) -> Option<Span>
    requires opened { AreFor formula.now part.now marks.now }
    requires judged { AreJudged formula.now part.now marks.now }
    requires over { IsOver (length part.now.spans) formula.now }
    requires room { length part.now.spans ≤ room.old }
    ensures some { IfSome result (λ span. Tightens formula.now part.now unknown lines.now span) }
    ensures only { (span : ℤ × ℤ) → Tightens formula.now part.now unknown lines.now span → result ≡ Some span }
    ensures within { IfSome result (λ span. (x : ℕ → ℤ) → InArea part.now.spans x → HoldsForced formula.now part.now x
        → IsWithin span (x unknown)) }
    ensures room { room.new ≡ room.old }
{
    let spans = part.area().spans.as_slice();
    if unknown as usize >= spans.len() || !are_lines(formula, part, marks, lines) {
        return None;
    }
    let Some(factor) = factor_alone(formula, part, lines, unknown, &mut room.totals) else {
        return None;
    };
    narrowed(
        factor,
        total_constant(formula, part, lines),
        spans[unknown as usize],
    )
}

/// The least value of the factors of a literal's form over an area.
fn least_of_literal(form: &Lin, value: bool, spans: &[Span]) -> i128
    requires { HasUnknowns (length spans.now) form.now.factors }
    ensures value { result ≡ least spans.now (literal_form value form.now).factors }
    ensures small { unsigned_abs result ≤ sum_most }
{
    if value {
        least_of(form.factors(), spans)
    } else {
        opposite(most_of(form.factors(), spans))
    }
}

/// A constant with the least values of the others, where one of all has this least value.
fn with_others(constant: i64, all: i128, one: i128) -> i128
    requires constant { unsigned_abs constant ≤ line_most }
    requires all { unsigned_abs all ≤ sum_most }
    requires one { unsigned_abs one ≤ product_most }
    ensures value { result ≡ constant +ℤ (all -ℤ one) }
    ensures small { unsigned_abs result ≤ line_sum_most }
{
    i128::from(constant) + (all - one)
}

/// The span that the line of a single literal leaves an unknown, with the bounds that cancel its other unknowns, each as many
/// times as its factor. None exactly where the span is empty or no smaller. It is made by one pass over the form; the law
/// `sum_laws` says that `tighten` gives it for these lines.
pub fn single_span(form: &Lin, value: bool, spans: &[Span], unknown: u32) -> Option<Span>
    requires over { HasUnknowns (length spans.now) form.now.factors }
    requires unknown { unknown < length spans.now }
    ensures { result ≡ single_span spans.now unknown (literal_form value form.now) }
{
    let span = spans[unknown as usize];
    let factor = literal_factor(value, factor_of(form.factors(), unknown));
    let constant = literal_constant(value, form.constant());
    let least = least_of_literal(form, value, spans);
    narrowed(
        i128::from(factor),
        with_others(constant, least, lowest(factor, span)),
        span,
    )
}
