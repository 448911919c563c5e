// Lowers the greatest number that each unknown may be, line by line. A solution never lies above these numbers, so
// one that falls below its least number leaves no solution.

ghost use Rattle.std.specs.Prelude.{◌≡◌, ◌≤◌, ◌<◌, ◌+ℤ◌, ◌≤ℤ◌, ◌<ℤ◌, length, unsigned_abs, All, IfSome, IfNone};
ghost use Rattle.ft_linear.specs.meaning.Bounds.{value_most};
ghost use Rattle.ft_linear.specs.meaning.Form.{InArea};
ghost use Rattle.ft_diff.specs.meaning.Differences.{IsOver, HasUnknown, Meets, number_at, difference_most};
ghost use Rattle.ft_diff.specs.narrowing.Outcome.{HasOutcome, highs, combined, is_barred};

use crate::diff::Diff;
use ft_base::Span;

/// What lines did to spans.
#[derive(Clone, Copy, Drop)]
pub enum Step {
    /// The greatest numbers meet the lines.
    Met,
    /// Greatest numbers were lowered, that of this unknown last.
    Lowered(u32),
    /// No point of the spans meets the lines.
    Barred,
}

// The sum of a greatest number and the greatest difference to it.
fn reach(high: i64, c: i64) -> i64
    requires high { unsigned_abs high ≤ value_most }
    requires c { unsigned_abs c ≤ difference_most }
    ensures { result ≡ high +ℤ c }
{
    high + c
}

// The greatest number that an unknown may be, or 0.
fn highest(spans: &[Span], unknown: Option<u32>) -> i64
    requires { HasUnknown (length spans.now) unknown }
    ensures value { result ≡ number_at (highs spans.now) unknown }
    ensures small { unsigned_abs result ≤ value_most }
{
    match unknown {
        Some(unknown) => spans[unknown as usize].hi(),
        None => 0,
    }
}

// The numbers of a span up to a bound that is below its greatest number.
fn cut(span: Span, bound: i64) -> Option<Span>
    requires { bound <ℤ span.1 }
    ensures some { IfSome result (λ part. (span.0 ≤ℤ bound) × (part ≡ (span.0, bound))) }
    ensures none { IfNone result (bound <ℤ span.0) }
{
    Span::new(span.lo(), bound)
}

// An unknown is at most this bound, by the line at this place.
fn tighten_upper_bound(
    spans: &mut [Span],
    lowered_by: &mut [usize],
    unknown: u32,
    bound: i64,
    at: usize,
) -> Step
    requires places { length lowered_by.old ≡ length spans.old }
    requires within { unknown < length spans.old }
    requires high { InArea spans.old (highs spans.old) }
    ensures outcome { HasOutcome (λ x. x unknown ≤ℤ bound) spans.old spans.new result }
    ensures high { InArea spans.new (highs spans.new) }
{
    let span = spans[unknown as usize];
    if span.hi() <= bound {
        return Step::Met;
    }
    match cut(span, bound) {
        Some(part) => {
            spans[unknown as usize] = part;
            lowered_by[unknown as usize] = at;
            Step::Lowered(unknown)
        }
        None => Step::Barred,
    }
}

// The line at this place.
fn narrow(spans: &mut [Span], lowered_by: &mut [usize], line: Diff, at: usize) -> Step
    requires places { length lowered_by.old ≡ length spans.old }
    requires over { IsOver (length spans.old) line }
    requires high { InArea spans.old (highs spans.old) }
    ensures outcome { HasOutcome (λ x. Meets x line) spans.old spans.new result }
    ensures high { InArea spans.new (highs spans.new) }
{
    let bound = reach(highest(spans, line.y), line.c);
    match line.x {
        Some(unknown) => tighten_upper_bound(spans, lowered_by, unknown, bound, at),
        None if bound < 0 => Step::Barred,
        None => Step::Met,
    }
}

// What some lines did, together with one more.
fn combined(step: Step, one: Step) -> Step
    ensures { result ≡ combined step one }
{
    match one {
        Step::Met => step,
        _ => one,
    }
}

fn is_barred(step: Step) -> bool
    ensures { result ≡ is_barred step }
{
    match step {
        Step::Barred => true,
        _ => false,
    }
}

/// Each line once, in turn. `lowered_by` keeps for each unknown the place of the line that lowered it last.
pub fn round(list: &[Diff], spans: &mut [Span], lowered_by: &mut [usize]) -> Step
    requires places { length lowered_by.old ≡ length spans.old }
    requires over { All (IsOver (length spans.old)) list.now }
    requires high { InArea spans.old (highs spans.old) }
    ensures outcome { HasOutcome (λ x. All (Meets x) list.now) spans.old spans.new result }
    ensures high { InArea spans.new (highs spans.new) }
{
    let mut step = Step::Met;
    'lines: for (at, line) in list.iter().enumerate() {
        let one = narrow(spans, lowered_by, *line, at);
        step = combined(step, one);
        if is_barred(step) {
            return Step::Barred;
        }
    }
    step
}
