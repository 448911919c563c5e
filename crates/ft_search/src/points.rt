// The spans of parts.

ghost use Rattle.std.specs.Prelude.{◌≡◌, ◌≤◌, ◌<◌, ◌^◌, ◌+ℤ◌, ◌-ℤ◌, ◌≤ℤ◌, ◌<ℤ◌, ℕ, ℤ, pos, length, IfSome, IfNone};
ghost use Rattle.ft_base.specs.Division.{floor_of};
ghost use Rattle.ft_linear.specs.meaning.Form.{span_at};
ghost use Rattle.ft_search.specs.meaning.Spent.{middle_of};

use ft_base::Span;

/// One less than the count of the span's values.
pub(crate) fn width(span: Span) -> i64
    ensures value { result ≡ span.1 -ℤ span.0 }
    ensures low { pos 0 ≤ℤ result }
    ensures high { result ≤ℤ pos 8000000000000000 }
{
    span.hi() - span.lo()
}

/// The first of the unknowns with the most values. None exactly where each has one.
pub(crate) fn widest(spans: &[Span]) -> Option<u32>
    requires { length spans.now < 2 ^ 32 }
    ensures some { IfSome result (λ u. (u < length spans.now) × ((span_at spans.now u).0 <ℤ (span_at spans.now u).1)) }
    ensures none { IfNone result ((u : ℕ) → (span_at spans.now u).0 ≡ (span_at spans.now u).1) }
{
    let mut most = 0;
    let mut best = None;
    'spans: for (at, span) in spans.iter().enumerate() {
        let width = width(*span);
        if width > most {
            most = width;
            best = Some(at as u32);
        }
    }
    best
}

/// The value in the middle of a span of two values or more.
pub(crate) fn middle(span: Span) -> i64
    requires { span.0 <ℤ span.1 }
    ensures value { result ≡ middle_of span }
    ensures from { span.0 ≤ℤ result }
    ensures below { result <ℤ span.1 }
{
    (span.lo() + span.hi()).div_euclid(2)
}
