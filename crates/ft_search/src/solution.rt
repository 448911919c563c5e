// Whether the solution of a part's differences satisfies the formula.

ghost use Rattle.std.specs.Prelude.{◌≡◌, ◌≤◌, ◌<◌, ◌^◌, ℕ, length, All, IsTrue};
ghost use Rattle.ft_linear.specs.meaning.Form.{InArea, IsSmall, values_at};
ghost use Rattle.ft_linear.specs.meaning.Formula.{IsOver};
ghost use Rattle.ft_search.specs.searching.Turn.{IsPoint};

use ft_base::Span;
use ft_diff::DiffRoom;
use ft_linear::{Formula, evaluate};

/// The value of an unknown in the solution that was found last, which lies in its span.
fn solved(numbers: &DiffRoom, spans: &[Span], unknown: u32) -> i64
    requires inside { InArea spans.now (values_at numbers.now) }
    requires unknown { unknown < length spans.now }
    requires room { length spans.now ≤ length numbers.now }
    ensures value { result ≡ values_at numbers.now unknown }
    ensures small { IsSmall result }
{
    let _least = spans[unknown as usize].lo();
    numbers.value(unknown)
}

/// Writes the solution that was found last.
fn copy_solution(numbers: &DiffRoom, spans: &[Span], point: &mut [i64])
    requires inside { InArea spans.now (values_at numbers.now) }
    requires room { length spans.now ≤ length numbers.now }
    requires point { length point.old ≡ length spans.now }
    requires few { length spans.now < 2 ^ 32 }
    ensures length { length point.new ≡ length spans.now }
    ensures inside { InArea spans.now (values_at point.new) }
    ensures small { All IsSmall point.new }
{
    let count = spans.len() as u32;
    for unknown in 0..count {
        point[unknown as usize] = solved(numbers, spans, unknown);
    }
}

/// Whether the solution that was found last satisfies the formula; it is written then.
pub(crate) fn is_point(
    formula: &Formula,
    spans: &[Span],
    numbers: &DiffRoom,
    point: &mut [i64],
) -> bool
    requires over { IsOver (length spans.now) formula.now }
    requires inside { InArea spans.now (values_at numbers.now) }
    requires room { length spans.now ≤ length numbers.now }
    requires point { length point.old ≡ length spans.now }
    requires few { length spans.now < 2 ^ 32 }
    ensures point { IsTrue result → IsPoint formula.now spans.now point.new }
    ensures length { length point.new ≡ length spans.now }
{
    copy_solution(numbers, spans, point);
    evaluate(formula, point)
}
