ghost use Rattle.std.specs.Prelude.{◌≡◌, ◌≤◌, ◌<◌, ℕ, ℤ, length, All, slice_set, IsTrue, IsFalse};
ghost use Rattle.ft_base.specs.Interval.{IsBounded};
ghost use Rattle.ft_linear.specs.meaning.Bounds.{value_most};
ghost use Rattle.ft_linear.specs.meaning.Form.{InArea, values_at};
ghost use Rattle.ft_diff.specs.meaning.Differences.{IsOver, IsSolution, IsUnder, HasUnknown};
ghost use Rattle.ft_diff.specs.narrowing.Outcome.{highs};

use crate::cycle::{far_back, is_negative_cycle};
use crate::diff::Diff;
use crate::narrowing::{Step, round};
use crate::room::DiffRoom;
use ft_base::Span;
use ft_linear::Area;

// Gives an unknown its span.
fn put(spans: &mut [Span], at: usize, span: Span)
    requires { at < length spans.old }
    ensures set { spans.new ≡ slice_set spans.old at span }
    ensures bounded { IsBounded value_most span.0 span.1 }
{
    spans[at] = span;
}

// The spans of the area, none of whose unknowns was lowered.
fn begin(area: &[Span], spans: &mut [Span], lowered_by: &mut [usize], none: usize)
    requires spans { length spans.old ≡ length area.now }
    requires places { length lowered_by.old ≡ length area.now }
    ensures same { spans.new ≡ area.now }
    ensures high { InArea area.now (highs area.now) }
{
    'spans: for (at, span) in area.iter().enumerate() {
        put(spans, at, *span);
        lowered_by[at] = none;
    }
}

// Lowers the greatest numbers in rounds until they meet all lines or no solution is left.
fn solve(list: &[Diff], area: &[Span], spans: &mut [Span], lowered_by: &mut [usize]) -> bool
    requires over { All (IsOver (length area.now)) list.now }
    requires spans { length spans.old ≡ length area.now }
    requires places { length lowered_by.old ≡ length area.now }
    ensures solved { IsTrue result → IsSolution list.now area.now (highs spans.new) }
    ensures greatest { IsTrue result → (x : ℕ → ℤ) → IsSolution list.now area.now x
        → IsUnder (length area.now) x (highs spans.new) }
    ensures none { IsFalse result → (x : ℕ → ℤ) → IsSolution list.now area.now x → ⊥ }
{
    begin(area, spans, lowered_by, list.len());
    'rounds: loop {
        match round(list, spans, lowered_by) {
            Step::Met => return true,
            Step::Barred => return false,
            Step::Lowered(unknown) => {
                if is_negative_cycle(list, lowered_by, far_back(list, lowered_by, unknown)) {
                    return false;
                }
            }
        }
    }
}

// The same in the places of the area's unknowns, which come first.
fn solve_within(list: &[Diff], area: &[Span], spans: &mut [Span], lowered_by: &mut [usize]) -> bool
    requires over { All (IsOver (length area.now)) list.now }
    requires spans { length area.now ≤ length spans.old }
    requires places { length lowered_by.old ≡ length spans.old }
    ensures solved { IsTrue result → IsSolution list.now area.now (highs spans.new) }
    ensures greatest { IsTrue result → (x : ℕ → ℤ) → IsSolution list.now area.now x
        → IsUnder (length area.now) x (highs spans.new) }
    ensures none { IsFalse result → (x : ℕ → ℤ) → IsSolution list.now area.now x → ⊥ }
{
    let count = area.len();
    solve(list, area, &mut spans[..count], &mut lowered_by[..count])
}

/// Whether some whole numbers, one of the span of each unknown, meet all lines. Where it is true `room` has the
/// greatest such numbers. It takes no memory, and time in proportion to the unknowns of the area, and in each round
/// to the lines. There is at most one round more than there are unknowns that stand first in lines.
///
/// The room has a place for each unknown of the area, each unknown of the list has a span in the area, and each
/// `c` is at most 5,000,000,000,000,000 either way.
pub fn differences(list: &[Diff], area: &Area, room: &mut DiffRoom) -> bool
    requires over { All (IsOver (length area.now.spans)) list.now }
    requires room { length area.now.spans ≤ length room.old }
    ensures solved { IsTrue result → IsSolution list.now area.now.spans (values_at room.new) }
    ensures greatest { IsTrue result → (x : ℕ → ℤ) → IsSolution list.now area.now.spans x
        → IsUnder (length area.now.spans) x (values_at room.new) }
    ensures none { IsFalse result → (x : ℕ → ℤ) → IsSolution list.now area.now.spans x → ⊥ }
    ensures room { length room.new ≡ length room.old }
{
    solve_within(
        list,
        area.spans.as_slice(),
        &mut room.spans,
        &mut room.lowered_by,
    )
}
