ghost use Rattle.std.specs.Prelude.{◌≡◌, pos};
ghost use Rattle.ft_build.specs.meaning.Variables.{ranged, values_range};

use ft_base::Range;
use ft_names::Values;

// The range of 0 alone.
fn zero() -> Range
    ensures { result ≡ ranged (pos 0) (pos 0) }
{
    match Range::new(0, 0) {
        Some(range) => range,
        None => unreachable!(),
    }
}

// The range of these bounds, and that of 0 alone where there is none.
#[tactic(auto, using(crate::proofs::RangeLemmas::ranges))]
fn ranged(lo: i64, hi: i64) -> Range
    ensures { result ≡ ranged lo hi }
{
    match Range::new(lo, hi) {
        Some(range) => range,
        None => zero(),
    }
}

/// The range of values. Bounds that are no range count as 0 alone.
pub fn values_range(values: Values) -> Range
    ensures { result ≡ values_range values }
{
    match values {
        Values::Numbers { lo, hi } => ranged(lo, hi),
        Values::Truths => ranged(0, 1),
        Values::Members { count, .. } => ranged(0, i64::from(count.saturating_sub(1))),
        Values::Untyped => ranged(0, 0),
    }
}
