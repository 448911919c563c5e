//! The sizes of terms by those of their operands.
ghost use Rattle.std.specs.Prelude.{◌≡◌};
ghost use Rattle.ft_measure.specs.meaning.Measures.{both_sizes, magnitude, product_size, product_sizes};

use crate::measure::{LIMIT, Measure, capped};

/// The size of a sum or a difference.
pub(crate) fn both_sizes(a: Option<u64>, b: Option<u64>) -> Option<u64>
    ensures { result ≡ both_sizes a b }
{
    match (a, b) {
        (Some(a), Some(b)) => Some(capped(a.saturating_add(b))),
        _ => None,
    }
}

fn product_sizes(a: Option<u64>, b: Option<u64>) -> Option<u64>
    ensures { result ≡ product_sizes a b }
{
    match (a, b) {
        (Some(a), Some(b)) => Some(capped(a.saturating_mul(b))),
        _ => None,
    }
}

/// How large a constant is. One with a part of size above 10^15 counts as beyond every bound.
pub(crate) fn magnitude(constant: Measure) -> Option<u64>
    ensures { result ≡ magnitude constant }
{
    if constant.large {
        Some(LIMIT + 1)
    } else {
        match constant.value {
            Some(value) => Some(value.unsigned_abs()),
            None => None,
        }
    }
}

/// The size of a product: the magnitude of the constant side, the left one where both are, times the size of the other.
pub(crate) fn product_size(a: Measure, b: Measure) -> Option<u64>
    ensures { result ≡ product_size a b }
{
    if a.constant {
        product_sizes(magnitude(a), b.size)
    } else if b.constant {
        product_sizes(magnitude(b), a.size)
    } else {
        None
    }
}
