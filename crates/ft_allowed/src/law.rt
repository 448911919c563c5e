ghost use Rattle.ft_allowed.specs.laws.Laws.{Laws};

use ft_mean::{allowed_by_scan, row_laws};

/// What the proofs of this crate need of the definitions of the crates below.
pub(crate) fn laws()
    ensures { Laws }
{
    allowed_by_scan();
    row_laws();
}
