ghost use Rattle.ft_replay.specs.laws.Laws.{AllowedAfterLast, Laws, OneFirstDifference};

use ft_mean::{allowed_by_scan, maps_by_scan, one_image, one_trace, outputs_alone, row_laws};

/// What the proofs of this crate need of the definitions of the crates below.
pub(crate) fn laws()
    ensures { Laws }
{
    allowed_by_scan();
    maps_by_scan();
    one_image();
    one_trace();
    outputs_alone();
    row_laws();
}

/// A list has at most one first difference.
pub fn one_first_difference()
    ensures { OneFirstDifference }
{}

/// NAT at the last scan of a list is NAT at that scan after the one before.
pub fn allowed_after_last()
    ensures { AllowedAfterLast }
{
    laws();
}
