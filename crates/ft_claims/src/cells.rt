ghost use Rattle.ft_claims.specs.laws.CellLaws.{KeptIsValues, NamesAreOnce, OverlapHasTwo, OverlapIsOfOne, OverlapsAlike};
ghost use Rattle.ft_claims.specs.laws.CellLaws.{PartsAlike, RangeHasOne, RangesAlike};

use crate::law::laws;

/// What a point of a formula of coverage tells of a table's cells. What stands within claims is as true at numbers that agree on the
/// names of their formula. So the same cells hold at all views that have the values of a point of an overlap, and two at least, the first two for one
/// variable; and
/// at those that have the values of a point of a range the same cells hold and are out of range, and one at least.
pub fn cell_laws()
    ensures parts { PartsAlike }
    ensures overlaps { OverlapsAlike }
    ensures ranges { RangesAlike }
    ensures two { OverlapHasTwo }
    ensures of_one { OverlapIsOfOne }
    ensures one { RangeHasOne }
    ensures kept { KeptIsValues }
    ensures once { NamesAreOnce }
{
    laws();
}
