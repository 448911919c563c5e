// Fractions for the unknowns, from the first on.

ghost use Rattle.std.specs.Prelude.{◌≡◌, ◌≤◌, ◌<◌, ◌+◌, ℕ, pos, length, MatchOption, None, Some};
ghost use Rattle.ft_farkas.specs.meaning.Rows.{row_of};
ghost use Rattle.ft_farkas.specs.meaning.Kept.{row_in};
ghost use Rattle.ft_farkas.specs.meaning.Fractions.{BoundsBelow};
ghost use Rattle.ft_farkas.specs.building.Forms.{NoneContradict};
ghost use Rattle.ft_farkas.specs.building.Turns.{IsUp, Ends, HaveLower};

use crate::kept::Kept;
use crate::point::{first_over, give, greatest};

/// How the giving of fractions ends.
#[derive(Clone, Copy, Drop)]
pub(crate) enum Assigned {
    /// All unknowns have one.
    All,
    /// A number is above 2^53.
    Beyond,
    /// The greatest lower bound of an unknown is above one of its upper bounds.
    Clash {
        unknown: usize,
        upper: usize,
        lower: usize,
    },
}

/// Makes the denominator 1, for no unknown yet.
fn start(kept: &Kept, point: &mut [i64])
    requires none { NoneContradict kept.now.unknowns kept.now.rows (length kept.now.rows) }
    requires point { 0 < length point.old }
    ensures columns { length point.new ≡ length point.old }
    ensures up { IsUp kept.now.unknowns kept.now.rows (row_of point.new) 0 }
{
    point[0] = 1;
}

/// Gives one unknown its greatest lower bound, where no upper bound is below it.
fn give_next(
    kept: &Kept,
    unknown: usize,
    row: usize,
    point: &mut [i64],
    numbers: &mut [i128],
) -> Option<Assigned>
    requires few { kept.now.unknowns ≤ 2000 }
    requires unknown { unknown < kept.now.unknowns }
    requires row { row < length kept.now.rows }
    requires bound { BoundsBelow kept.now.unknowns unknown (row_in kept.now.rows row) }
    requires point { kept.now.unknowns < length point.old }
    requires numbers { kept.now.unknowns < length numbers.old }
    requires up { IsUp kept.now.unknowns kept.now.rows (row_of point.old) unknown }
    ensures point { length point.new ≡ length point.old }
    ensures numbers { length numbers.new ≡ length numbers.old }
    ensures ends { MatchOption result (IsUp kept.now.unknowns kept.now.rows (row_of point.new) (unknown + 1)) (λ end. Ends kept.now.unknowns kept.now.rows (row_of point.new) end) }
{
    let lower = greatest(kept, unknown, point, row);
    if let Some(upper) = first_over(kept, unknown, point, lower) {
        return Some(Assigned::Clash {
            unknown,
            upper,
            lower: lower.row,
        });
    }
    if give(point, unknown, lower, numbers) {
        None
    } else {
        Some(Assigned::Beyond)
    }
}

/// Gives the unknowns fractions in the order of their numbers, each its greatest lower bound by the kept rows. Those of the
/// bounds come after so many lines.
pub(crate) fn assign(kept: &Kept, lines: usize, point: &mut [i64], numbers: &mut [i128]) -> Assigned
    requires few { kept.now.unknowns ≤ 2000 }
    requires lines { lines ≤ 256 }
    requires lower { HaveLower kept.now.unknowns kept.now.rows lines }
    requires none { NoneContradict kept.now.unknowns kept.now.rows (length kept.now.rows) }
    requires point { kept.now.unknowns < length point.old }
    requires numbers { kept.now.unknowns < length numbers.old }
    ensures point { length point.new ≡ length point.old }
    ensures numbers { length numbers.new ≡ length numbers.old }
    ensures ends { Ends kept.now.unknowns kept.now.rows (row_of point.new) result }
{
    start(kept, point);
    'unknowns: for unknown in 0..kept.unknowns() {
        if let Some(end) = give_next(
            kept,
            unknown,
            lines + (unknown + unknown) + 1,
            point,
            numbers,
        ) {
            return end;
        }
    }
    Assigned::All
}
