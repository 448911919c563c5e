// The turns of an elimination: fractions for the unknowns, and a row more where two bounds clash.

ghost use Rattle.std.specs.Prelude.{◌≡◌, ◌≢◌, ◌≤◌, ◌<◌, ◌+◌, ◌*◌, ◌++◌, ◌∷◌, [], ℕ, pos, length, MatchOption, None, Some, IsTrue, false};
ghost use Rattle.ft_farkas.specs.meaning.Rows.{Row, row_of, width};
ghost use Rattle.ft_farkas.specs.meaning.Kept.{row_in, IsNarrow, Combines};
ghost use Rattle.ft_farkas.specs.meaning.Answers.{IsTooWide};
ghost use Rattle.ft_farkas.specs.building.Forms.{NoneContradict};
ghost use Rattle.ft_farkas.specs.building.Table.{KeptView, IsRow};
ghost use Rattle.ft_farkas.specs.building.Turns.{ClashAt, HaveLower, IsNext, Turns};

use crate::answer::Eliminated;
use crate::assigning::{Assigned, assign};
use crate::kept::Kept;
use crate::mixing::combine;
use crate::numbers::multipliers;

/// Combines two kept rows that clash. False where a number of their combination is above 2^62.
fn derive(
    kept: &Kept,
    unknown: usize,
    upper: usize,
    lower: usize,
    sum: &mut [i128],
    row: &mut [i64],
) -> bool
    requires few { kept.now.unknowns ≤ 2000 }
    requires clash { ClashAt kept.now.unknowns kept.now.rows unknown upper lower }
    requires sum { length sum.old ≡ width kept.now.unknowns }
    requires row { length row.old ≡ width kept.now.unknowns }
    ensures sum { length sum.new ≡ length sum.old }
    ensures columns { length row.new ≡ length row.old }
    ensures made { IsTrue result → Combines (width kept.now.unknowns) unknown (row_in kept.now.rows upper) (row_in kept.now.rows lower) (row_of row.new) }
    ensures row { IsTrue result → IsRow kept.now.unknowns row.new }
    ensures wide { result ≡ false → IsTooWide kept.now.unknowns kept.now.rows upper lower }
{
    let first = kept.row(upper);
    let second = kept.row(lower);
    let (times_first, times_second) = multipliers(first[unknown + 1], second[unknown + 1]);
    combine(unknown, times_first, first, times_second, second, sum, row)
}

/// Keeps the combination of two rows that clash. Some where that ends the elimination.
fn keep_derived(
    kept: &mut Kept,
    unknown: usize,
    upper: usize,
    lower: usize,
    sum: &mut [i128],
    row: &mut [i64],
) -> Option<Eliminated>
    requires few { kept.old.unknowns ≤ 2000 }
    requires clash { ClashAt kept.old.unknowns kept.old.rows unknown upper lower }
    requires some { length kept.old.rows < kept.old.room }
    requires room { kept.old.room ≤ 10000 }
    requires sum { length sum.old ≡ width kept.old.unknowns }
    requires row { length row.old ≡ width kept.old.unknowns }
    ensures unknowns { kept.new.unknowns ≡ kept.old.unknowns }
    ensures room { kept.new.room ≡ kept.old.room }
    ensures sum { length sum.new ≡ length sum.old }
    ensures row { length row.new ≡ length row.old }
    ensures ends { (x : Row) → MatchOption result ((kept.new.rows ≡ kept.old.rows ++ row.new ∷ []) × IsNext kept.old.unknowns kept.old.rows (row_of row.new))
        (λ found. Turns kept.old.unknowns kept.old.rows kept.new.rows x (row_of row.new) found) }
{
    if !derive(kept, unknown, upper, lower, sum, row) {
        return Some(Eliminated::Wide {
            first: upper as u32,
            second: lower as u32,
        });
    }
    let at = kept.len();
    kept.push(row);
    if kept.contradicts(at) {
        Some(Eliminated::Sum)
    } else {
        None
    }
}

/// Gives the unknowns fractions, and keeps a row more where that doesn't succeed. Some where the elimination ends.
pub(crate) fn turn(
    kept: &mut Kept,
    lines: usize,
    point: &mut [i64],
    sum: &mut [i128],
    row: &mut [i64],
) -> Option<Eliminated>
    requires few { kept.old.unknowns ≤ 2000 }
    requires lines { lines ≤ 256 }
    requires lower { HaveLower kept.old.unknowns kept.old.rows lines }
    requires none { NoneContradict kept.old.unknowns kept.old.rows (length kept.old.rows) }
    requires some { length kept.old.rows < kept.old.room }
    requires room { kept.old.room ≤ 10000 }
    requires point { length point.old ≡ kept.old.unknowns + 1 }
    requires sum { length sum.old ≡ width kept.old.unknowns }
    requires row { length row.old ≡ width kept.old.unknowns }
    ensures unknowns { kept.new.unknowns ≡ kept.old.unknowns }
    ensures room { kept.new.room ≡ kept.old.room }
    ensures point { length point.new ≡ length point.old }
    ensures sum { length sum.new ≡ length sum.old }
    ensures row { length row.new ≡ length row.old }
    ensures ends { MatchOption result ((kept.new.rows ≡ kept.old.rows ++ row.new ∷ []) × IsNext kept.old.unknowns kept.old.rows (row_of row.new))
        (λ found. Turns kept.old.unknowns kept.old.rows kept.new.rows (row_of point.new) (row_of row.new) found) }
{
    match assign(kept, lines, point, sum) {
        Assigned::All => Some(Eliminated::RationalPoint),
        Assigned::Beyond => Some(Eliminated::Far),
        Assigned::Clash {
            unknown,
            upper,
            lower,
        } => keep_derived(kept, unknown, upper, lower, sum, row),
    }
}
