// The elimination of unknowns from lines and bounds.

ghost use Rattle.std.specs.Prelude.{◌≡◌, ◌≤◌, ◌<◌, ◌+◌, ◌*◌, ◌<ℤ◌, ℕ, pos, length, take, true};
ghost use Rattle.ft_linear.specs.meaning.Formula.{IsOver};
ghost use Rattle.ft_farkas.specs.meaning.Rows.{row_of, sources, width};
ghost use Rattle.ft_linear.specs.meaning.Marks.{AreFor, AreJudged};
ghost use Rattle.ft_linear.specs.meaning.Rules.{Contradicts};
ghost use Rattle.ft_farkas.specs.meaning.Fractions.{MeetsAll, denominator_of, numerators_of};
ghost use Rattle.ft_farkas.specs.meaning.Answers.{AreDifferent, AreLiterals, IsFar, IsWide};
ghost use Rattle.ft_farkas.specs.declared.answer.Eliminated.TheVariants.{Sum, RationalPoint, Far, Rows, Wide};
ghost use Rattle.ft_farkas.specs.building.Turns.{Finds};

use crate::answer::Eliminated;
use crate::kept::Kept;
use crate::room::ElimRoom;
use crate::sources::keep_sources;
use crate::turning::turn;
use ft_linear::{Formula, Line, Marks, Part};

/// The most derived rows.
const TURNS: usize = 2_000;

/// Keeps the rows of all lines and bounds, and derives rows from them until one contradicts, fractions meet all, or no more
/// can be kept. Where a row contradicts, it is left in `row`.
pub(crate) fn find(
    formula: &Formula,
    part: &Part,
    lines: &[Line],
    kept: &mut Kept,
    point: &mut [i64],
    sum: &mut [i128],
    row: &mut [i64],
) -> Eliminated
    requires few { length part.now.spans ≤ 2000 }
    requires over { IsOver (length part.now.spans) formula.now }
    requires lines { AreLiterals formula.now part.now lines.now }
    requires unknowns { kept.old.unknowns ≡ length part.now.spans }
    requires kept { length (sources part.now lines.now) + 2000 ≤ kept.old.room }
    requires room { kept.old.room ≤ 10000 }
    requires point { length point.old ≡ length part.now.spans + 1 }
    requires sum { length sum.old ≡ width (length part.now.spans) }
    requires row { length row.old ≡ width (length part.now.spans) }
    ensures unknowns { kept.new.unknowns ≡ kept.old.unknowns }
    ensures kept { kept.new.room ≡ kept.old.room }
    ensures point { length point.new ≡ length point.old }
    ensures sum { length sum.new ≡ length sum.old }
    ensures row { length row.new ≡ length row.old }
    ensures finds { Finds formula.now part.now lines.now kept.new.rows (row_of point.new) (row_of row.new) result }
{
    kept.clear();
    if keep_sources(formula, part, lines, kept, row) {
        return Eliminated::Sum;
    }
    'turns: for _turn in 0..TURNS {
        if let Some(found) = turn(kept, lines.len(), point, sum, row) {
            return found;
        }
    }
    Eliminated::Rows
}

/// Eliminates unknowns from forced literals and all bounds. It takes no memory.
///
/// A kept row is a line, a bound, or a row that is derived of two kept rows before it in which some unknown has factors of
/// opposite signs: the least multipliers that cancel it, and then the greatest common divisor of all numbers taken out.
///
/// `Sum` where the lines that the room lends contradict. `RationalPoint` where the fractions in the room meet all lines and
/// bounds. `Far` where fractions of some unknowns, each the greatest lower bound that kept rows put on its unknown, have a
/// number above 2^53. `Rows` where 2,000 different rows are derived. `Wide` where the combination of two kept rows has a number
/// above 2^62 either way. Kept rows are numbered: the lines, then of each unknown the upper and the lower bound, then derived rows.
pub fn eliminate(
    formula: &Formula,
    part: &Part,
    marks: &Marks,
    lines: &[Line],
    room: &mut ElimRoom,
) -> Eliminated
    requires opened { AreFor formula.now part.now marks.now }
    requires judged { AreJudged formula.now part.now marks.now }
    requires over { IsOver (length part.now.spans) formula.now }
    requires room { room.old.unknowns ≡ length part.now.spans }
    requires lines { AreLiterals formula.now part.now lines.now }
    ensures room { room.new.unknowns ≡ room.old.unknowns }
    ensures sum { result ≡ Sum → Contradicts formula.now part.now room.new.lines }
    ensures positive { result ≡ RationalPoint → pos 0 <ℤ denominator_of room.new.point }
    ensures point { result ≡ RationalPoint → MeetsAll formula.now part.now lines.now (numerators_of room.new.point) (denominator_of room.new.point) }
    ensures far { result ≡ Far → IsFar formula.now part.now lines.now room.new.kept }
    ensures rows { result ≡ Rows → length room.new.kept ≡ length (sources part.now lines.now) + 2000 }
    ensures different { result ≡ Rows → AreDifferent formula.now part.now lines.now room.new.kept }
    ensures wide { (first second : ℕ) → result ≡ Wide first second → IsWide formula.now part.now lines.now room.new.kept first second }
{
    room.run(formula, part, lines)
}
