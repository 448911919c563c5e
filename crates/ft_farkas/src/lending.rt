// The lines that a row is the sum of.

ghost use Rattle.std.specs.Prelude.{◌≡◌, ◌≤◌, ◌<◌, ◌+◌, ◌++◌, length, take};
ghost use Rattle.ft_farkas.specs.meaning.Rows.{row_of, bounds, chosen, width, with_times};
ghost use Rattle.ft_farkas.specs.building.Lending.{lent_of};
ghost use Rattle.ft_farkas.specs.declared.answer.Eliminated.TheVariants.{Sum};

use crate::answer::Eliminated;
use crate::sources::source_at;
use ft_linear::Line;

/// A line, so many times.
fn with_times(line: Line, times: u64) -> Line
    ensures { result ≡ with_times times line }
{
    match line {
        Line::Atom { number, value, .. } => Line::Atom {
            number,
            value,
            times,
        },
        Line::Upper { unknown, .. } => Line::Upper { unknown, times },
        Line::Lower { unknown, .. } => Line::Lower { unknown, times },
    }
}

/// Puts a line behind those that are used, unless it is taken 0 times.
fn lend_line(line: Line, times: u64, used: usize, lent: &mut [Line]) -> usize
    requires { used < length lent.old }
    ensures room { length lent.new ≡ length lent.old }
    ensures few { result ≤ used + 1 }
    ensures lines { take result lent.new ≡ take used lent.old ++ lent_of times line }
{
    if times == 0 {
        return used;
    }
    lent[used] = with_times(line, times);
    used + 1
}

/// Puts the lines and bounds of which a row is the sum, each with its multiplier, and tells how many they are.
fn lend(row: &[i64], unknowns: usize, lines: &[Line], lent: &mut [Line]) -> usize
    requires few { unknowns ≤ 2000 }
    requires lines { length lines.now ≤ 256 }
    requires row { length row.now ≡ width unknowns }
    requires room { length lines.now + (unknowns + unknowns) ≤ length lent.old }
    ensures room { length lent.new ≡ length lent.old }
    ensures few { result ≤ length lent.new }
    ensures lines { take result lent.new ≡ chosen (row_of row.now) (unknowns + 1) (lines.now ++ bounds unknowns) }
{
    let mut used = 0;
    'sources: for at in 0..lines.len() + 2 * unknowns {
        let times = row[unknowns + 1 + at].unsigned_abs();
        used = lend_line(source_at(lines, at), times, used, lent);
    }
    used
}

/// Lends the lines of a row that contradicts, and none where the elimination ended otherwise.
pub(crate) fn lend_after(
    found: Eliminated,
    row: &[i64],
    unknowns: usize,
    lines: &[Line],
    lent: &mut [Line],
) -> usize
    requires few { unknowns ≤ 2000 }
    requires lines { length lines.now ≤ 256 }
    requires row { length row.now ≡ width unknowns }
    requires room { length lines.now + (unknowns + unknowns) ≤ length lent.old }
    ensures room { length lent.new ≡ length lent.old }
    ensures few { result ≤ length lent.new }
    ensures sum { found ≡ Sum → take result lent.new ≡ chosen (row_of row.now) (unknowns + 1) (lines.now ++ bounds unknowns) }
{
    match found {
        Eliminated::Sum => lend(row, unknowns, lines, lent),
        _ => 0,
    }
}
