// The memory of an elimination.

ghost use Rattle.std.specs.Prelude.{◌≡◌, ◌≤◌, ◌<◌, ◌+◌, ◌<ℤ◌, length, take, pos, IfOk};
ghost use Rattle.ft_linear.specs.meaning.Formula.{IsOver};
ghost use Rattle.ft_farkas.specs.meaning.Rows.{row_of, width};
ghost use Rattle.ft_farkas.specs.meaning.Fractions.{denominator_of, numerators_of};
ghost use Rattle.ft_farkas.specs.meaning.Answers.{AreLiterals, Findings};
ghost use Rattle.ft_farkas.specs.building.Found.{Tells};

use crate::answer::Eliminated;
use crate::eliminating::find;
use crate::kept::Kept;
use crate::lending::lend_after;
use ft_base::NoMemory;
use ft_linear::{Formula, Line, Part};
use std::alloc::Global;
use std::marker::Model;

/// Room for eliminations over areas of so many unknowns, taken once. Contracts see what it holds after an answer.
#[derive(Drop)]
pub struct ElimRoom {
    kept: Kept,
    point: Vec<i64>,
    sum: Vec<i128>,
    row: Vec<i64>,
    lines: Vec<Line>,
    used: usize,
}

impl Model for ElimRoom {
    ghost use Rattle.std.specs.Prelude.{◌≡◌, ◌≤◌, ◌+◌, length, take};
    ghost use Rattle.ft_farkas.specs.meaning.Rows.{width};
    ghost use Rattle.ft_farkas.specs.meaning.Answers.{Findings};

    ghost Value = { Findings };

    ghost view = { λ room. record { unknowns = room.kept.unknowns; kept = room.kept.rows; lines = take room.used room.lines.items; point = room.point.items } };

    ghost invariant = { λ room. (room.kept.unknowns ≤ 2000) × (room.kept.room ≡ 256 + (room.kept.unknowns + room.kept.unknowns) + 2000)
        × (length room.point.items ≡ room.kept.unknowns + 1) × (length room.sum.items ≡ width room.kept.unknowns) × (length room.row.items ≡ width room.kept.unknowns)
        × (length room.lines.items ≡ 256 + (room.kept.unknowns + room.kept.unknowns)) × (room.used ≤ length room.lines.items) };
}

/// So many zeros.
fn zeros(alloc: Global, count: usize) -> Result<Vec<i64>, NoMemory>
    ensures { IfOk result (λ numbers. length numbers.items ≡ count) }
{
    Ok(Vec::from_elem(alloc, 0, count)?)
}

/// So many zeros for sums.
fn wide_zeros(alloc: Global, count: usize) -> Result<Vec<i128>, NoMemory>
    ensures { IfOk result (λ numbers. length numbers.items ≡ count) }
{
    Ok(Vec::from_elem(alloc, 0, count)?)
}

/// So many lines, to be overwritten.
fn blank_lines(alloc: Global, count: usize) -> Result<Vec<Line>, NoMemory>
    ensures { IfOk result (λ lines. length lines.items ≡ count) }
{
    let line = Line::Upper {
        unknown: 0,
        times: 1,
    };
    Ok(Vec::from_elem(alloc, line, count)?)
}

impl ElimRoom {
    /// Room for areas of this many unknowns, at most 2,000. For n unknowns it has a place for each of 2,256 + 2n kept rows of
    /// 257 + 3n numbers: one block of 8 · (2,256 + 2n) · (257 + 3n) bytes, which is 5.8 million at 20 unknowns and 313 million at
    /// 2,000, and one of 8 · (2,256 + 2n). No byte of these is written before a row is kept, and each elimination begins at their
    /// start again. The rest takes and writes some 48 · (257 + 3n) bytes.
    pub fn open(alloc: Global, unknowns: u32) -> Result<ElimRoom, NoMemory>
        requires { unknowns ≤ 2000 }
        ensures { IfOk result (λ room. room.unknowns ≡ unknowns) }
    {
        let unknowns = unknowns as usize;
        let sources = 256 + (unknowns + unknowns);
        let columns = unknowns + 1 + sources;
        Ok(ElimRoom {
            kept: Kept::open(alloc, unknowns, sources + 2_000)?,
            point: zeros(alloc, unknowns + 1)?,
            sum: wide_zeros(alloc, columns)?,
            row: zeros(alloc, columns)?,
            lines: blank_lines(alloc, sources)?,
            used: 0,
        })
    }

    /// After Sum: the lines that contradict, each with its multiplier.
    pub fn lines(&self) -> &[Line]
        ensures { result.now ≡ self.now.lines }
    {
        &self.lines.as_slice()[..self.used]
    }

    /// After RationalPoint: the numerator of an unknown.
    pub fn numerator(&self, unknown: u32) -> i128
        requires { unknown < self.now.unknowns }
        ensures { result ≡ numerators_of self.now.point unknown }
    {
        i128::from(self.point[unknown as usize + 1])
    }

    /// After RationalPoint: the denominator of all unknowns.
    pub fn denominator(&self) -> i128
        ensures { result ≡ denominator_of self.now.point }
    {
        i128::from(self.point[0])
    }

    /// Eliminates, and lends the lines of the row that contradicts, if one does.
    pub(crate) fn run(&mut self, formula: &Formula, part: &Part, lines: &[Line]) -> Eliminated
        requires over { IsOver (length part.now.spans) formula.now }
        requires room { self.old.unknowns ≡ length part.now.spans }
        requires lines { AreLiterals formula.now part.now lines.now }
        ensures unknowns { self.new.unknowns ≡ self.old.unknowns }
        ensures tells { Tells formula.now part.now lines.now self.new result }
    {
        let found = find(
            formula,
            part,
            lines,
            &mut self.kept,
            self.point.as_mut_slice(),
            self.sum.as_mut_slice(),
            self.row.as_mut_slice(),
        );
        self.used = lend_after(
            found,
            self.row.as_slice(),
            self.kept.unknowns(),
            lines,
            self.lines.as_mut_slice(),
        );
        found
    }
}
