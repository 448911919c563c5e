// The rows of lines and bounds.

ghost use Rattle.std.specs.Prelude.{◌≡◌, ◌≢◌, ◌≤◌, ◌<◌, ◌+◌, ◌*◌, ◌++◌, ◌∷◌, ◌↔◌, ◌<ℤ◌, [], ℕ, suc, neg_ℤ, ℤ, pos, true, false, List, length, slice_get, slice_index_or, Some, is_some, unsigned_abs, IsTrue, IfOk, All};
ghost use Rattle.ft_linear.specs.meaning.Form.{AreRising, HasUnknowns, IsSmall, span_at};
ghost use Rattle.ft_linear.specs.meaning.Formula.{IsOver};
ghost use Rattle.ft_linear.specs.meaning.Rules.{factor_of, line_form, literal_form};
ghost use Rattle.ft_farkas.specs.meaning.Answers.{AreLiterals};
ghost use Rattle.ft_farkas.specs.meaning.Rows.{row_of, constant, bounds, sources, source_row, line_entry, width};
ghost use Rattle.ft_farkas.specs.meaning.Kept.{row_in, IsNarrow, AreKept};
ghost use Rattle.ft_farkas.specs.meaning.Fractions.{IsBelow};
ghost use Rattle.ft_farkas.specs.building.Forms.{entry_of, turned_by, ShowsSum, NoneContradict};
ghost use Rattle.ft_farkas.specs.building.Table.{KeptView, IsRow};

use crate::kept::Kept;
use ft_linear::{Formula, Lin, Line, Part, form_laws, literal_constant, literal_factor};

/// The bound with this number: of each unknown the upper one, then the lower one.
fn bound_at(bound: usize) -> Line
    requires { bound < 4000 }
    ensures { (n : ℕ) → bound < n + n → slice_get (bounds n) bound ≡ Some result }
{
    let unknown = (bound / 2) as u32;
    if bound % 2 == 0 {
        Line::Upper { unknown, times: 1 }
    } else {
        Line::Lower { unknown, times: 1 }
    }
}

/// The line or bound with this number.
pub(crate) fn source_at(lines: &[Line], at: usize) -> Line
    requires { at < length lines.now + 4000 }
    ensures { (n : ℕ) → at < length lines.now + (n + n) → slice_get (lines.now ++ bounds n) at ≡ Some result }
{
    if at < lines.len() {
        lines[at]
    } else {
        bound_at(at - lines.len())
    }
}

/// Makes all numbers 0.
fn clear(row: &mut [i64])
    ensures columns { length row.new ≡ length row.old }
    ensures clear { (c : ℕ) → row_of row.new c ≡ pos 0 }
{
    'columns: for column in 0..row.len() {
        row[column] = 0;
    }
}

/// Puts a factor of a literal into a row.
fn write_factor(unknown: u32, factor: i64, value: bool, row: &mut [i64])
    requires room { unknown + 1 < length row.old }
    requires small { IsSmall factor }
    requires narrow { (c : ℕ) → IsNarrow (row_of row.old c) }
    ensures columns { length row.new ≡ length row.old }
    ensures own { row_of row.new (unknown + 1) ≡ turned_by value factor }
    ensures others { (c : ℕ) → c ≢ unknown + 1 → row_of row.new c ≡ row_of row.old c }
    ensures narrow { (c : ℕ) → IsNarrow (row_of row.new c) }
{
    row[unknown as usize + 1] = literal_factor(value, factor);
}

/// Puts the factors of a literal into a row of zeros.
fn write_factors(factors: &[(u32, i64)], value: bool, row: &mut [i64])
    requires over { All (λ f. f.0 + 1 < length row.old) factors.now }
    requires rising { AreRising 0 factors.now }
    requires clear { (c : ℕ) → row_of row.old c ≡ pos 0 }
    ensures columns { length row.new ≡ length row.old }
    ensures constant { row_of row.new 0 ≡ pos 0 }
    ensures factors { (u : ℕ) → row_of row.new (suc u) ≡ turned_by value (factor_of u factors.now) }
    ensures narrow { (c : ℕ) → IsNarrow (row_of row.new c) }
{
    form_laws();
    'factors: for factor in factors {
        write_factor(factor.0, factor.1, value, row);
    }
}

/// Puts the numbers of a literal's form into a row of zeros.
fn write_form(form: &Lin, value: bool, row: &mut [i64])
    requires over { All (λ f. f.0 + 1 < length row.old) form.now.factors }
    requires room { 0 < length row.old }
    requires clear { (c : ℕ) → row_of row.old c ≡ pos 0 }
    ensures columns { length row.new ≡ length row.old }
    ensures entries { (c : ℕ) → row_of row.new c ≡ entry_of (literal_form value form.now) c }
    ensures narrow { (c : ℕ) → IsNarrow (row_of row.new c) }
{
    write_factors(form.factors(), value, row);
    row[0] = literal_constant(value, form.constant());
}

/// Puts the numbers of a bound into a row of zeros.
fn write_bound(unknown: u32, factor: i64, constant: i64, row: &mut [i64])
    requires room { unknown + 1 < length row.old }
    requires factor { unsigned_abs factor ≤ 1 }
    requires constant { IsSmall constant }
    requires clear { (c : ℕ) → row_of row.old c ≡ pos 0 }
    ensures columns { length row.new ≡ length row.old }
    ensures entries { (c : ℕ) → row_of row.new c ≡ entry_of (record { factors = (unknown, factor) ∷ []; constant = constant }) c }
    ensures narrow { (c : ℕ) → IsNarrow (row_of row.new c) }
{
    row[0] = constant;
    row[unknown as usize + 1] = factor;
}

/// The greatest number of an unknown, with a minus.
fn minus_upper(part: &Part, unknown: usize) -> i64
    requires { unknown < length part.now.spans }
    ensures value { result ≡ neg_ℤ (span_at part.now.spans unknown).1 }
    ensures small { IsSmall result }
{
    -part.area().spans.as_slice()[unknown].hi()
}

/// The least number of an unknown.
fn lower(part: &Part, unknown: usize) -> i64
    requires { unknown < length part.now.spans }
    ensures value { result ≡ (span_at part.now.spans unknown).0 }
    ensures small { IsSmall result }
{
    part.area().spans.as_slice()[unknown].lo()
}

/// Puts the numbers of a line into a row of zeros.
fn write_line(formula: &Formula, part: &Part, line: Line, row: &mut [i64])
    requires over { IsOver (length part.now.spans) formula.now }
    requires form { is_some (line_form formula.now part.now line) ≡ true }
    requires room { length part.now.spans < length row.old }
    requires clear { (c : ℕ) → row_of row.old c ≡ pos 0 }
    ensures columns { length row.new ≡ length row.old }
    ensures entries { (c : ℕ) → row_of row.new c ≡ line_entry formula.now part.now c line }
    ensures narrow { (c : ℕ) → IsNarrow (row_of row.new c) }
{
    match line {
        Line::Atom { number, value, .. } => {
            write_form(&formula.atoms()[number as usize], value, row);
        }
        Line::Upper { unknown, .. } => {
            write_bound(unknown, 1, minus_upper(part, unknown as usize), row);
        }
        Line::Lower { unknown, .. } => {
            write_bound(unknown, -1, lower(part, unknown as usize), row);
        }
    }
}

/// Puts the row of a line in the place of another: its numbers, and the multiplier 1 of itself.
fn write_source(formula: &Formula, part: &Part, line: Line, at: usize, row: &mut [i64])
    requires few { length part.now.spans ≤ 2000 }
    requires over { IsOver (length part.now.spans) formula.now }
    requires form { is_some (line_form formula.now part.now line) ≡ true }
    requires at { at < 256 + (length part.now.spans + length part.now.spans) }
    requires room { length row.old ≡ width (length part.now.spans) }
    ensures row { IsRow (length part.now.spans) row.new }
    ensures entries { (lines : List Line) → slice_get (sources part.now lines) at ≡ Some line → (c : ℕ) → row_of row.new c ≡ source_row formula.now part.now lines at c }
{
    clear(row);
    write_line(formula, part, line, row);
    row[part.area().spans.len() + 1 + at] = 1;
}

/// Keeps the row of a line or bound, and says whether it contradicts.
fn keep_source(formula: &Formula, part: &Part, line: Line, kept: &mut Kept, row: &mut [i64]) -> bool
    requires few { length part.now.spans ≤ 2000 }
    requires over { IsOver (length part.now.spans) formula.now }
    requires form { is_some (line_form formula.now part.now line) ≡ true }
    requires unknowns { kept.old.unknowns ≡ length part.now.spans }
    requires at { length kept.old.rows < 256 + (length part.now.spans + length part.now.spans) }
    requires kept { length kept.old.rows < kept.old.room }
    requires room { length row.old ≡ width (length part.now.spans) }
    ensures row { IsRow (length part.now.spans) row.new }
    ensures entries { (lines : List Line) → slice_get (sources part.now lines) (length kept.old.rows) ≡ Some line → (c : ℕ) → row_of row.new c ≡ source_row formula.now part.now lines (length kept.old.rows) c }
    ensures kept { kept.new ≡ record { unknowns = kept.old.unknowns; room = kept.old.room; rows = kept.old.rows ++ row.new ∷ [] } }
    ensures contradicts { IsTrue result ↔ (IsBelow (length part.now.spans) 0 (row_of row.new) × (pos 0 <ℤ constant (row_of row.new))) }
{
    let at = kept.len();
    write_source(formula, part, line, at, row);
    kept.push(row);
    kept.contradicts(at)
}

/// Keeps the rows of all lines and bounds, up to one that contradicts.
pub(crate) fn keep_sources(
    formula: &Formula,
    part: &Part,
    lines: &[Line],
    kept: &mut Kept,
    row: &mut [i64],
) -> bool
    requires few { length part.now.spans ≤ 2000 }
    requires over { IsOver (length part.now.spans) formula.now }
    requires lines { AreLiterals formula.now part.now lines.now }
    requires unknowns { kept.old.unknowns ≡ length part.now.spans }
    requires empty { kept.old.rows ≡ [] }
    requires kept { length (sources part.now lines.now) ≤ kept.old.room }
    requires room { length row.old ≡ width (length part.now.spans) }
    ensures unknowns { kept.new.unknowns ≡ kept.old.unknowns }
    ensures kept { kept.new.room ≡ kept.old.room }
    ensures row { length row.new ≡ width (length part.now.spans) }
    ensures shows { IsTrue result → ShowsSum formula.now part.now lines.now (row_of row.new) }
    ensures count { result ≡ false → length kept.new.rows ≡ length (sources part.now lines.now) }
    ensures given { result ≡ false → AreKept formula.now part.now lines.now kept.new.rows }
    ensures none { result ≡ false → NoneContradict (length part.now.spans) kept.new.rows (length kept.new.rows) }
{
    let count = lines.len() + 2 * part.area().spans.len();
    'sources: for at in 0..count {
        if keep_source(formula, part, source_at(lines, at), kept, row) {
            return true;
        }
    }
    false
}
