// Fractions of the unknowns with one denominator: the point has the denominator in column 0 and the numerators after it, as
// a row has its constant and its factors.

ghost use Rattle.std.specs.Prelude.{◌≡◌, ◌≢◌, ◌≤◌, ◌<◌, ◌+◌, ◌*◌, ◌↔◌, ◌+ℤ◌, ◌*ℤ◌, ◌<ℤ◌, ◌≤ℤ◌, neg_ℤ, ℕ, pos, length, unsigned_abs, IsTrue, MatchOption, false};
ghost use Rattle.ft_farkas.specs.meaning.Rows.{Row, row_of, factor};
ghost use Rattle.ft_farkas.specs.meaning.Kept.{row_in, IsNarrow};
ghost use Rattle.ft_farkas.specs.meaning.Fractions.{BoundsAbove, BoundsBelow, IsBelow};
ghost use Rattle.ft_farkas.specs.building.Points.{dot, excess, IsNear, IsBound, IsExtended, AllUnder, NoneOver};
ghost use Rattle.ft_farkas.specs.building.Table.{IsRow};

use crate::dividing::{divide, divisor_of};
use crate::kept::Kept;
use crate::numbers::{is_less, product};

/// The greatest numerator and the greatest denominator, either way: 2^53.
const NEAR: u64 = 9_007_199_254_740_992;

/// A number of a row times a number of a point.
fn term(factor: i64, number: i64) -> i128
    requires factor { IsNarrow factor }
    requires number { IsNear number }
    ensures value { result ≡ factor *ℤ number }
    ensures small { unsigned_abs result ≤ 41538374868278621028243970633760768 }
{
    i128::from(factor) * i128::from(number)
}

/// One more product, after so many.
fn plus(total: i128, term: i128, count: usize) -> i128
    requires total { unsigned_abs total ≤ 41538374868278621028243970633760768 * count }
    requires term { unsigned_abs term ≤ 41538374868278621028243970633760768 }
    requires count { count < 2000 }
    ensures sum { result ≡ total +ℤ term }
    ensures small { unsigned_abs result ≤ 41538374868278621028243970633760768 * (count + 1) }
{
    total + term
}

/// The value of a row at a point by its constant and the factors in the first columns.
pub(crate) fn value_of(row: &[i64], point: &[i64], columns: usize) -> i128
    requires few { columns ≤ 2000 }
    requires row { columns ≤ length row.now }
    requires point { columns ≤ length point.now }
    requires narrow { (c : ℕ) → c < columns → IsNarrow (row_of row.now c) }
    requires near { (c : ℕ) → c < columns → IsNear (row_of point.now c) }
    ensures value { result ≡ dot columns (row_of row.now) (row_of point.now) }
    ensures small { unsigned_abs result ≤ 85070591730234615865843651857942052864 }
{
    let mut total = 0;
    'columns: for column in 0..columns {
        total = plus(total, term(row[column], point[column]), column);
    }
    total
}

/// A lower bound of an unknown: the number of its row, the row's value without the unknown, and minus the unknown's factor.
#[derive(Clone, Copy, Drop)]
pub(crate) struct Bound {
    pub(crate) row: usize,
    pub(crate) value: i128,
    pub(crate) times: u64,
}

/// Minus a value, where the factor isn't negative.
fn turned(factor: i64, value: i128) -> i128
    requires { unsigned_abs value ≤ 85070591730234615865843651857942052864 }
    ensures above { pos 0 <ℤ factor → result ≡ neg_ℤ value }
    ensures below { factor <ℤ pos 0 → result ≡ value }
    ensures small { unsigned_abs result ≤ 85070591730234615865843651857942052864 }
{
    if factor < 0 { value } else { -value }
}

/// Whether a row with this factor and this value without the unknown is above 0 where the unknown is at the bound.
fn is_above(bound: Bound, factor: i64, value: i128) -> bool
    requires bound { unsigned_abs bound.value ≤ 85070591730234615865843651857942052864 }
    requires value { unsigned_abs value ≤ 85070591730234615865843651857942052864 }
    requires times_some { 0 < bound.times }
    requires times { bound.times ≤ 4611686018427387904 }
    requires narrow { IsNarrow factor }
    requires some { 0 < unsigned_abs factor }
    ensures { IsTrue result ↔ (pos 0 <ℤ ((pos bound.times *ℤ value) +ℤ (factor *ℤ bound.value))) }
{
    is_less(
        turned(factor, bound.value),
        bound.times,
        value,
        factor.unsigned_abs(),
    )
}

/// Whether an unknown is the last one that is left in a row.
fn is_last(kept: &Kept, at: usize, unknown: usize) -> bool
    requires few { kept.now.unknowns ≤ 2000 }
    requires at { at < length kept.now.rows }
    requires unknown { unknown < kept.now.unknowns }
    ensures { IsTrue result ↔ (IsBelow kept.now.unknowns (unknown + 1) (row_in kept.now.rows at) × (factor unknown (row_in kept.now.rows at) ≢ pos 0)) }
{
    kept.top(at) == unknown + 1
}

/// Whether a row is a lower bound of an unknown.
fn is_lower(kept: &Kept, at: usize, unknown: usize) -> bool
    requires few { kept.now.unknowns ≤ 2000 }
    requires at { at < length kept.now.rows }
    requires unknown { unknown < kept.now.unknowns }
    ensures { IsTrue result ↔ BoundsBelow kept.now.unknowns unknown (row_in kept.now.rows at) }
{
    is_last(kept, at, unknown) && kept.row(at)[unknown + 1] < 0
}

/// Whether a row is an upper bound of an unknown.
fn is_upper(kept: &Kept, at: usize, unknown: usize) -> bool
    requires few { kept.now.unknowns ≤ 2000 }
    requires at { at < length kept.now.rows }
    requires unknown { unknown < kept.now.unknowns }
    ensures { IsTrue result ↔ BoundsAbove kept.now.unknowns unknown (row_in kept.now.rows at) }
{
    is_last(kept, at, unknown) && kept.row(at)[unknown + 1] > 0
}

/// The lower bound that a row is.
fn bound_of(kept: &Kept, at: usize, unknown: usize, point: &[i64]) -> Bound
    requires few { kept.now.unknowns ≤ 2000 }
    requires unknown { unknown < kept.now.unknowns }
    requires point { unknown < length point.now }
    requires near { (c : ℕ) → c ≤ unknown → IsNear (row_of point.now c) }
    requires at { at < length kept.now.rows }
    requires bound { BoundsBelow kept.now.unknowns unknown (row_in kept.now.rows at) }
    ensures row { result.row ≡ at }
    ensures bound { IsBound kept.now.unknowns unknown kept.now.rows (row_of point.now) result.row result.value result.times }
{
    let row = kept.row(at);
    Bound {
        row: at,
        value: value_of(row, point, unknown + 1),
        times: row[unknown + 1].unsigned_abs(),
    }
}

/// Whether a row that has this unknown is above 0 where the unknown is at the bound.
fn exceeds(kept: &Kept, at: usize, unknown: usize, point: &[i64], bound: Bound) -> bool
    requires few { kept.now.unknowns ≤ 2000 }
    requires unknown { unknown < kept.now.unknowns }
    requires point { unknown < length point.now }
    requires near { (c : ℕ) → c ≤ unknown → IsNear (row_of point.now c) }
    requires at { at < length kept.now.rows }
    requires some { 0 < unsigned_abs (factor unknown (row_in kept.now.rows at)) }
    requires bound { IsBound kept.now.unknowns unknown kept.now.rows (row_of point.now) bound.row bound.value bound.times }
    ensures { IsTrue result ↔ (pos 0 <ℤ excess unknown (row_in kept.now.rows at) (row_of point.now) bound.times bound.value) }
{
    let row = kept.row(at);
    is_above(bound, row[unknown + 1], value_of(row, point, unknown + 1))
}

/// The greater of a bound and that of a row, if it is one.
fn greater(kept: &Kept, at: usize, unknown: usize, point: &[i64], best: Bound) -> Bound
    requires few { kept.now.unknowns ≤ 2000 }
    requires unknown { unknown < kept.now.unknowns }
    requires point { unknown < length point.now }
    requires near { (c : ℕ) → c ≤ unknown → IsNear (row_of point.now c) }
    requires at { at < length kept.now.rows }
    requires best { IsBound kept.now.unknowns unknown kept.now.rows (row_of point.now) best.row best.value best.times }
    ensures bound { IsBound kept.now.unknowns unknown kept.now.rows (row_of point.now) result.row result.value result.times }
    ensures own { BoundsBelow kept.now.unknowns unknown (row_in kept.now.rows at) → excess unknown (row_in kept.now.rows at) (row_of point.now) result.times result.value ≤ℤ pos 0 }
    ensures best { excess unknown (row_in kept.now.rows best.row) (row_of point.now) result.times result.value ≤ℤ pos 0 }
{
    if is_lower(kept, at, unknown) && exceeds(kept, at, unknown, point, best) {
        bound_of(kept, at, unknown, point)
    } else {
        best
    }
}

/// The greatest lower bound of an unknown by all rows, from that of one of them on.
fn greatest_from(kept: &Kept, unknown: usize, point: &[i64], start: Bound) -> Bound
    requires few { kept.now.unknowns ≤ 2000 }
    requires unknown { unknown < kept.now.unknowns }
    requires point { unknown < length point.now }
    requires near { (c : ℕ) → c ≤ unknown → IsNear (row_of point.now c) }
    requires start { IsBound kept.now.unknowns unknown kept.now.rows (row_of point.now) start.row start.value start.times }
    ensures bound { IsBound kept.now.unknowns unknown kept.now.rows (row_of point.now) result.row result.value result.times }
    ensures greatest { AllUnder kept.now.unknowns unknown kept.now.rows (row_of point.now) (length kept.now.rows) result.value result.times }
{
    let mut best = start;
    'rows: for at in 0..kept.len() {
        best = greater(kept, at, unknown, point, best);
    }
    best
}

/// The greatest lower bound of an unknown by all rows, of which one is given.
pub(crate) fn greatest(kept: &Kept, unknown: usize, point: &[i64], start: usize) -> Bound
    requires few { kept.now.unknowns ≤ 2000 }
    requires unknown { unknown < kept.now.unknowns }
    requires point { unknown < length point.now }
    requires near { (c : ℕ) → c ≤ unknown → IsNear (row_of point.now c) }
    requires start { start < length kept.now.rows }
    requires bound { BoundsBelow kept.now.unknowns unknown (row_in kept.now.rows start) }
    ensures bound { IsBound kept.now.unknowns unknown kept.now.rows (row_of point.now) result.row result.value result.times }
    ensures greatest { AllUnder kept.now.unknowns unknown kept.now.rows (row_of point.now) (length kept.now.rows) result.value result.times }
{
    greatest_from(kept, unknown, point, bound_of(kept, start, unknown, point))
}

/// Whether a row is an upper bound below the lower bound.
fn is_over(kept: &Kept, at: usize, unknown: usize, point: &[i64], lower: Bound) -> bool
    requires few { kept.now.unknowns ≤ 2000 }
    requires unknown { unknown < kept.now.unknowns }
    requires point { unknown < length point.now }
    requires near { (c : ℕ) → c ≤ unknown → IsNear (row_of point.now c) }
    requires at { at < length kept.now.rows }
    requires lower { IsBound kept.now.unknowns unknown kept.now.rows (row_of point.now) lower.row lower.value lower.times }
    ensures { IsTrue result ↔ (BoundsAbove kept.now.unknowns unknown (row_in kept.now.rows at) × (pos 0 <ℤ excess unknown (row_in kept.now.rows at) (row_of point.now) lower.times lower.value)) }
{
    is_upper(kept, at, unknown) && exceeds(kept, at, unknown, point, lower)
}

/// The first row that is an upper bound below the lower bound.
pub(crate) fn first_over(kept: &Kept, unknown: usize, point: &[i64], lower: Bound) -> Option<usize>
    requires few { kept.now.unknowns ≤ 2000 }
    requires unknown { unknown < kept.now.unknowns }
    requires point { unknown < length point.now }
    requires near { (c : ℕ) → c ≤ unknown → IsNear (row_of point.now c) }
    requires lower { IsBound kept.now.unknowns unknown kept.now.rows (row_of point.now) lower.row lower.value lower.times }
    ensures { MatchOption result (NoneOver kept.now.unknowns unknown kept.now.rows (row_of point.now) (length kept.now.rows) lower.value lower.times)
        (λ at. (at < length kept.now.rows) × BoundsAbove kept.now.unknowns unknown (row_in kept.now.rows at) × (pos 0 <ℤ excess unknown (row_in kept.now.rows at) (row_of point.now) lower.times lower.value)) }
{
    'rows: for at in 0..kept.len() {
        if is_over(kept, at, unknown, point, lower) {
            return Some(at);
        }
    }
    None
}

/// The numbers of a point, each so many times, and one more.
fn extend(point: &[i64], columns: usize, times: u64, value: i128, numbers: &mut [i128])
    requires point { columns ≤ length point.now }
    requires near { (c : ℕ) → c < columns → IsNear (row_of point.now c) }
    requires times { times ≤ 4611686018427387904 }
    requires value { unsigned_abs value ≤ 85070591730234615865843651857942052864 }
    requires room { columns < length numbers.old }
    ensures room { length numbers.new ≡ length numbers.old }
    ensures scaled { (c : ℕ) → c < columns → row_of numbers.new c ≡ pos times *ℤ row_of point.now c }
    ensures last { row_of numbers.new columns ≡ value }
{
    'columns: for column in 0..columns {
        numbers[column] = product(times, point[column]);
    }
    numbers[columns] = value;
}

/// Gives one unknown more the value of a bound, over the least common denominator. False where a numerator or the denominator
/// is then above 2^53.
pub(crate) fn give(point: &mut [i64], unknown: usize, bound: Bound, numbers: &mut [i128]) -> bool
    requires few { unknown < 2000 }
    requires point { unknown + 1 < length point.old }
    requires near { (c : ℕ) → c ≤ unknown → IsNear (row_of point.old c) }
    requires denominator { pos 0 <ℤ row_of point.old 0 }
    requires some { 0 < bound.times }
    requires times { bound.times ≤ 4611686018427387904 }
    requires value { unsigned_abs bound.value ≤ 85070591730234615865843651857942052864 }
    requires room { unknown + 1 < length numbers.old }
    ensures point { length point.new ≡ length point.old }
    ensures room { length numbers.new ≡ length numbers.old }
    ensures near { IsTrue result → (c : ℕ) → c ≤ unknown + 1 → IsNear (row_of point.new c) }
    ensures given { IsTrue result → IsExtended unknown bound.times bound.value (row_of point.old) (row_of point.new) }
    ensures far { result ≡ false → (y : Row) × IsExtended unknown bound.times bound.value (row_of point.old) y × ((c : ℕ) × (c ≤ unknown + 1) × (IsNear (y c) → ⊥)) }
{
    extend(point, unknown + 1, bound.times, bound.value, numbers);
    let divisor = divisor_of(numbers, unknown + 2);
    divide(numbers, unknown + 2, divisor, NEAR, point)
}
