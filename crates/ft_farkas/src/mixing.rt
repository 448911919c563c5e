// Two rows of numbers, each times its multiplier, added column by column.

ghost use Rattle.std.specs.Prelude.{◌≡◌, ◌≤◌, ◌<◌, ◌+ℤ◌, ◌*ℤ◌, ◌<ℤ◌, ◌≢◌, IsTrue, false, pos, ℕ, length, unsigned_abs, All};
ghost use Rattle.ft_farkas.specs.meaning.Rows.{Row, row_of, factor};
ghost use Rattle.ft_farkas.specs.meaning.Kept.{Cancels, Combines, IsNarrow};

use crate::dividing::{divide, divisor_of};
use crate::numbers::blend;

/// The greatest number of a row, either way: 2^62.
const NARROW: u64 = 4_611_686_018_427_387_904;

/// Adds the rows, each so many times.
pub fn mix(times_first: u64, first: &[i64], times_second: u64, second: &[i64], sum: &mut [i128])
    requires times_first { times_first ≤ 4611686018427387904 }
    requires times_second { times_second ≤ 4611686018427387904 }
    requires first { All IsNarrow first.now }
    requires second { All IsNarrow second.now }
    requires columns { length second.now ≡ length first.now }
    requires room { length sum.old ≡ length first.now }
    ensures columns { length sum.new ≡ length first.now }
    ensures value { (c : ℕ) → c < length first.now → row_of sum.new c ≡ (pos times_first *ℤ row_of first.now c) +ℤ (pos times_second *ℤ row_of second.now c) }
    ensures small { (c : ℕ) → c < length first.now → unsigned_abs (row_of sum.new c) ≤ 42535295865117307932921825928971026432 }
{
    'columns: for column in 0..first.len() {
        sum[column] = blend(times_first, first[column], times_second, second[column]);
    }
}

/// Makes the row that cancels an unknown in two rows. False where it has a number above 2^62 either way.
pub fn combine(
    unknown: usize,
    times_first: u64,
    first: &[i64],
    times_second: u64,
    second: &[i64],
    sum: &mut [i128],
    row: &mut [i64],
) -> bool
    requires times_first { times_first ≤ 4611686018427387904 }
    requires times_second { times_second ≤ 4611686018427387904 }
    requires first { All IsNarrow first.now }
    requires second { All IsNarrow second.now }
    requires columns { length second.now ≡ length first.now }
    requires sums { length sum.old ≡ length first.now }
    requires room { length row.old ≡ length first.now }
    requires above { pos 0 <ℤ factor unknown (row_of first.now) }
    requires below { factor unknown (row_of second.now) <ℤ pos 0 }
    requires cancels { Cancels (factor unknown (row_of first.now)) (factor unknown (row_of second.now)) times_first times_second }
    requires some { (c : ℕ) × (c < length first.now) × (((pos times_first *ℤ row_of first.now c) +ℤ (pos times_second *ℤ row_of second.now c)) ≢ pos 0) }
    ensures narrow { IsTrue result → Combines (length first.now) unknown (row_of first.now) (row_of second.now) (row_of row.new) }
    ensures numbers { IsTrue result → (c : ℕ) → c < length first.now → IsNarrow (row_of row.new c) }
    ensures room { length row.new ≡ length first.now }
    ensures wide { result ≡ false → (t : Row) × Combines (length first.now) unknown (row_of first.now) (row_of second.now) t × ((c : ℕ) × (c < length first.now) × (IsNarrow (t c) → ⊥)) }
{
    mix(times_first, first, times_second, second, sum);
    let divisor = divisor_of(sum, first.len());
    divide(sum, first.len(), divisor, NARROW, row)
}
