// The greatest common divisor of a row of numbers, and the row divided by it.

ghost use Rattle.std.specs.Prelude.{◌≡◌, ◌≤◌, ◌<◌, ◌*◌, ◌*ℤ◌, pos, ℕ, length, unsigned_abs, IsTrue, MatchOption, false, neg_ℤ};
ghost use Prim.Native.Nat.{◌∣◌};
ghost use Rattle.ft_farkas.specs.meaning.Rows.{row_of};
ghost use Rattle.ft_farkas.specs.meaning.Kept.{IsNarrow};
ghost use Rattle.ft_farkas.specs.building.Quotients.{quotient_of, signed};

use crate::numbers::gcd;

fn size(number: i128) -> u128
    ensures { result ≡ unsigned_abs number }
{
    number.unsigned_abs()
}

/// The greatest number that divides the numbers of the first columns, 0 where all are 0.
pub fn divisor_of(numbers: &[i128], columns: usize) -> u128
    requires { columns ≤ length numbers.now }
    ensures divides { (c : ℕ) → c < columns → result ∣ unsigned_abs (row_of numbers.now c) }
    ensures greatest { (d : ℕ) → ((c : ℕ) → c < columns → d ∣ unsigned_abs (row_of numbers.now c)) → d ∣ result }
{
    let mut divisor = 0;
    'columns: for column in 0..columns {
        divisor = gcd(divisor, size(numbers[column]));
    }
    divisor
}

// A magnitude with a sign.
fn with_sign(magnitude: u128, below: bool) -> i128
    requires { magnitude ≤ 85070591730234615865843651857942052864 }
    ensures { result ≡ signed below magnitude }
{
    let number = magnitude as i128;
    if below { -number } else { number }
}

#[tactic(auto, using(crate::proofs::DividingLemmas::quotients))]
fn quotient(number: i128, divisor: u128) -> i128
    requires small { unsigned_abs number ≤ 85070591730234615865843651857942052864 }
    requires positive { 0 < divisor }
    ensures value { result ≡ quotient_of number divisor }
    ensures small { unsigned_abs result ≤ 85070591730234615865843651857942052864 }
{
    with_sign(number.unsigned_abs() / divisor, number < 0)
}

fn narrowed(number: i128, limit: u64) -> Option<i64>
    requires { limit ≤ 4611686018427387904 }
    ensures { MatchOption result (unsigned_abs number ≤ limit → ⊥) (λ narrow. (narrow ≡ number) × (unsigned_abs number ≤ limit)) }
{
    if number.unsigned_abs() <= u128::from(limit) {
        Some(number as i64)
    } else {
        None
    }
}

/// Divides the numbers of the first columns. False where a quotient is above the limit either way.
pub fn divide(
    numbers: &[i128],
    columns: usize,
    divisor: u128,
    limit: u64,
    quotients: &mut [i64],
) -> bool
    requires columns { columns ≤ length numbers.now }
    requires small { (c : ℕ) → c < columns → unsigned_abs (row_of numbers.now c) ≤ 85070591730234615865843651857942052864 }
    requires positive { 0 < divisor }
    requires limit { limit ≤ 4611686018427387904 }
    requires room { columns ≤ length quotients.old }
    ensures room { length quotients.new ≡ length quotients.old }
    ensures narrow { IsTrue result → (c : ℕ) → c < columns → (unsigned_abs (row_of quotients.new c) ≤ limit) × (row_of quotients.new c ≡ quotient_of (row_of numbers.now c) divisor) }
    ensures wide { result ≡ false → (c : ℕ) × (c < columns) × (unsigned_abs (quotient_of (row_of numbers.now c) divisor) ≤ limit → ⊥) }
{
    'columns: for column in 0..columns {
        match narrowed(quotient(numbers[column], divisor), limit) {
            Some(narrow) => quotients[column] = narrow,
            None => return false,
        }
    }
    true
}
