// Whole numbers of rows: divisors, products, and fractions compared without a product that is too wide.

ghost use Rattle.std.specs.Prelude.{◌≡◌, ◌≤◌, ◌<◌, ◌+◌, ◌*◌, ◌/◌, ◌+ℤ◌, ◌*ℤ◌, ◌≤ℤ◌, ◌<ℤ◌, ◌↔◌, IsTrue, pos, ℕ, ℤ, unsigned_abs};
ghost use Rattle.std.specs.Int.{IsGcd, int_div_euclid, int_rem_euclid};
ghost use Prim.Native.Nat.{◌∣◌};
ghost use Rattle.ft_farkas.specs.meaning.Kept.{Cancels, IsNarrow};

/// A number of a row, so many times.
pub fn product(times: u64, number: i64) -> i128
    requires times { times ≤ 4611686018427387904 }
    requires number { IsNarrow number }
    ensures value { result ≡ pos times *ℤ number }
    ensures small { unsigned_abs result ≤ 21267647932558653966460912964485513216 }
{
    i128::from(times) * i128::from(number)
}

fn plus(first: i128, second: i128) -> i128
    requires first { unsigned_abs first ≤ 21267647932558653966460912964485513216 }
    requires second { unsigned_abs second ≤ 21267647932558653966460912964485513216 }
    ensures value { result ≡ first +ℤ second }
    ensures small { unsigned_abs result ≤ 42535295865117307932921825928971026432 }
{
    first + second
}

// One number of a sum of two rows, each times its multiplier.
pub fn blend(times_first: u64, first: i64, times_second: u64, second: i64) -> i128
    requires times_first { times_first ≤ 4611686018427387904 }
    requires first { IsNarrow first }
    requires times_second { times_second ≤ 4611686018427387904 }
    requires second { IsNarrow second }
    ensures value { result ≡ (pos times_first *ℤ first) +ℤ (pos times_second *ℤ second) }
    ensures small { unsigned_abs result ≤ 42535295865117307932921825928971026432 }
{
    plus(product(times_first, first), product(times_second, second))
}

pub fn gcd(first: u128, second: u128) -> u128
    ensures value { IsGcd first second result }
    ensures scaled { (e j : ℕ) → e ∣ j * first → e ∣ j * second → e ∣ j * result }
{
    let mut greater = first;
    let mut less = second;
    while less != 0 {
        let rest = greater % less;
        greater = less;
        less = rest;
    }
    greater
}

fn scaled(times: u64, number: i128) -> i128
    requires times { times ≤ 4611686018427387904 }
    requires number { (pos 0 ≤ℤ number) × (number ≤ℤ pos 4611686018427387904) }
    ensures { result ≡ pos times *ℤ number }
{
    i128::from(times) * number
}

fn is_below(first: i128, second: i128) -> bool
    ensures { IsTrue result ↔ (first <ℤ second) }
{
    first < second
}

fn is_same(first: i128, second: i128) -> bool
    ensures { IsTrue result ↔ (first ≡ second) }
{
    first == second
}

fn floor(number: i128, divisor: u64) -> i128
    requires small { unsigned_abs number ≤ 85070591730234615865843651857942052864 }
    requires positive { 0 < divisor }
    requires divisor { divisor ≤ 4611686018427387904 }
    ensures { result ≡ int_div_euclid number (pos divisor) }
{
    number.div_euclid(i128::from(divisor))
}

fn rest(number: i128, divisor: u64) -> i128
    requires small { unsigned_abs number ≤ 85070591730234615865843651857942052864 }
    requires positive { 0 < divisor }
    requires divisor { divisor ≤ 4611686018427387904 }
    ensures value { result ≡ int_rem_euclid number (pos divisor) }
    ensures within { (pos 0 ≤ℤ result) × (result <ℤ pos divisor) }
{
    number.rem_euclid(i128::from(divisor))
}

/// Whether one fraction is less than another. Their floors are compared first, since the products of whole
/// numerators may pass an i128.
pub fn is_less(first: i128, below_first: u64, second: i128, below_second: u64) -> bool
    requires first { unsigned_abs first ≤ 85070591730234615865843651857942052864 }
    requires second { unsigned_abs second ≤ 85070591730234615865843651857942052864 }
    requires positive_first { 0 < below_first }
    requires positive_second { 0 < below_second }
    requires below_first { below_first ≤ 4611686018427387904 }
    requires below_second { below_second ≤ 4611686018427387904 }
    ensures { IsTrue result ↔ ((pos below_second *ℤ first) <ℤ (pos below_first *ℤ second)) }
{
    let whole_first = floor(first, below_first);
    let whole_second = floor(second, below_second);
    if !is_same(whole_first, whole_second) {
        return is_below(whole_first, whole_second);
    }
    is_below(
        scaled(below_second, rest(first, below_first)),
        scaled(below_first, rest(second, below_second)),
    )
}

fn share(number: i64, divisor: u128) -> u64
    requires number { IsNarrow number }
    requires divisor { 0 < divisor }
    ensures value { result ≡ unsigned_abs number / divisor }
    ensures small { result ≤ 4611686018427387904 }
{
    (u128::from(number.unsigned_abs()) / divisor) as u64
}

fn size(number: i64) -> u128
    ensures { result ≡ unsigned_abs number }
{
    u128::from(number.unsigned_abs())
}

/// The least positive multipliers with which a positive and a negative factor cancel.
pub fn multipliers(above: i64, below: i64) -> (u64, u64)
    requires above_narrow { IsNarrow above }
    requires below_narrow { IsNarrow below }
    requires above { pos 0 <ℤ above }
    requires below { below <ℤ pos 0 }
    ensures cancels { Cancels above below result.0 result.1 }
    ensures first { result.0 ≤ 4611686018427387904 }
    ensures second { result.1 ≤ 4611686018427387904 }
{
    let divisor = gcd(size(above), size(below));
    (share(below, divisor), share(above, divisor))
}
