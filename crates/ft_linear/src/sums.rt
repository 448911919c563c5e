// Sums of factors at points and over areas. Each factor times a value is at most 1.6e31 either way, so a form of
// 10,000 factors is far inside an i128.

ghost use Rattle.std.specs.Prelude.{◌≡◌, ◌≤◌, ◌<◌, ◌+◌, ◌*◌, ◌+ℤ◌, ◌*ℤ◌, length, unsigned_abs, All};
ghost use Rattle.ft_linear.specs.summing.Sizes.{product_most, sum_most};
ghost use Rattle.ft_linear.specs.meaning.Form.{IsSmall, AreRising, HasUnknowns, values_at, sum_at, most, least, high_end, low_end};

use ft_base::Span;

/// A factor times a value.
fn product(factor: i64, value: i64) -> i128
    requires factor { IsSmall factor }
    requires value { IsSmall value }
    ensures value { result ≡ factor *ℤ value }
    ensures small { unsigned_abs result ≤ product_most }
{
    i128::from(factor) * i128::from(value)
}

/// One more product, after so many.
fn plus(total: i128, term: i128, count: usize) -> i128
    requires total { unsigned_abs total ≤ product_most * count }
    requires term { unsigned_abs term ≤ product_most }
    requires count { count < 10000 }
    ensures sum { result ≡ total +ℤ term }
    ensures small { unsigned_abs result ≤ product_most * (count + 1) }
{
    total + term
}

/// A form's value, by the sum of its factors and its constant.
pub fn whole(sum: i128, constant: i64) -> i128
    requires sum { unsigned_abs sum ≤ sum_most }
    requires constant { IsSmall constant }
    ensures { result ≡ sum +ℤ constant }
{
    sum + i128::from(constant)
}

/// The factor times the end of the span that makes it greatest.
fn highest(factor: i64, span: Span) -> i128
    requires { IsSmall factor }
    ensures value { result ≡ high_end factor span }
    ensures small { unsigned_abs result ≤ product_most }
{
    if factor < 0 {
        product(factor, span.lo())
    } else {
        product(factor, span.hi())
    }
}

/// The factor times the end of the span that makes it least.
pub fn lowest(factor: i64, span: Span) -> i128
    requires { IsSmall factor }
    ensures value { result ≡ low_end factor span }
    ensures small { unsigned_abs result ≤ product_most }
{
    if factor < 0 {
        product(factor, span.hi())
    } else {
        product(factor, span.lo())
    }
}

/// The sum of factors at a point.
pub fn sum_of(factors: &[(u32, i64)], values: &[i64]) -> i128
    requires few { length factors.now ≤ 10000 }
    requires rising { AreRising 0 factors.now }
    requires over { HasUnknowns (length values.now) factors.now }
    requires small { All IsSmall values.now }
    ensures value { result ≡ sum_at (values_at values.now) factors.now }
    ensures small { unsigned_abs result ≤ sum_most }
{
    let mut total = 0;
    'factors: for (at, factor) in factors.iter().enumerate() {
        total = plus(total, product(factor.1, values[factor.0 as usize]), at);
    }
    total
}

/// The greatest value of a sum of factors over an area.
pub fn most_of(factors: &[(u32, i64)], spans: &[Span]) -> i128
    requires few { length factors.now ≤ 10000 }
    requires rising { AreRising 0 factors.now }
    requires over { HasUnknowns (length spans.now) factors.now }
    ensures value { result ≡ most spans.now factors.now }
    ensures small { unsigned_abs result ≤ sum_most }
{
    let mut total = 0;
    'factors: for (at, factor) in factors.iter().enumerate() {
        total = plus(total, highest(factor.1, spans[factor.0 as usize]), at);
    }
    total
}

/// The least value of a sum of factors over an area.
pub fn least_of(factors: &[(u32, i64)], spans: &[Span]) -> i128
    requires few { length factors.now ≤ 10000 }
    requires rising { AreRising 0 factors.now }
    requires over { HasUnknowns (length spans.now) factors.now }
    ensures value { result ≡ least spans.now factors.now }
    ensures small { unsigned_abs result ≤ sum_most }
{
    let mut total = 0;
    'factors: for (at, factor) in factors.iter().enumerate() {
        total = plus(total, lowest(factor.1, spans[factor.0 as usize]), at);
    }
    total
}
