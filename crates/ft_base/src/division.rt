ghost use Rattle.std.specs.Prelude.{◌≡◌, ◌<ℤ◌, ℤ, pos};
ghost use Rattle.ft_base.specs.Division.{IsFloor, IsCeiling, floor_of};

/// `a` divided by `k`, rounded down: the one `q` with `k*q <= a <= k*q + k - 1`.
pub fn div_floor(a: i64, k: i64) -> i64
    requires { pos 0 <ℤ k }
    ensures floor { IsFloor a k result }
    ensures only { (q : ℤ) → IsFloor a k q → q ≡ result }
    ensures value { result ≡ floor_of a k }
{
    a.div_euclid(k)
}

/// `a` divided by `k`, rounded up: the one `q` with `k*q - k + 1 <= a <= k*q`.
pub fn ceil_div(a: i64, k: i64) -> i64
    requires { pos 0 <ℤ k }
    ensures { IsCeiling a k result }
{
    let quotient = a.div_euclid(k);
    if a.rem_euclid(k) == 0 {
        quotient
    } else {
        quotient + 1
    }
}
