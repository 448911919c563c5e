//! Numbers at the front of a text.
ghost use Rattle.std.specs.Prelude.{◌≡◌, ◌≤◌, ◌<◌, ◌*◌, ◌+◌, ◌-◌, ◌^◌, ◌++◌, ◌∷◌, [], true, length, Some, IfOk, IfErr, IfSome, MatchOption};
ghost use Rattle.std.specs.Fmt.{decimal, signed_decimal};
ghost use Rattle.ft_base.specs.Digits.{is_digit};
ghost use Rattle.ft_certs.specs.meaning.Text.{IsShort};
ghost use Rattle.ft_certs.specs.building.Pieces.{NoDigit, Numbers, Signeds, is_one_of};
ghost use Rattle.ft_certs.specs.building.Stuck.{Stopped};

use crate::stop::Stop;
use crate::words::is_end;

/// The greatest of the numbers below 2^32.
pub(crate) const MOST_OF_32_BITS: u64 = 4_294_967_295;

// The greatest number of 18 digits.
const MOST_OF_18: u64 = 999_999_999_999_999_999;

// A number of one digit.
fn first_digit(byte: u8, least: u64) -> Option<u64>
    requires { least ≤ 1 }
    ensures { MatchOption result (is_digit byte ≡ true → byte - 48 < least) (λ n. (n ≡ byte - 48) × (least ≤ n) × (is_digit byte ≡ true)) }
{
    if !byte.is_ascii_digit() {
        return None;
    }
    let value = u64::from(byte - b'0');
    if value < least { None } else { Some(value) }
}

// A number with one more digit.
fn with_digit(value: u64, byte: u8, most: u64) -> Option<u64>
    requires digit { is_digit byte ≡ true }
    requires most { 9 ≤ most }
    ensures { MatchOption result (0 < value → most < value * 10 + (byte - 48)) (λ n. (n ≡ value * 10 + (byte - 48)) × (0 < value) × (n ≤ most)) }
{
    let digit = u64::from(byte - b'0');
    if value == 0 || value > (most - digit) / 10 {
        return None;
    }
    Some(value * 10 + digit)
}

/// A number from `least` to `most` with its end, and the bytes after that.
pub(crate) fn number<'t>(
    bytes: &'t [u8],
    least: u64,
    most: u64,
    ends: &[u8],
) -> Result<(u64, u8, &'t [u8]), Stop>
    requires least { least ≤ 1 }
    requires most { 9 ≤ most }
    requires ends { NoDigit ends.now }
    ensures read { IfOk result (λ r. (least ≤ r.0) × (r.0 ≤ most) × (is_one_of ends.now r.1 ≡ true) × (bytes.now ≡ decimal r.0 ++ r.1 ∷ r.2.now)) }
    ensures stopped { IfErr result (Stopped (Numbers least most ends.now) bytes.now) }
{
    let Some((first, more)) = bytes.split_first() else {
        return Err(Stop::Stuck(0));
    };
    let Some(mut value) = first_digit(*first, least) else {
        return Err(Stop::Stuck(bytes.len()));
    };
    let mut rest = more;
    'digits: while let Some((byte, more)) = rest.split_first() {
        if !byte.is_ascii_digit() {
            if !is_end(*byte, ends) {
                return Err(Stop::Stuck(rest.len()));
            }
            return Ok((value, *byte, more));
        }
        let Some(longer) = with_digit(value, *byte, most) else {
            return Err(Stop::Stuck(rest.len()));
        };
        value = longer;
        rest = more;
    }
    Err(Stop::Stuck(0))
}

// A number below 0, after its `-`.
fn negative<'t>(bytes: &'t [u8], ends: &[u8]) -> Result<(i64, u8, &'t [u8]), Stop>
    requires { NoDigit ends.now }
    ensures read { IfOk result (λ r. IsShort r.0 × (is_one_of ends.now r.1 ≡ true) × (45 ∷ bytes.now ≡ signed_decimal r.0 ++ r.1 ∷ r.2.now)) }
    ensures stopped { IfErr result (Stopped (Numbers 1 999999999999999999 ends.now) bytes.now) }
{
    let (value, end, rest) = number(bytes, 1, MOST_OF_18, ends)?;
    Ok((-(value as i64), end, rest))
}

// A number that isn't below 0.
fn natural<'t>(bytes: &'t [u8], ends: &[u8]) -> Result<(i64, u8, &'t [u8]), Stop>
    requires { NoDigit ends.now }
    ensures read { IfOk result (λ r. IsShort r.0 × (is_one_of ends.now r.1 ≡ true) × (bytes.now ≡ signed_decimal r.0 ++ r.1 ∷ r.2.now)) }
    ensures stopped { IfErr result (Stopped (Numbers 0 999999999999999999 ends.now) bytes.now) }
{
    let (value, end, rest) = number(bytes, 0, MOST_OF_18, ends)?;
    Ok((value as i64, end, rest))
}

/// A number of at most 18 digits with its end, and the bytes after that.
pub(crate) fn signed<'t>(bytes: &'t [u8], ends: &[u8]) -> Result<(i64, u8, &'t [u8]), Stop>
    requires { NoDigit ends.now }
    ensures read { IfOk result (λ r. IsShort r.0 × (is_one_of ends.now r.1 ≡ true) × (bytes.now ≡ signed_decimal r.0 ++ r.1 ∷ r.2.now)) }
    ensures stopped { IfErr result (Stopped (Signeds ends.now) bytes.now) }
{
    let Some((first, digits)) = bytes.split_first() else {
        return Err(Stop::Stuck(0));
    };
    if *first == b'-' {
        negative(digits, ends)
    } else {
        natural(bytes, ends)
    }
}
