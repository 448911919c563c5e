//! The number of a generated set, by the word that spells it.
ghost use Rattle.std.specs.Prelude.{◌≡◌, ◌&&◌, min};
ghost use Rattle.std.specs.List.{list_all};
ghost use Rattle.ft_base.specs.Digits.{decimal_value, is_digit};
ghost use Rattle.ft_cli.specs.Top.{is_set_number, is_short_number, set_number};

/// The number of the largest generated set.
const LARGEST: u32 = 60;

/// The value of decimal digits, and 61 where it is greater than 60.
fn value_of(digits: &[u8]) -> u32
    ensures { result ≡ min (decimal_value digits.now) 61 }
{
    let mut value: u32 = 0;
    for digit in digits {
        value = (value * 10 + u32::from(digit.saturating_sub(b'0'))).min(LARGEST + 1);
    }
    value
}

fn is_digit(byte: u8) -> bool
    ensures { result ≡ is_digit byte }
{
    byte.is_ascii_digit()
}

fn are_digits(word: &[u8]) -> bool
    ensures { result ≡ list_all is_digit word.now }
{
    word.iter().all(|byte| is_digit(*byte))
}

/// Whether a word is four digits or fewer.
fn is_short_number(word: &[u8]) -> bool
    ensures { result ≡ is_short_number word.now }
{
    word.len() <= 4 && are_digits(word)
}

/// Whether there is a generated set of this number.
fn is_set_number(number: u32) -> bool
    ensures { result ≡ is_set_number number }
{
    1 <= number && number <= LARGEST
}

/// Whether a word is a number, and there is a generated set of its value.
fn is_named(word: &[u8], number: u32) -> bool
    ensures { result ≡ (is_short_number word.now && is_set_number number) }
{
    is_short_number(word) && is_set_number(number)
}

/// The number of a generated set that a word spells.
pub(crate) fn set_number(word: &[u8]) -> Option<u32>
    ensures { result ≡ set_number word.now }
{
    let number = value_of(word);
    if is_named(word, number) {
        Some(number)
    } else {
        None
    }
}
