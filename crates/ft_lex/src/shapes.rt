ghost use Rattle.std.specs.Prelude.{◌≡◌, ◌≤◌, length};
ghost use Rattle.std.specs.List.{prefix_len};
ghost use Rattle.ft_base.specs.Digits.{is_digit};
ghost use Rattle.ft_base.specs.Names.{is_name_byte};
ghost use Rattle.ft_lex.specs.lexing.Lexing.{name_shape, shape_of, sign_shape};

use crate::token::TokenKind;
use crate::words::{is_reserved, longest_sign};

fn is_name_part(byte: u8) -> bool
    ensures { result ≡ is_name_byte byte }
{
    byte.is_ascii_alphabetic() || byte.is_ascii_digit() || byte == b'_'
}

// How many letters, digits and `_` the bytes begin with.
fn name_len(bytes: &[u8]) -> usize
    ensures length { result ≡ prefix_len is_name_byte bytes.now }
    ensures within { result ≤ length bytes.now }
{
    bytes.iter().take_while(|byte| is_name_part(**byte)).count()
}

// How many digits the bytes begin with.
fn number_len(bytes: &[u8]) -> usize
    ensures length { result ≡ prefix_len is_digit bytes.now }
    ensures within { result ≤ length bytes.now }
{
    bytes
        .iter()
        .take_while(|byte| byte.is_ascii_digit())
        .count()
}

fn name(bytes: &[u8], len: usize) -> (TokenKind, usize)
    requires { len ≤ length bytes.now }
    ensures { result ≡ name_shape bytes.now len }
{
    if is_reserved(&bytes[..len]) {
        (TokenKind::Word, len)
    } else {
        (TokenKind::Name, len)
    }
}

fn sign(len: usize) -> (TokenKind, usize)
    ensures { result ≡ sign_shape len }
{
    if len == 0 {
        (TokenKind::Bad, 1)
    } else {
        (TokenKind::Sign, len)
    }
}

/// The token that the bytes begin with, and its length.
pub fn shape(bytes: &[u8]) -> (TokenKind, usize)
    ensures { result ≡ shape_of bytes.now }
{
    let Some(first) = bytes.first() else {
        return (TokenKind::End, 0);
    };
    if first.is_ascii_alphabetic() {
        name(bytes, name_len(bytes))
    } else if first.is_ascii_digit() {
        (TokenKind::Number, number_len(bytes))
    } else {
        sign(longest_sign(bytes))
    }
}
