ghost use Rattle.std.specs.Prelude.{◌≡◌, ◌≤◌, min, IfOk};
ghost use Rattle.ft_read.specs.parsers.Cursor.{ReadsAs};
ghost use Rattle.ft_base.specs.Digits.{decimal_value};
ghost use Rattle.ft_read.specs.meaning.Lexeme.{as_end, as_name, as_number, as_sign, as_word};
ghost use Rattle.ft_read.specs.meaning.Limit.{lexical_pass};
ghost use Rattle.ft_read.specs.parsers.Combinators.{can};

use crate::stop::{LimitWord, Pass};
use ft_base::{List, NoMemory, Place};
use ft_lex::{Token, TokenKind};
use ft_tree::{Number, Word};
use std::alloc::Global;
use std::marker::Model;

/// What the grammar sees of a token: its kind, its bytes and its place.
#[derive(Drop)]
pub struct Lexeme<'t> {
    pub kind: TokenKind,
    pub bytes: &'t [u8],
    pub place: Place,
}

impl<'t> Model for Lexeme<'t> {
    ghost use Rattle.ft_read.specs.meaning.Lexeme.{Lexeme};

    ghost Value = { Lexeme };

    ghost view = { λ lexeme. record { kind = lexeme.kind; text = lexeme.bytes.now; place = lexeme.place } };
}

/// How many bytes a name has at most.
const LONGEST_NAME: usize = 40;

/// The greatest number of a set.
const GREATEST: u64 = 1_000_000_000;

/// The value of decimal digits, and 1,000,000,001 where it is greater than that.
fn value_of(digits: &[u8]) -> u64
    ensures { result ≡ min (decimal_value digits.now) 1000000001 }
{
    let mut value: u64 = 0;
    for digit in digits {
        if value > GREATEST {
            return GREATEST + 1;
        }
        value = value * 10 + u64::from(digit.saturating_sub(b'0'));
    }
    value.min(GREATEST + 1)
}

impl<'t> Lexeme<'t> {
    /// Its place, where it is this reserved word.
    pub fn word(&self, word: &[u8]) -> Option<Place>
        ensures { result ≡ as_word word.now self.now }
    {
        match self.kind {
            TokenKind::Word if self.bytes == word => Some(self.place),
            _ => None,
        }
    }

    /// Its place, where it is this sign.
    pub fn sign(&self, sign: &[u8]) -> Option<Place>
        ensures { result ≡ as_sign sign.now self.now }
    {
        match self.kind {
            TokenKind::Sign if self.bytes == sign => Some(self.place),
            _ => None,
        }
    }

    /// Its place, where it is the text's end.
    pub fn end(&self) -> Option<Place>
        ensures { result ≡ as_end self.now }
    {
        match self.kind {
            TokenKind::End => Some(self.place),
            _ => None,
        }
    }

    /// The name that it is.
    pub fn name(&self, alloc: Global) -> Result<Option<Word>, NoMemory>
        ensures { IfOk result (λ name. name ≡ as_name self.now) }
    {
        match self.kind {
            TokenKind::Name => {
                let text = List::copy_of(alloc, self.bytes)?;
                Ok(Some(Word {
                    text,
                    place: self.place,
                }))
            }
            _ => Ok(None),
        }
    }

    /// Whether it is a name.
    pub fn is_name(&self) -> bool
        ensures { result ≡ can as_name self.now }
    {
        self.kind == TokenKind::Name
    }

    /// The number that it is. A value greater than 1,000,000,000 is told as 1,000,000,001.
    pub fn number(&self) -> Option<Number>
        ensures { ReadsAs as_number self.now result }
    {
        match self.kind {
            TokenKind::Number => Some(Number {
                value: value_of(self.bytes),
                place: self.place,
            }),
            _ => None,
        }
    }

    /// The limit that it passes by itself: a name has at most 40 bytes, and a number is at most 1,000,000,000.
    pub fn lexical_pass(&self) -> Option<Pass>
        ensures { result ≡ lexical_pass self.now }
    {
        match self.kind {
            TokenKind::Name if self.bytes.len() > LONGEST_NAME => Some(Pass {
                which: LimitWord::Name,
                place: self.place,
            }),
            TokenKind::Number if value_of(self.bytes) > GREATEST => Some(Pass {
                which: LimitWord::Number,
                place: self.place,
            }),
            _ => None,
        }
    }
}
