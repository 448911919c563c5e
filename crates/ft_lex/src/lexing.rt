ghost use Rattle.std.specs.Prelude.{◌≡◌, ◌-◌, ◌^◌, ◌<◌, ◌≤◌, IfOk, List, length, take};
ghost use Rattle.std.specs.List.{All};
ghost use Rattle.ft_lex.specs.declared.token.Token.{Token};
ghost use Rattle.ft_lex.specs.meaning.Place.{place_after};
ghost use Rattle.ft_lex.specs.meaning.Tokens.{IsNext, IsTokens, LiesIn};

use crate::places::place_at;
use crate::shapes::shape;
use crate::space::space;
use crate::token::Token;
use ft_base::{List, NoMemory, Place};
use std::alloc::Global;

// The first token from a place on, whose line and column are known.
fn next_token(text: &[u8], from: usize, place: Place) -> Token
    requires short { length text.now < 2 ^ 32 - 1 }
    requires within { from ≤ length text.now }
    requires place { place ≡ place_after (take from text.now) }
    ensures { IsNext text.now from result }
{
    let start = from + space(&text[from..]);
    let (kind, len) = shape(&text[start..]);
    Token {
        kind,
        start,
        end: start + len,
        place: place_at(text, from, start, place),
    }
}

/// The tokens of a text, in order. The last is End, or Bad at the first byte that begins no token, and only the last is.
/// The text is shorter than 2^32 - 1 bytes, so that each line and column is a `u32`.
pub fn tokens(alloc: Global, text: &[u8]) -> Result<List<Token>, NoMemory>
    requires { length text.now < 2 ^ 32 - 1 }
    ensures tokens { IfOk result (IsTokens text.now) }
    ensures spans { IfOk result (All (LiesIn text.now)) }
    ensures only { IfOk result (λ list. (others : List Token) → IsTokens text.now others → others ≡ list) }
{
    let mut list = List::new(alloc);
    let mut from = 0;
    let mut place = Place { line: 1, column: 1 };
    loop {
        let token = next_token(text, from, place);
        list.push(token)?;
        if token.kind.is_last() {
            return Ok(list);
        }
        place = place_at(text, token.start, token.end, token.place);
        from = token.end;
    }
}
