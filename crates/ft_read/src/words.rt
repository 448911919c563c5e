ghost use Rattle.std.specs.Prelude.{◌≡◌};
ghost use Rattle.ft_read.specs.meaning.Lexeme.{as_name};
ghost use Rattle.ft_read.specs.meaning.Limit.{counted};
ghost use Rattle.ft_read.specs.parsers.Parts.{name_by, number_by, sign_by, word_by};
ghost use Rattle.ft_read.specs.parsers.Combinators.{Gives, read_token};

use crate::cursor::Cursor;
use crate::limits::Limits;
use crate::stop::{LimitWord, Stop};
use ft_base::Place;
use ft_tree::{Number, Word};
use std::alloc::Global;

/// Goes past a reserved word.
#[tactic(auto, unfolding(crate::specs::parsers::Parts::word_by))]
pub fn word(cursor: &mut Cursor, word: &[u8]) -> Result<Place, Stop>
    ensures { Gives (λ place. place) result cursor.new (word_by word.now cursor.old) }
{
    cursor.word(word, Limits::Free)
}

/// Goes past a sign.
#[tactic(auto, unfolding(crate::specs::parsers::Parts::sign_by))]
pub fn sign(cursor: &mut Cursor, sign: &[u8]) -> Result<Place, Stop>
    ensures { Gives (λ place. place) result cursor.new (sign_by sign.now cursor.old) }
{
    cursor.sign(sign, Limits::Free)
}

/// Goes past a number.
#[tactic(auto, unfolding(crate::specs::parsers::Parts::number_by))]
pub fn number(cursor: &mut Cursor) -> Result<Number, Stop>
    ensures { Gives (λ number. number) result cursor.new (number_by cursor.old) }
{
    cursor.number()
}

/// Goes past a name that is used.
#[tactic(auto, unfolding(crate::specs::parsers::Parts::name_by))]
pub fn name(alloc: Global, cursor: &mut Cursor) -> Result<Word, Stop>
    ensures { Gives (λ name. name) result cursor.new (name_by cursor.old) }
{
    cursor.name(alloc, Limits::Lexical)
}

/// Goes past a name, which is one too many where there is no room for it.
pub fn counted_name(
    alloc: Global,
    cursor: &mut Cursor,
    is_full: bool,
    which: LimitWord,
) -> Result<Word, Stop>
    ensures { Gives (λ name. name) result cursor.new (read_token as_name (counted is_full which) cursor.old) }
{
    cursor.name(alloc, Limits::Counted { is_full, which })
}
