ghost use Rattle.std.specs.Prelude.{◌≡◌, Some, None, Option};
ghost use Rattle.ft_read.specs.parsers.Cursor.{read_first};
ghost use Rattle.ft_read.specs.meaning.Choices.{as_map, as_moment, as_side, as_start, as_var_word};
ghost use Rattle.ft_read.specs.meaning.Limit.{no_pass};
ghost use Rattle.ft_read.specs.parsers.Combinators.{Gives, begins, can, read_token};

use crate::cursor::Cursor;
use crate::lexeme::Lexeme;
use crate::limits::Limits;
use crate::parts::SectionAt;
use crate::stop::Stop;
use ft_base::Place;
use ft_tree::{NatWord, SectionWord, VarWord};

/// What a word chooses, where it is there.
fn choice<A: Copy>(place: Option<Place>, chosen: A) -> Option<A>
    ensures { result ≡ elim place [ None ↦ None | Some p ↦ Some chosen ] }
{
    match place {
        Some(_) => Some(chosen),
        None => None,
    }
}

/// The section that a word chooses, where it is there.
fn section(place: Option<Place>, word: SectionWord) -> Option<SectionAt>
    ensures { result ≡ elim place [ None ↦ None | Some p ↦ Some (record { word = word; place = p }) ] }
{
    Some(SectionAt {
        word,
        place: place?,
    })
}

/// The words of a variable that a token is.
fn var_word(lexeme: &Lexeme) -> Option<VarWord>
    ensures { result ≡ as_var_word lexeme.now }
{
    let input = choice(lexeme.word(b"input"), VarWord::Input);
    let values = input.or(choice(lexeme.word(b"output"), VarWord::Output));
    let con = choice(lexeme.word(b"con"), VarWord::Con);
    choice(lexeme.word(b"mon"), VarWord::Mon).or(con.or(values))
}

/// The section of a map that a token is.
fn map(lexeme: &Lexeme) -> Option<SectionAt>
    ensures { result ≡ as_map lexeme.now }
{
    section(lexeme.word(b"in"), SectionWord::In).or(section(lexeme.word(b"out"), SectionWord::Out))
}

/// The section of a side that a token is.
fn side(lexeme: &Lexeme) -> Option<SectionAt>
    ensures { result ≡ as_side lexeme.now }
{
    section(lexeme.word(b"req"), SectionWord::Req).or(section(
        lexeme.word(b"sof"),
        SectionWord::Sof,
    ))
}

/// The truth that a token is.
fn start(lexeme: &Lexeme) -> Option<bool>
    ensures { result ≡ as_start lexeme.now }
{
    choice(lexeme.word(b"true"), true).or(choice(lexeme.word(b"false"), false))
}

/// When a clause on the environment holds, by the word that a token is.
fn moment(lexeme: &Lexeme) -> Option<NatWord>
    ensures { result ≡ as_moment lexeme.now }
{
    let always = choice(lexeme.word(b"always"), NatWord::Always);
    let later = always.or(choice(lexeme.word(b"step"), NatWord::Step));
    choice(lexeme.word(b"first"), NatWord::First).or(later)
}

/// The words of a variable that the next token is.
fn first_var_word(cursor: &Cursor) -> Option<VarWord>
    ensures { result ≡ read_first as_var_word cursor.now.rest }
{
    var_word(&cursor.first()?)
}

/// The section of a map that the next token is.
fn first_map(cursor: &Cursor) -> Option<SectionAt>
    ensures { result ≡ read_first as_map cursor.now.rest }
{
    map(&cursor.first()?)
}

/// The section of a side that the next token is.
fn first_side(cursor: &Cursor) -> Option<SectionAt>
    ensures { result ≡ read_first as_side cursor.now.rest }
{
    side(&cursor.first()?)
}

/// The truth that the next token is.
fn first_start(cursor: &Cursor) -> Option<bool>
    ensures { result ≡ read_first as_start cursor.now.rest }
{
    start(&cursor.first()?)
}

/// When a clause holds, by the next token.
fn first_moment(cursor: &Cursor) -> Option<NatWord>
    ensures { result ≡ read_first as_moment cursor.now.rest }
{
    moment(&cursor.first()?)
}

/// Whether a word of a variable is next.
#[tactic(auto, using(crate::proofs::CursorLemmas::tests))]
pub fn is_var_word(cursor: &Cursor) -> bool
    ensures { result ≡ begins (can as_var_word) cursor.now.rest }
{
    first_var_word(cursor).is_some()
}

/// Whether the section of a map is next.
#[tactic(auto, using(crate::proofs::CursorLemmas::tests))]
pub fn is_map(cursor: &Cursor) -> bool
    ensures { result ≡ begins (can as_map) cursor.now.rest }
{
    first_map(cursor).is_some()
}

/// Whether the section of a side is next.
#[tactic(auto, using(crate::proofs::CursorLemmas::tests))]
pub fn is_side(cursor: &Cursor) -> bool
    ensures { result ≡ begins (can as_side) cursor.now.rest }
{
    first_side(cursor).is_some()
}

/// Goes past a word of a variable.
#[tactic(auto, using(crate::proofs::CursorLemmas::reads))]
pub fn read_var_word(cursor: &mut Cursor) -> Result<VarWord, Stop>
    ensures { Gives (λ words. words) result cursor.new (read_token as_var_word no_pass cursor.old) }
{
    let read = first_var_word(cursor);
    cursor.accept(read, Limits::Free)
}

/// Goes past the section of a map.
#[tactic(auto, using(crate::proofs::CursorLemmas::reads))]
pub fn read_map(cursor: &mut Cursor) -> Result<SectionAt, Stop>
    ensures { Gives (λ section. section) result cursor.new (read_token as_map no_pass cursor.old) }
{
    let read = first_map(cursor);
    cursor.accept(read, Limits::Free)
}

/// Goes past the section of a side.
#[tactic(auto, using(crate::proofs::CursorLemmas::reads))]
pub fn read_side(cursor: &mut Cursor) -> Result<SectionAt, Stop>
    ensures { Gives (λ section. section) result cursor.new (read_token as_side no_pass cursor.old) }
{
    let read = first_side(cursor);
    cursor.accept(read, Limits::Free)
}

/// Goes past the truth of a band's start.
#[tactic(auto, using(crate::proofs::CursorLemmas::reads))]
pub fn read_start(cursor: &mut Cursor) -> Result<bool, Stop>
    ensures { Gives (λ start. start) result cursor.new (read_token as_start no_pass cursor.old) }
{
    let read = first_start(cursor);
    cursor.accept(read, Limits::Free)
}

/// Goes past the word that says when a clause on the environment holds.
#[tactic(auto, using(crate::proofs::CursorLemmas::reads))]
pub fn read_moment(cursor: &mut Cursor) -> Result<NatWord, Stop>
    ensures { Gives (λ moment. moment) result cursor.new (read_token as_moment no_pass cursor.old) }
{
    let read = first_moment(cursor);
    cursor.accept(read, Limits::Free)
}
