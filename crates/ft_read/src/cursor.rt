ghost use Rattle.std.specs.Prelude.{◌≡◌, ◌<◌, ◌+◌, ◌^◌, ◌∷◌, suc, List, ℕ, [], length, IfOk, IfSome, MatchOption};
ghost use Rattle.std.specs.List.{All};
ghost use Rattle.ft_lex.specs.meaning.Tokens.{LiesIn};
ghost use Rattle.ft_read.specs.parsers.Cursor.{ReadsFirst, advanced, head, passes_of, read_first};
ghost use Rattle.ft_read.specs.meaning.Limit.{no_pass, lexical_passes, opening};
ghost use Rattle.ft_read.specs.meaning.Lexeme.{as_end, as_name, as_number, as_sign, as_word, lexemes_of};
ghost use Rattle.ft_read.specs.parsers.Combinators.{Gives, begins, can, read_token, state};

use crate::lexeme::Lexeme;
use crate::limits::Limits;
use crate::parts::Site;
use crate::stop::Stop;
use ft_base::{NoMemory, Place};
use ft_lex::Token;
use ft_tree::{Number, Word};
use std::alloc::Global;
use std::marker::Model;

/// A place in the tokens of a text: those that are left, and how many stand before them.
#[derive(Drop)]
pub struct Cursor<'t> {
    text: &'t [u8],
    rest: &'t [Token],
    at: usize,
}

impl<'t> Model for Cursor<'t> {
    ghost use Rattle.std.specs.Prelude.{◌<◌, ◌+◌, ◌^◌, length};
    ghost use Rattle.std.specs.List.{All};
    ghost use Rattle.ft_lex.specs.meaning.Tokens.{LiesIn};
    ghost use Rattle.ft_read.specs.meaning.Lexeme.{lexemes_of};
    ghost use Rattle.ft_read.specs.parsers.Combinators.{ParserState, state};

    ghost Value = { ParserState };

    ghost view = { λ cursor. state cursor.at (lexemes_of cursor.text.now cursor.rest.now) };

    ghost invariant = { λ cursor.
        All (LiesIn cursor.text.now) cursor.rest.now × (cursor.at + length cursor.rest.now < 2 ^ 64) };
}

/// The first token, and those after it.
fn next(tokens: &[Token]) -> Option<(Token, &[Token])>
    ensures parts { MatchOption result (tokens.now ≡ []) (λ found. tokens.now ≡ found.0 ∷ found.1.now) }
    ensures rest_lies { IfSome result
        (λ found. (text : List ℕ) → All (LiesIn text) tokens.now → All (LiesIn text) found.1.now) }
    ensures first_lies { IfSome result (λ found. (text : List ℕ) → All (LiesIn text) tokens.now → LiesIn text found.0) }
{
    let (token, rest) = tokens.split_first()?;
    Some((*token, rest))
}

impl<'t> Cursor<'t> {
    /// Before the first token of a text, whose tokens these are.
    pub fn new(text: &'t [u8], tokens: &'t [Token]) -> Cursor<'t>
        requires { All (LiesIn text.now) tokens.now }
        ensures { result ≡ state 0 (lexemes_of text.now tokens.now) }
    {
        Cursor {
            text,
            rest: tokens,
            at: 0,
        }
    }

    /// How many tokens stand before the next one.
    pub fn at(&self) -> usize
        ensures { result ≡ self.now.at }
    {
        self.at
    }

    /// The next token.
    pub fn first(&self) -> Option<Lexeme<'t>>
        ensures { result ≡ head self.now.rest }
    {
        match next(self.rest) {
            Some((token, _)) => Some(Lexeme {
                kind: token.kind,
                bytes: token.text(self.text),
                place: token.place,
            }),
            None => None,
        }
    }

    /// Goes past the next token.
    fn advance(&mut self)
        ensures { self.new ≡ advanced self.old }
    {
        if let Some((_, rest)) = next(self.rest) {
            self.rest = rest;
            self.at += 1;
        }
    }

    /// Goes past the next token, which was read so, unless it passes a limit.
    #[tactic(auto, using(crate::proofs::CursorLemmas::accepts))]
    pub fn accept<A: Drop>(&mut self, read: Option<A>, limits: Limits) -> Result<A, Stop>
        ensures { Gives (λ a. a) result self.new (read_token (λ _. read) (passes_of limits) self.old) }
    {
        let lexeme = self.first().ok_or(Stop::Syntax)?;
        let value = read.ok_or(Stop::Syntax)?;
        if let Some(pass) = limits.pass(self.at, &lexeme) {
            return Err(Stop::Limit(pass));
        }
        self.advance();
        Ok(value)
    }

    /// The place of the next token, where it is this reserved word.
    fn first_word(&self, word: &[u8]) -> Option<Place>
        ensures { result ≡ read_first (as_word word.now) self.now.rest }
    {
        self.first()?.word(word)
    }

    /// Goes past a reserved word.
    #[tactic(auto, using(crate::proofs::CursorLemmas::reads))]
    pub fn word(&mut self, word: &[u8], limits: Limits) -> Result<Place, Stop>
        ensures { Gives (λ place. place) result self.new (read_token (as_word word.now) (passes_of limits) self.old) }
    {
        let read = self.first_word(word);
        self.accept(read, limits)
    }

    /// Whether a reserved word is next.
    #[tactic(auto, using(crate::proofs::CursorLemmas::tests))]
    pub fn is_word(&self, word: &[u8]) -> bool
        ensures { result ≡ begins (can (as_word word.now)) self.now.rest }
    {
        self.first_word(word).is_some()
    }

    /// The place of the next token, where it is this sign.
    fn first_sign(&self, sign: &[u8]) -> Option<Place>
        ensures { result ≡ read_first (as_sign sign.now) self.now.rest }
    {
        self.first()?.sign(sign)
    }

    /// Goes past a sign.
    #[tactic(auto, using(crate::proofs::CursorLemmas::reads))]
    pub fn sign(&mut self, sign: &[u8], limits: Limits) -> Result<Place, Stop>
        ensures { Gives (λ place. place) result self.new (read_token (as_sign sign.now) (passes_of limits) self.old) }
    {
        let read = self.first_sign(sign);
        self.accept(read, limits)
    }

    /// Whether a sign is next.
    #[tactic(auto, using(crate::proofs::CursorLemmas::tests))]
    pub fn is_sign(&self, sign: &[u8]) -> bool
        ensures { result ≡ begins (can (as_sign sign.now)) self.now.rest }
    {
        self.first_sign(sign).is_some()
    }

    /// The next token, where it is a name.
    fn first_name(&self, alloc: Global) -> Result<Option<Word>, NoMemory>
        ensures { IfOk result (λ read. read ≡ read_first as_name self.now.rest) }
    {
        match self.first() {
            Some(lexeme) => lexeme.name(alloc),
            None => Ok(None),
        }
    }

    /// Goes past a name, and gives it.
    #[tactic(auto, using(crate::proofs::CursorLemmas::reads))]
    pub fn name(&mut self, alloc: Global, limits: Limits) -> Result<Word, Stop>
        ensures { Gives (λ word. word) result self.new (read_token as_name (passes_of limits) self.old) }
    {
        let read = self.first_name(alloc)?;
        self.accept(read, limits)
    }

    /// Whether a name is next.
    pub fn is_name(&self) -> bool
        ensures { result ≡ begins (can as_name) self.now.rest }
    {
        match self.first() {
            Some(lexeme) => lexeme.is_name(),
            None => false,
        }
    }

    /// The next token, where it is a number. One that is too great is told as such.
    fn first_number(&self) -> Option<Number>
        ensures { ReadsFirst as_number self.now.rest result }
    {
        self.first()?.number()
    }

    /// Goes past a number of at most 1,000,000,000, and gives it.
    #[tactic(auto, using(crate::proofs::CursorLemmas::numbers))]
    pub fn number(&mut self) -> Result<Number, Stop>
        ensures { Gives (λ number. number) result self.new (read_token as_number lexical_passes self.old) }
    {
        let read = self.first_number();
        self.accept(read, Limits::Lexical)
    }

    /// The next token's place, where it is the text's end.
    fn first_end(&self) -> Option<Place>
        ensures { result ≡ read_first as_end self.now.rest }
    {
        self.first()?.end()
    }

    /// Goes past the text's end.
    #[tactic(auto, using(crate::proofs::CursorLemmas::reads))]
    pub fn end(&mut self) -> Result<Place, Stop>
        ensures { Gives (λ place. place) result self.new (read_token as_end no_pass self.old) }
    {
        let read = self.first_end();
        self.accept(read, Limits::Free)
    }

    /// Goes past a reserved word after which no more than the room may open, and gives the room that is left.
    #[tactic(auto, using(crate::proofs::CursorLemmas::opens))]
    pub fn open_word(&mut self, word: &[u8], site: Site, room: u32) -> Result<(Place, u32), Stop>
        ensures read { Gives (λ opened. opened.0) result self.new (read_token (as_word word.now) (opening site room) self.old) }
        ensures left { IfOk result (λ opened. room ≡ suc opened.1) }
    {
        let place = self.word(word, Limits::Opening { site, room })?;
        Ok((place, room - 1))
    }

    /// Goes past a sign after which no more than the room may open, and gives the room that is left.
    #[tactic(auto, using(crate::proofs::CursorLemmas::opens))]
    pub fn open_sign(&mut self, sign: &[u8], site: Site, room: u32) -> Result<(Place, u32), Stop>
        ensures read { Gives (λ opened. opened.0) result self.new (read_token (as_sign sign.now) (opening site room) self.old) }
        ensures left { IfOk result (λ opened. room ≡ suc opened.1) }
    {
        let place = self.sign(sign, Limits::Opening { site, room })?;
        Ok((place, room - 1))
    }
}
