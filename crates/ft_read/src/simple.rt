ghost use Rattle.std.specs.Prelude.{◌≡◌, true, false, codes, IfOk};
ghost use Rattle.ft_tree.specs.declared.expr.Expr.TheVariants as expr;
ghost use Rattle.ft_read.specs.parsers.Cursor.{ReadsAs, ReadsFirst};
ghost use Rattle.ft_read.specs.meaning.Operators.{as_simple};
ghost use Rattle.ft_read.specs.meaning.Limit.{within};
ghost use Rattle.ft_read.specs.parsers.Combinators.{Gives, begins, can, read_token};
ghost use Rattle.ft_read.specs.parsers.Tokens.{as_truth_of};

use crate::cursor::Cursor;
use crate::lexeme::Lexeme;
use crate::limits::Limits;
use crate::parts::Site;
use crate::stop::Stop;
use ft_base::NoMemory;
use ft_lex::TokenKind;
use ft_tree::Expr;
use std::alloc::Global;

/// The truth that a token is.
fn truth(lexeme: &Lexeme) -> Option<Expr>
    ensures { result ≡ as_truth_of lexeme.now }
{
    if let Some(place) = lexeme.word(b"true") {
        return Some(Expr::Truth { value: true, place });
    }
    let place = lexeme.word(b"false")?;
    Some(Expr::Truth {
        value: false,
        place,
    })
}

/// The expression that a token is by itself.
#[tactic(auto, using(crate::proofs::SimpleLemmas::simples))]
fn simple(alloc: Global, lexeme: &Lexeme) -> Result<Option<Expr>, NoMemory>
    ensures { IfOk result (ReadsAs as_simple lexeme.now) }
{
    if let Some(number) = lexeme.number() {
        return Ok(Some(Expr::Num {
            value: number.value,
            place: number.place,
        }));
    }
    if let Some(word) = lexeme.name(alloc)? {
        return Ok(Some(Expr::Name {
            name: word.text,
            place: word.place,
        }));
    }
    Ok(truth(lexeme))
}

/// What the next token is by itself.
fn first_simple(alloc: Global, cursor: &Cursor) -> Result<Option<Expr>, NoMemory>
    ensures { IfOk result (ReadsFirst as_simple cursor.now.rest) }
{
    match cursor.first() {
        Some(lexeme) => simple(alloc, &lexeme),
        None => Ok(None),
    }
}

/// Goes past a number, a name, `true` or `false`.
#[tactic(auto, using(crate::proofs::CursorLemmas::numbers))]
pub fn read_simple(alloc: Global, cursor: &mut Cursor, site: Site) -> Result<Expr, Stop>
    ensures { Gives (λ e. e) result cursor.new (read_token as_simple (within site) cursor.old) }
{
    let read = first_simple(alloc, cursor)?;
    cursor.accept(read, Limits::Within(site))
}

/// Whether a token is such.
fn is_simple_token(lexeme: &Lexeme) -> bool
    ensures { result ≡ can as_simple lexeme.now }
{
    match lexeme.kind {
        TokenKind::Name | TokenKind::Number => true,
        _ => truth(lexeme).is_some(),
    }
}

/// Whether a number, a name, `true` or `false` is next.
pub fn is_simple(cursor: &Cursor) -> bool
    ensures { result ≡ begins (can as_simple) cursor.now.rest }
{
    match cursor.first() {
        Some(lexeme) => is_simple_token(&lexeme),
        None => false,
    }
}
