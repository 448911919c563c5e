ghost use Rattle.std.specs.Prelude.{◌≡◌, IfOk};
ghost use Rattle.ft_tree.specs.declared.expr.Op.TheVariants as op;
ghost use Rattle.ft_read.specs.parsers.Cursor.{read_first};
ghost use Rattle.ft_read.specs.meaning.Operators.{as_relation, operator, two};
ghost use Rattle.ft_read.specs.meaning.Limit.{within};
ghost use Rattle.ft_read.specs.parsers.Combinators.{Gives, begins, can, read_token};
ghost use Rattle.ft_read.specs.parsers.Tokens.{ops_of};

use crate::cursor::Cursor;
use crate::lexeme::Lexeme;
use crate::limits::Limits;
use crate::parts::{Operator, Site};
use crate::stop::Stop;
use ft_base::{Boxed, NoMemory, Place};
use ft_tree::{Expr, Op};
use std::alloc::Global;

/// How loosely operators bind.
#[derive(Clone, Copy, Drop)]
pub enum Precedence {
    Disjunction,
    Conjunction,
    Comparison,
    Sum,
    Product,
}

/// An operator at a place, where there is one.
fn operator(op: Op, place: Option<Place>) -> Option<Operator>
    ensures { result ≡ operator op place }
{
    Some(Operator { op, place: place? })
}

/// The operator of a comparison that a token is.
fn relation(lexeme: &Lexeme) -> Option<Operator>
    ensures { result ≡ as_relation lexeme.now }
{
    let greater = operator(Op::Gt, lexeme.sign(b">")).or(operator(Op::Ge, lexeme.sign(b">=")));
    let less = operator(Op::Lt, lexeme.sign(b"<"));
    let unequal = less.or(operator(Op::Le, lexeme.sign(b"<=")).or(greater));
    operator(Op::Eq, lexeme.sign(b"=")).or(operator(Op::Ne, lexeme.sign(b"<>")).or(unequal))
}

/// The operator of this precedence that a token is.
fn operator_of(precedence: Precedence, lexeme: &Lexeme) -> Option<Operator>
    ensures { result ≡ ops_of precedence lexeme.now }
{
    match precedence {
        Precedence::Disjunction => operator(Op::Or, lexeme.word(b"or")),
        Precedence::Conjunction => operator(Op::And, lexeme.word(b"and")),
        Precedence::Comparison => relation(lexeme),
        Precedence::Sum => operator(Op::Add, lexeme.sign(b"+")).or(operator(
            Op::Sub,
            lexeme.sign(b"-"),
        )),
        Precedence::Product => operator(Op::Mul, lexeme.sign(b"*")).or(operator(
            Op::Div,
            lexeme.word(b"div"),
        )),
    }
}

/// The operator of this precedence that the next token is.
fn first_operator(precedence: Precedence, cursor: &Cursor) -> Option<Operator>
    ensures { result ≡ read_first (ops_of precedence) cursor.now.rest }
{
    operator_of(precedence, &cursor.first()?)
}

/// Goes past an operator of this precedence.
#[tactic(auto, using(crate::proofs::CursorLemmas::reads))]
pub fn read_operator(
    cursor: &mut Cursor,
    precedence: Precedence,
    site: Site,
) -> Result<Operator, Stop>
    ensures { Gives (λ operator. operator) result cursor.new (read_token (ops_of precedence) (within site) cursor.old) }
{
    let read = first_operator(precedence, cursor);
    cursor.accept(read, Limits::Within(site))
}

/// Whether an operator of this precedence is next.
#[tactic(auto, using(crate::proofs::CursorLemmas::tests))]
pub fn is_operator(cursor: &Cursor, precedence: Precedence) -> bool
    ensures { result ≡ begins (can (ops_of precedence)) cursor.now.rest }
{
    first_operator(precedence, cursor).is_some()
}

/// Two operands with an operator between them.
pub fn join(alloc: Global, operator: Operator, left: Expr, right: Expr) -> Result<Expr, NoMemory>
    ensures { IfOk result (λ joined. joined ≡ two operator left right) }
{
    let left = Boxed::new(alloc, left)?;
    let right = Boxed::new(alloc, right)?;
    Ok(Expr::Two {
        op: operator.op,
        left,
        right,
        place: operator.place,
    })
}
