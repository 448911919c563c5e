ghost use Rattle.std.specs.Prelude.{◌≡◌, ℕ, List, codes, IfOk};
ghost use Rattle.ft_base.specs.declared.place.Place.{Place};
ghost use Rattle.ft_tree.specs.declared.expr.Expr.{Expr};
ghost use Rattle.ft_tree.specs.declared.expr.Expr.TheVariants as expr;
ghost use Rattle.ft_parse.specs.meaning.Expressions.{negated, signed, whole};
ghost use Rattle.ft_parse.specs.parsers.Precedence.{inner_by, precedence_by, operand_by};
ghost use Rattle.ft_read.specs.parsers.Tokens.{ops_of};
ghost use Rattle.ft_read.specs.meaning.Lexeme.{as_sign, as_word};
ghost use Rattle.ft_read.specs.parsers.Combinators.{Gives};
ghost use Rattle.ft_parse.specs.parsers.Expressions.{atom_by, comparison_by, expression_by, group_by, history_by, negation_by, prefixed_by};
ghost use Rattle.ft_parse.specs.parsers.Expressions.{right_by, unary_by};

use ft_base::{Boxed, NoMemory, Place, Text};
use ft_read::{
    Cursor, Limits, Precedence, Site, Stop, is_operator, is_simple, join, read_operator,
    read_simple,
};
use ft_tree::Expr;
use std::alloc::Global;

/// How many `(`, `not` and `-` before an operand may be open at once.
const MOST_OPEN: u32 = 64;

/// `not of`.
fn not(alloc: Global, of: Expr, place: Place) -> Result<Expr, NoMemory>
    ensures { IfOk result (λ made. made ≡ expr.Not of place) }
{
    let of = Boxed::new(alloc, of)?;
    Ok(Expr::Not { of, place })
}

/// `-of`.
fn minus(alloc: Global, of: Expr, place: Place) -> Result<Expr, NoMemory>
    ensures { IfOk result (λ made. made ≡ expr.Neg of place) }
{
    let of = Boxed::new(alloc, of)?;
    Ok(Expr::Neg { of, place })
}

/// `prev` or `age` with a name in parentheses. It gives the name and the place of the word.
#[tactic(auto, unfolding(crate::specs::parsers::Expressions::history_by))]
fn history(
    alloc: Global,
    cursor: &mut Cursor,
    word: &[u8],
    site: Site,
    room: u32,
) -> Result<(Text, Place), Stop>
    ensures { (make : List ℕ → Place → Expr)
        → Gives (λ read. make read.0 read.1) result cursor.new (history_by site room word.now make cursor.old) }
{
    let place = cursor.word(word, Limits::Within(site))?;
    cursor.open_sign(b"(", site, room)?;
    let name = cursor.name(alloc, Limits::Within(site))?;
    cursor.sign(b")", Limits::Within(site))?;
    Ok((name.text, place))
}

/// An expression in parentheses.
#[cycle(expression)]
#[tactic(auto, using(crate::proofs::PrecedenceLemmas::inner), unfolding(crate::specs::parsers::Expressions::group_by))]
fn group(alloc: Global, cursor: &mut Cursor, site: Site, room: u32) -> Result<Expr, Stop>
    ensures { Gives (λ e. e) result cursor.new (group_by site (inner_by room site) room cursor.old) }
{
    let (_, inside) = cursor.open_sign(b"(", site, room)?;
    let e = chain(alloc, cursor, Precedence::Disjunction, site, inside)?;
    cursor.sign(b")", Limits::Within(site))?;
    Ok(e)
}

/// A number, a name, a truth, a value of the past, or an expression in parentheses.
#[cycle(expression)]
#[tactic(auto, unfolding(crate::specs::parsers::Expressions::atom_by))]
fn atom(alloc: Global, cursor: &mut Cursor, site: Site, room: u32) -> Result<Expr, Stop>
    ensures { Gives (λ e. e) result cursor.new (atom_by site (inner_by room site) room cursor.old) }
{
    if is_simple(cursor) {
        return read_simple(alloc, cursor, site);
    }
    if cursor.is_word(b"prev") {
        let (name, place) = history(alloc, cursor, b"prev", site, room)?;
        return Ok(Expr::Prev { name, place });
    }
    if cursor.is_word(b"age") {
        let (name, place) = history(alloc, cursor, b"age", site, room)?;
        return Ok(Expr::Age { name, place });
    }
    group(alloc, cursor, site, room)
}

/// A `-` and its operand.
#[cycle(expression)]
#[tactic(auto, using(crate::proofs::PrecedenceLemmas::inner), unfolding(crate::specs::parsers::Expressions::prefixed_by))]
fn negative(alloc: Global, cursor: &mut Cursor, site: Site, room: u32) -> Result<Expr, Stop>
    ensures { Gives (λ e. e) result cursor.new
        (prefixed_by site room (as_sign (codes "-")) (inner_by room site signed) expr.Neg cursor.old) }
{
    let (place, inside) = cursor.open_sign(b"-", site, room)?;
    let of = unary(alloc, cursor, site, inside)?;
    Ok(minus(alloc, of, place)?)
}

/// An operand, with a `-` before it or not.
#[cycle(expression)]
#[tactic(auto, unfolding(crate::specs::parsers::Expressions::unary_by))]
fn unary(alloc: Global, cursor: &mut Cursor, site: Site, room: u32) -> Result<Expr, Stop>
    ensures { Gives (λ e. e) result cursor.new (unary_by site (inner_by room site) room cursor.old) }
{
    if cursor.is_sign(b"-") {
        negative(alloc, cursor, site, room)
    } else {
        atom(alloc, cursor, site, room)
    }
}

/// Two sums with an operator that compares between them, or one sum.
#[cycle(expression)]
#[tactic(auto, unfolding(crate::specs::parsers::Expressions::comparison_by))]
fn comparison(alloc: Global, cursor: &mut Cursor, site: Site, room: u32) -> Result<Expr, Stop>
    ensures { Gives (λ e. e) result cursor.new (comparison_by site (inner_by room site) room cursor.old) }
{
    let left = operand(alloc, cursor, Precedence::Comparison, site, room)?;
    if is_operator(cursor, Precedence::Comparison) {
        right(alloc, cursor, Precedence::Comparison, site, room, left)
    } else {
        Ok(left)
    }
}

/// A `not` and its operand.
#[cycle(expression)]
#[tactic(auto, using(crate::proofs::PrecedenceLemmas::inner), unfolding(crate::specs::parsers::Expressions::prefixed_by))]
fn opposite(alloc: Global, cursor: &mut Cursor, site: Site, room: u32) -> Result<Expr, Stop>
    ensures { Gives (λ e. e) result cursor.new
        (prefixed_by site room (as_word (codes "not")) (inner_by room site negated) expr.Not cursor.old) }
{
    let (place, inside) = cursor.open_word(b"not", site, room)?;
    let of = negation(alloc, cursor, site, inside)?;
    Ok(not(alloc, of, place)?)
}

/// A comparison, with a `not` before it or not.
#[cycle(expression)]
#[tactic(auto, unfolding(crate::specs::parsers::Expressions::negation_by))]
fn negation(alloc: Global, cursor: &mut Cursor, site: Site, room: u32) -> Result<Expr, Stop>
    ensures { Gives (λ e. e) result cursor.new (negation_by site (inner_by room site) room cursor.old) }
{
    if cursor.is_word(b"not") {
        opposite(alloc, cursor, site, room)
    } else {
        comparison(alloc, cursor, site, room)
    }
}

/// What stands between the operators of a precedence.
#[cycle(expression)]
#[tactic(auto, using(crate::proofs::PrecedenceLemmas::precedences))]
fn operand(
    alloc: Global,
    cursor: &mut Cursor,
    precedence: Precedence,
    site: Site,
    room: u32,
) -> Result<Expr, Stop>
    ensures { Gives (λ e. e) result cursor.new (operand_by precedence site (inner_by room site) room cursor.old) }
{
    match precedence {
        Precedence::Disjunction => chain(alloc, cursor, Precedence::Conjunction, site, room),
        Precedence::Conjunction => negation(alloc, cursor, site, room),
        Precedence::Comparison => chain(alloc, cursor, Precedence::Sum, site, room),
        Precedence::Sum => chain(alloc, cursor, Precedence::Product, site, room),
        Precedence::Product => unary(alloc, cursor, site, room),
    }
}

/// An operator of a precedence and its right operand.
#[cycle(expression)]
#[tactic(auto, unfolding(crate::specs::parsers::Expressions::right_by))]
fn right(
    alloc: Global,
    cursor: &mut Cursor,
    precedence: Precedence,
    site: Site,
    room: u32,
    left: Expr,
) -> Result<Expr, Stop>
    ensures { Gives (λ e. e) result cursor.new
        (right_by site (ops_of precedence) (operand_by precedence site (inner_by room site) room) left cursor.old) }
{
    let operator = read_operator(cursor, precedence, site)?;
    let right = operand(alloc, cursor, precedence, site, room)?;
    Ok(join(alloc, operator, left, right)?)
}

/// Operands of a precedence with its operators between them. They group to the left.
#[cycle(expression)]
#[tactic(auto, using(crate::proofs::PrecedenceLemmas::turns))]
fn chain(
    alloc: Global,
    cursor: &mut Cursor,
    precedence: Precedence,
    site: Site,
    room: u32,
) -> Result<Expr, Stop>
    ensures { Gives (λ e. e) result cursor.new (precedence_by precedence site room cursor.old) }
{
    let mut left = operand(alloc, cursor, precedence, site, room)?;
    while is_operator(cursor, precedence) {
        left = right(alloc, cursor, precedence, site, room, left)?;
    }
    Ok(left)
}

/// An expression. Where it is an entry too many, its first token is refused.
#[tactic(auto, using(crate::proofs::PrecedenceLemmas::wholes))]
pub fn expression(alloc: Global, cursor: &mut Cursor, is_beyond: bool) -> Result<Expr, Stop>
    ensures { Gives (λ e. e) result cursor.new (expression_by is_beyond cursor.old) }
{
    let first = cursor.first().ok_or(Stop::Syntax)?;
    let site = Site {
        before: cursor.at(),
        start: first.place,
        is_beyond,
    };
    chain(alloc, cursor, Precedence::Disjunction, site, MOST_OPEN)
}
