ghost use Rattle.std.specs.Prelude.{◌≡◌, IfOk, pos};
ghost use Rattle.ft_core.specs.declared.term.Term.TheVariants.{Num};
ghost use Rattle.ft_names.specs.meaning.Cards.{under};
ghost use Rattle.ft_build.specs.meaning.Terms.{age_term, folded, kept, name_term, operator_term, prev_term, product_term, quotient_term};
ghost use Rattle.ft_build.specs.meaning.Terms.{term_of};
ghost use Rattle.ft_build.specs.meaning.Terms.{truth_value, value_of};

use crate::values::{name_value, negated, number_value, operator_value};
use ft_base::{Boxed, NoMemory};
use ft_core::Term;
use ft_names::{Card, Cards};
use ft_tree::{Expr, Op};
use std::alloc::Global;

// A term, and the value of the expression that spells it, where it is constant.
#[derive(Drop)]
struct Spelled {
    term: Term,
    value: Option<i64>,
}

fn name_term(card: Option<Card>) -> Term
    ensures { result ≡ name_term card }
{
    match card {
        Some(Card::Constant(value)) => Term::Num(value),
        Some(Card::Member { position, .. }) => Term::Num(i64::from(position)),
        Some(Card::Variable { place, .. }) => Term::Now(place),
        _ => Term::Num(0),
    }
}

/// The term of `prev` of a name.
pub fn prev_term(card: Option<Card>) -> Term
    ensures { result ≡ prev_term card }
{
    match card {
        Some(Card::Variable { place, .. }) => Term::Prev(place),
        _ => Term::Num(0),
    }
}

fn age_term(card: Option<Card>) -> Term
    ensures { result ≡ age_term card }
{
    match card {
        Some(Card::Memory { place, .. }) => Term::Age(place),
        _ => Term::Num(0),
    }
}

/// The value of a truth: its position among `false` and `true`.
pub fn truth_value(value: bool) -> i64
    ensures { result ≡ truth_value value }
{
    if value { 1 } else { 0 }
}

fn folded(value: Option<i64>, term: Term) -> Term
    ensures { result ≡ folded value term }
{
    match value {
        Some(value) => Term::Num(value),
        None => term,
    }
}

fn product_term(alloc: Global, left: Spelled, right: Spelled) -> Result<Term, NoMemory>
    ensures { IfOk result (λ t. t ≡ product_term left.value right.value left.term right.term) }
{
    match left.value {
        Some(factor) => Ok(Term::Times(factor, Boxed::new(alloc, right.term)?)),
        None => match right.value {
            Some(factor) => Ok(Term::Times(factor, Boxed::new(alloc, left.term)?)),
            None => Ok(Term::Num(0)),
        },
    }
}

fn quotient_term(alloc: Global, divisor: Option<i64>, term: Term) -> Result<Term, NoMemory>
    ensures { IfOk result (λ t. t ≡ quotient_term divisor term) }
{
    match divisor {
        Some(divisor) => Ok(Term::Div(Boxed::new(alloc, term)?, divisor)),
        None => Ok(Term::Num(0)),
    }
}

fn operator_term(alloc: Global, op: Op, left: Spelled, right: Spelled) -> Result<Term, NoMemory>
    ensures { IfOk result (λ t. t ≡ operator_term op left.value right.value left.term right.term) }
{
    match op {
        Op::Add => Ok(Term::Add(
            Boxed::new(alloc, left.term)?,
            Boxed::new(alloc, right.term)?,
        )),
        Op::Sub => Ok(Term::Sub(
            Boxed::new(alloc, left.term)?,
            Boxed::new(alloc, right.term)?,
        )),
        Op::Mul => product_term(alloc, left, right),
        Op::Div => quotient_term(alloc, right.value, left.term),
        Op::Or | Op::And | Op::Eq | Op::Ne | Op::Lt | Op::Le | Op::Gt | Op::Ge => Ok(Term::Num(0)),
    }
}

fn of_term(term: Term, value: Option<i64>) -> Spelled
    ensures term { result.term ≡ term }
    ensures value { result.value ≡ value }
{
    Spelled { term, value }
}

fn of_number(value: u64) -> Spelled
    ensures term { result.term ≡ folded (kept (pos value)) (Num (pos 0)) }
    ensures value { result.value ≡ kept (pos value) }
{
    let value = number_value(value);
    of_term(folded(value, Term::Num(0)), value)
}

// The term of an expression with its value. It passes over each part once.
#[tactic(auto, using(crate::specs::laws::Terms::terms))]
fn spell(alloc: Global, cards: &Cards, expr: &Expr) -> Result<Spelled, NoMemory>
    ensures term { IfOk result (λ s. s.term ≡ term_of (under cards.now) expr.now) }
    ensures value { IfOk result (λ s. s.value ≡ value_of (under cards.now) expr.now) }
{
    match expr {
        Expr::Num { value, .. } => Ok(of_number(*value)),
        Expr::Name { name, .. } => {
            let card = cards.find(name.as_slice());
            Ok(of_term(name_term(card), name_value(card)))
        }
        Expr::Truth { value, .. } => Ok(of_term(Term::Num(truth_value(*value)), None)),
        Expr::Prev { name, .. } => { Ok(of_term(prev_term(cards.find(name.as_slice())), None)) }
        Expr::Age { name, .. } => Ok(of_term(age_term(cards.find(name.as_slice())), None)),
        Expr::Not { .. } => Ok(of_term(Term::Num(0), None)),
        Expr::Neg { of, .. } => {
            let inner = spell(alloc, cards, of.get())?;
            let value = negated(inner.value);
            let term = Term::Neg(Boxed::new(alloc, inner.term)?);
            Ok(of_term(folded(value, term), value))
        }
        Expr::Two {
            op,
            left,
            right,
            ..
        } => {
            let left = spell(alloc, cards, left.get())?;
            let right = spell(alloc, cards, right.get())?;
            let value = operator_value(*op, left.value, right.value);
            let term = operator_term(alloc, *op, left, right)?;
            Ok(of_term(folded(value, term), value))
        }
    }
}

/// The term that an expression spells. What spells none counts as 0, as a name does that is that of no constant, member or
/// variable, a product with no constant side, and a constant beyond 10^15 either way.
pub fn build_term(alloc: Global, cards: &Cards, expr: &Expr) -> Result<Term, NoMemory>
    ensures { IfOk result (λ term. term ≡ term_of (under cards.now) expr.now) }
{
    Ok(spell(alloc, cards, expr)?.term)
}
