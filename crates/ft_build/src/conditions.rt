ghost use Rattle.std.specs.Prelude.{◌≡◌, IfOk};
ghost use Rattle.ft_core.specs.declared.term.Cond.TheVariants.{Compare};
ghost use Rattle.ft_names.specs.meaning.Cards.{under};
ghost use Rattle.ft_build.specs.meaning.Conditions.{cond_of, is_one, joined, name_cond, rel_of, truth_cond};
ghost use Rattle.ft_build.specs.meaning.Terms.{term_of};

use crate::terms::{build_term, prev_term};
use ft_base::{Boxed, NoMemory};
use ft_core::{Cond, Rel, Term};
use ft_names::{Card, Cards};
use ft_tree::{Expr, Op};
use std::alloc::Global;

// A `bool` term as a condition.
fn is_one(term: Term) -> Cond
    ensures { result ≡ is_one term }
{
    Cond::Compare(Rel::Eq, term, Term::Num(1))
}

fn name_cond(card: Option<Card>) -> Cond
    ensures { result ≡ name_cond card }
{
    match card {
        Some(Card::Memory { place, .. }) => Cond::Memory(place),
        Some(Card::Variable { place, .. }) => is_one(Term::Now(place)),
        _ => Cond::No,
    }
}

fn truth_cond(value: bool) -> Cond
    ensures { result ≡ truth_cond value }
{
    if value { Cond::Yes } else { Cond::No }
}

// The relation that an operator stands for, where it compares.
fn rel_of(op: Op) -> Option<Rel>
    ensures { result ≡ rel_of op }
{
    match op {
        Op::Eq => Some(Rel::Eq),
        Op::Ne => Some(Rel::Ne),
        Op::Lt => Some(Rel::Lt),
        Op::Le => Some(Rel::Le),
        Op::Gt => Some(Rel::Gt),
        Op::Ge => Some(Rel::Ge),
        Op::Or | Op::And | Op::Add | Op::Sub | Op::Mul | Op::Div => None,
    }
}

// Two conditions joined by an operator.
fn joined(alloc: Global, op: Op, left: Cond, right: Cond) -> Result<Cond, NoMemory>
    ensures { IfOk result (λ c. c ≡ joined op left right) }
{
    match op {
        Op::Or => Ok(Cond::Or(Boxed::new(alloc, left)?, Boxed::new(alloc, right)?)),
        Op::And => Ok(Cond::And(Boxed::new(alloc, left)?, Boxed::new(alloc, right)?)),
        _ => Ok(Cond::No),
    }
}

// The condition of a comparison.
fn compared(
    alloc: Global,
    cards: &Cards,
    rel: Rel,
    left: &Expr,
    right: &Expr,
) -> Result<Cond, NoMemory>
    ensures { IfOk result (λ c. c ≡ Compare rel (term_of (under cards.now) left.now) (term_of (under cards.now) right.now)) }
{
    let left = build_term(alloc, cards, left)?;
    let right = build_term(alloc, cards, right)?;
    Ok(Cond::Compare(rel, left, right))
}

/// The condition that an expression spells. What spells none counts as false, as a name does that is that of no memory or variable.
#[tactic(auto, using(crate::specs::laws::Terms::conds))]
pub fn build_cond(alloc: Global, cards: &Cards, expr: &Expr) -> Result<Cond, NoMemory>
    ensures { IfOk result (λ cond. cond ≡ cond_of (under cards.now) expr.now) }
{
    match expr {
        Expr::Name { name, .. } => Ok(name_cond(cards.find(name.as_slice()))),
        Expr::Truth { value, .. } => Ok(truth_cond(*value)),
        Expr::Prev { name, .. } => Ok(is_one(prev_term(cards.find(name.as_slice())))),
        Expr::Num { .. } | Expr::Age { .. } | Expr::Neg { .. } => Ok(Cond::No),
        Expr::Not { of, .. } => {
            let inner = build_cond(alloc, cards, of.get())?;
            Ok(Cond::Not(Boxed::new(alloc, inner)?))
        }
        Expr::Two {
            op,
            left,
            right,
            ..
        } => match rel_of(*op) {
            Some(rel) => compared(alloc, cards, rel, left.get(), right.get()),
            None => {
                let left = build_cond(alloc, cards, left.get())?;
                let right = build_cond(alloc, cards, right.get())?;
                joined(alloc, *op, left, right)
            }
        },
    }
}
