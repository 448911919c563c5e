ghost use Rattle.std.specs.Prelude.{◌≡◌, map, IfOk};
ghost use Rattle.ft_names.specs.meaning.Cards.{under};
ghost use Rattle.ft_build.specs.meaning.Conditions.{cond_of};
ghost use Rattle.ft_build.specs.meaning.Tables.{head_of, row_conds, row_target, row_terms, variable_place, vector_terms};
ghost use Rattle.ft_build.specs.meaning.Terms.{term_of};

use crate::conditions::build_cond;
use crate::terms::build_term;
use ft_base::{List, NoMemory};
use ft_core::{Cond, Term};
use ft_names::{Card, Cards};
use ft_tree::{Expr, Row, VRow};
use std::alloc::Global;

/// The place of the variable that a name stands for. What is no variable counts as the first one.
pub fn variable_place(card: Option<Card>) -> u32
    ensures { result ≡ variable_place card }
{
    match card {
        Some(Card::Variable { place, .. }) => place,
        _ => 0,
    }
}

/// The conditions that expressions spell.
pub fn build_conds(alloc: Global, cards: &Cards, exprs: &[Expr]) -> Result<List<Cond>, NoMemory>
    ensures { IfOk result (λ list. list ≡ map (cond_of (under cards.now)) exprs.now) }
{
    let mut list = List::new(alloc);
    for expr in exprs {
        list.push(build_cond(alloc, cards, expr)?)?;
    }
    Ok(list)
}

/// The terms that expressions spell.
pub fn build_terms(alloc: Global, cards: &Cards, exprs: &[Expr]) -> Result<List<Term>, NoMemory>
    ensures { IfOk result (λ list. list ≡ map (term_of (under cards.now)) exprs.now) }
{
    let mut list = List::new(alloc);
    for expr in exprs {
        list.push(build_term(alloc, cards, expr)?)?;
    }
    Ok(list)
}

/// The conditions at the head of rows.
pub fn build_heads(alloc: Global, cards: &Cards, rows: &[Row]) -> Result<List<Cond>, NoMemory>
    ensures { IfOk result (λ list. list ≡ map (head_of (under cards.now)) rows.now) }
{
    let mut list = List::new(alloc);
    for row in rows {
        list.push(build_cond(alloc, cards, &row.head)?)?;
    }
    Ok(list)
}

/// The terms of rows.
pub fn build_row_terms(
    alloc: Global,
    cards: &Cards,
    rows: &[Row],
) -> Result<List<List<Term>>, NoMemory>
    ensures { IfOk result (λ list. list ≡ map (row_terms (under cards.now)) rows.now) }
{
    let mut list = List::new(alloc);
    for row in rows {
        list.push(build_terms(alloc, cards, row.entries.as_slice())?)?;
    }
    Ok(list)
}

/// The conditions of rows.
pub fn build_row_conds(
    alloc: Global,
    cards: &Cards,
    rows: &[Row],
) -> Result<List<List<Cond>>, NoMemory>
    ensures { IfOk result (λ list. list ≡ map (row_conds (under cards.now)) rows.now) }
{
    let mut list = List::new(alloc);
    for row in rows {
        list.push(build_conds(alloc, cards, row.entries.as_slice())?)?;
    }
    Ok(list)
}

/// The variables of the rows of a vector table.
pub fn build_targets(alloc: Global, cards: &Cards, rows: &[VRow]) -> Result<List<u32>, NoMemory>
    ensures { IfOk result (λ list. list ≡ map (row_target (under cards.now)) rows.now) }
{
    let mut list = List::new(alloc);
    for row in rows {
        list.push(variable_place(cards.find(row.target.text.as_slice())))?;
    }
    Ok(list)
}

/// The terms of the rows of a vector table.
pub fn build_vector_terms(
    alloc: Global,
    cards: &Cards,
    rows: &[VRow],
) -> Result<List<List<Term>>, NoMemory>
    ensures { IfOk result (λ list. list ≡ map (vector_terms (under cards.now)) rows.now) }
{
    let mut list = List::new(alloc);
    for row in rows {
        list.push(build_terms(alloc, cards, row.entries.as_slice())?)?;
    }
    Ok(list)
}
