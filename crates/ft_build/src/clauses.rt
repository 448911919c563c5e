ghost use Rattle.std.specs.Prelude.{◌≡◌, ◌++◌, IfOk, OnOk};
ghost use Rattle.std.specs.List.{flat_map};
ghost use Rattle.ft_names.specs.meaning.Cards.{under};
ghost use Rattle.ft_build.specs.meaning.Tables.{build_clause, is_moment};

use crate::conditions::build_cond;
use ft_base::{List, NoMemory};
use ft_core::Cond;
use ft_names::Cards;
use ft_tree::{Item, NatWord};
use std::alloc::Global;

fn is_moment(moment: NatWord, other: NatWord) -> bool
    ensures { result ≡ is_moment moment other }
{
    moment == other
}

// Adds what the environment keeps by an item, where it is a clause on such scans.
fn add_clause(
    clauses: &mut List<Cond>,
    alloc: Global,
    cards: &Cards,
    moment: NatWord,
    item: &Item,
) -> Result<(), NoMemory>
    ensures { OnOk result (clauses.new ≡ clauses.old ++ build_clause moment (under cards.now) item.now) }
{
    match item {
        Item::Nat {
            moment: other,
            cond,
        } => {
            if is_moment(moment, *other) {
                clauses.push(build_cond(alloc, cards, cond)?)
            } else {
                Ok(())
            }
        }
        _ => Ok(()),
    }
}

/// What the environment keeps at scan 0, at each scan, or at each scan after 0.
pub fn build_clauses(
    alloc: Global,
    cards: &Cards,
    moment: NatWord,
    items: &[Item],
) -> Result<List<Cond>, NoMemory>
    ensures { IfOk result (λ clauses. clauses ≡ flat_map (build_clause moment (under cards.now)) items.now) }
{
    let mut clauses = List::new(alloc);
    for item in items {
        add_clause(&mut clauses, alloc, cards, moment, item)?;
    }
    Ok(clauses)
}
