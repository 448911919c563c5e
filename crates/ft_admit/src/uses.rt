ghost use Rattle.std.specs.Prelude.{◌≡◌};
ghost use Rattle.ft_names.specs.meaning.Cards.{cards_of, under};
ghost use Rattle.ft_names.specs.meaning.First.{Answers};
ghost use Rattle.ft_admit.specs.meaning.Uses.{first_unknown_invariant, is_invariant, use_fault};

use crate::fault::TypeFault;
use ft_base::List;
use ft_names::{Card, Cards, Judge, Role, Site, Stop, judge_set};
use ft_tree::{Bound, Expr, Kind, Tree, Word};
use std::alloc::Global;

/// The test for names after `uses` that are those of no invariant.
#[derive(Drop)]
pub struct Uses<'c> {
    pub alloc: Global,
    pub cards: &'c Cards,
}

fn is_invariant(card: Option<Card>) -> bool
    ensures { result ≡ is_invariant card }
{
    match card {
        Some(Card::Invariant { .. }) => true,
        _ => false,
    }
}

impl<'c> Uses<'c> {
    // Looks for the invariant of a name.
    fn invariant(&self, word: &Word) -> Result<(), Stop<TypeFault>>
        ensures { Answers result (use_fault (under self.now.cards.now) word.now) }
    {
        if is_invariant(self.cards.find(word.text.as_slice())) {
            Ok(())
        } else {
            let name = List::copy_of(self.alloc, word.text.as_slice())?;
            Err(Stop::Fault(TypeFault::UnknownInvariant {
                name,
                place: word.place,
            }))
        }
    }
}

impl<'c> Judge for Uses<'c> {
    type Fault = TypeFault;

    ghost use Rattle.ft_names.specs.meaning.Cards.{under};
    ghost use Rattle.ft_admit.specs.meaning.Uses.{use_spot};

    ghost test = { λ s. use_spot (under s.cards.now) };

    fn named(&self, role: Role, word: &Word) -> Result<(), Stop<TypeFault>> {
        match role {
            Role::Used => self.invariant(word),
            Role::TypeName | Role::Target(_) | Role::Taken | Role::Goal => Ok(()),
        }
    }

    fn bound(&self, _value: &Bound) -> Result<(), Stop<TypeFault>> {
        Ok(())
    }

    fn initial(&self, _of: &Kind, _value: &Bound) -> Result<(), Stop<TypeFault>> {
        Ok(())
    }

    fn condition(&self, _site: Site, _expr: &Expr) -> Result<(), Stop<TypeFault>> {
        Ok(())
    }

    fn number(&self, _site: Site, _expr: &Expr) -> Result<(), Stop<TypeFault>> {
        Ok(())
    }

    fn term_for(&self, _site: Site, _word: &Word, _expr: &Expr) -> Result<(), Stop<TypeFault>> {
        Ok(())
    }
}

/// Looks for the first name after `uses` of a tree that is that of no invariant: nothing declares it, or it is declared as something
/// else. An invariant of a later block is one.
pub fn judge_uses(alloc: Global, cards: &Cards, tree: &Tree) -> Result<(), Stop<TypeFault>>
    requires { cards.now ≡ cards_of tree.now.items }
    ensures answers { Answers result (first_unknown_invariant tree.now.items) }
{
    judge_set(&Uses { alloc, cards }, tree.items.as_slice())
}
