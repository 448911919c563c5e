ghost use Rattle.std.specs.Prelude.{◌≡◌, IfOk};
ghost use Rattle.ft_names.specs.meaning.Cards.{cards_of, under};
ghost use Rattle.ft_names.specs.meaning.Declared.{listing};

use crate::card::Card;
use crate::carding::card_list;
use crate::names::Names;
use ft_base::{List, NoMemory};
use ft_tree::Tree;
use std::alloc::Global;
use std::marker::Model;

/// What each declared name stands for. A name is found by its hash.
#[derive(Drop)]
pub struct Cards {
    names: Names,
    list: List<Card>,
}

impl Model for Cards {
    ghost use Rattle.std.specs.Prelude.{List, ℕ};
    ghost use Rattle.ft_names.specs.declared.card.Card.{Card};

    ghost Value = { List (List ℕ × Card) };

    ghost use Rattle.ft_names.specs.naming.Cards.{AreMatched, carded};

    ghost view = { carded };

    ghost invariant = { AreMatched };
}

impl Cards {
    /// What the names of a tree stand for. They are those that `resolve` gives.
    pub fn of(alloc: Global, names: Names, tree: &Tree) -> Result<Cards, NoMemory>
        requires { names ≡ listing 0 tree.now.items }
        ensures { IfOk result (λ cards. cards ≡ cards_of tree.now.items) }
    {
        let list = card_list(alloc, &names, tree.items.as_slice())?;
        Ok(Cards { names, list })
    }

    /// What a name stands for. None exactly where nothing declares it.
    pub fn find(&self, name: &[u8]) -> Option<Card>
        ensures { result ≡ under self.now name.now }
    {
        match self.names.find(name) {
            Some(place) => Some(*self.list.get(place as usize)),
            None => None,
        }
    }
}
