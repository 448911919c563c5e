ghost use Rattle.std.specs.Prelude.{◌≡◌, ℕ, List, Option, codes, false, if◌then◌else◌};
ghost use Rattle.ft_names.specs.meaning.Cards.{under};
ghost use Rattle.ft_names.specs.meaning.First.{Answers};
ghost use Rattle.ft_types.specs.meaning.Sides.{may_read, side_in, side_spot, wrong_history, wrong_name, wrong_side};

use crate::fault::ItemFault;
use crate::reading::{has_age, has_prev, may_read, may_use};
use ft_base::{List, Place};
use ft_names::{Asked, Card, Cards, Inspect, Judge, Role, Site, Stop, inspect_parts};
use ft_tree::{Bound, Expr, Kind, Word};
use std::alloc::Global;

// The fault of a word that may not stand there.
fn wrong_name(
    alloc: Global,
    name: &[u8],
    place: Place,
    allowed: bool,
) -> Result<(), Stop<ItemFault>>
    ensures { Answers result (wrong_name name.now place allowed) }
{
    if allowed {
        Ok(())
    } else {
        let name = List::copy_of(alloc, name)?;
        Err(Stop::Fault(ItemFault::WrongSide { name, place }))
    }
}

// The test for what may not be read at one site.
#[derive(Drop)]
struct AtSite<'c> {
    alloc: Global,
    cards: &'c Cards,
    site: Site,
}

impl<'c> AtSite<'c> {
    // The fault of a name there.
    fn name(&self, name: &[u8], place: Place) -> Result<(), Stop<ItemFault>>
        ensures { Answers result (wrong_name name.now place (may_read self.now.site (under self.now.cards.now name.now))) }
    {
        let allowed = may_read(self.site, self.cards.find(name));
        wrong_name(self.alloc, name, place, allowed)
    }

    // The fault of a word and the name in its parentheses.
    fn history(
        &self,
        allowed: bool,
        word: &[u8],
        name: &[u8],
        place: Place,
    ) -> Result<(), Stop<ItemFault>>
        ensures { Answers result (wrong_history (under self.now.cards.now) self.now.site allowed word.now name.now place) }
    {
        if allowed {
            self.name(name, place)
        } else {
            wrong_name(self.alloc, word, place, false)
        }
    }
}

impl<'c> Inspect for AtSite<'c> {
    type Fault = ItemFault;

    ghost test = { λ s asked. wrong_side (under s.cards.now) s.site };

    #[tactic(auto, using(ft_names::specs::laws::Parts::opens), unfolding(crate::specs::meaning::Sides::wrong_side))]
    fn part(&self, _asked: Asked, expr: &Expr) -> Result<(), Stop<ItemFault>> {
        match expr {
            Expr::Name { name, place } => self.name(name.as_slice(), *place),
            Expr::Prev { name, place } => {
                self.history(has_prev(self.site), b"prev", name.as_slice(), *place)
            }
            Expr::Age { name, place } => {
                self.history(has_age(self.site), b"age", name.as_slice(), *place)
            }
            Expr::Num { .. }
            | Expr::Truth { .. }
            | Expr::Not { .. }
            | Expr::Neg { .. }
            | Expr::Two { .. } => Ok(()),
        }
    }
}

/// The test for what stands on the wrong side.
#[derive(Drop)]
pub struct Sides<'c> {
    pub alloc: Global,
    pub cards: &'c Cards,
}

impl<'c> Sides<'c> {
    // The first part of an expression that may not be read at a site.
    fn read(&self, site: Site, expr: &Expr) -> Result<(), Stop<ItemFault>>
        ensures { Answers result (side_in (under self.now.cards.now) site expr.now) }
    {
        let reader = AtSite {
            alloc: self.alloc,
            cards: self.cards,
            site,
        };
        inspect_parts(&reader, Asked::Anything, expr)
    }
}

impl<'c> Judge for Sides<'c> {
    type Fault = ItemFault;

    ghost use Rattle.ft_names.specs.meaning.Cards.{under};
    ghost use Rattle.ft_types.specs.meaning.Sides.{side_spot};

    ghost test = { λ s. side_spot (under s.cards.now) };

    fn named(&self, role: Role, word: &Word) -> Result<(), Stop<ItemFault>> {
        let allowed = may_use(role, self.cards.find(word.text.as_slice()));
        wrong_name(self.alloc, word.text.as_slice(), word.place, allowed)
    }

    fn bound(&self, _value: &Bound) -> Result<(), Stop<ItemFault>> {
        Ok(())
    }

    fn initial(&self, _of: &Kind, _value: &Bound) -> Result<(), Stop<ItemFault>> {
        Ok(())
    }

    fn condition(&self, site: Site, expr: &Expr) -> Result<(), Stop<ItemFault>> {
        self.read(site, expr)
    }

    fn number(&self, site: Site, expr: &Expr) -> Result<(), Stop<ItemFault>> {
        self.read(site, expr)
    }

    fn term_for(&self, site: Site, _word: &Word, expr: &Expr) -> Result<(), Stop<ItemFault>> {
        self.read(site, expr)
    }
}
