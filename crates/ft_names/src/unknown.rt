ghost use Rattle.ft_names.specs.meaning.Declared.{names_in};
ghost use Rattle.ft_names.specs.meaning.First.{Answers};
ghost use Rattle.ft_names.specs.meaning.Unknown.{unknown, unknown_in, unknown_part, unknown_plain, unknown_spot};

use crate::asked::Asked;
use crate::fault::NameFault;
use crate::inspect::{Inspect, inspect_parts};
use crate::names::Names;
use crate::site::Site;
use crate::stop::Stop;
use crate::walk::{Judge, Role};
use ft_base::{List, Place};
use ft_tree::{Bound, Expr, Kind, Plain, Word};
use std::alloc::Global;

/// The test for names that nothing declares.
#[derive(Drop)]
pub struct Unknown<'n> {
    pub alloc: Global,
    pub names: &'n Names,
}

impl<'n> Unknown<'n> {
    // Looks a name up.
    fn known(&self, name: &[u8], place: Place) -> Result<(), Stop<NameFault>>
        ensures { Answers result (unknown (names_in self.now.names.now) name.now place) }
    {
        if self.names.has(name) {
            Ok(())
        } else {
            let name = List::copy_of(self.alloc, name)?;
            Err(Stop::Fault(NameFault::UnknownName { name, place }))
        }
    }

    // Looks up what stands for a number, a member or a truth.
    fn known_value(&self, value: &Plain, place: Place) -> Result<(), Stop<NameFault>>
        ensures { Answers result (unknown_plain (names_in self.now.names.now) place value.now) }
    {
        match value {
            Plain::Name(name) => self.known(name.as_slice(), place),
            Plain::Number(_) | Plain::Truth(_) => Ok(()),
        }
    }

    // Looks up the names in an expression.
    fn known_in(&self, expr: &Expr) -> Result<(), Stop<NameFault>>
        ensures { Answers result (unknown_in (names_in self.now.names.now) expr.now) }
    {
        inspect_parts(self, Asked::Anything, expr)
    }
}

impl<'n> Inspect for Unknown<'n> {
    type Fault = NameFault;

    ghost test = { λ s asked. unknown_part (names_in s.names.now) };

    #[tactic(auto, using(crate::specs::laws::Parts::opens), unfolding(crate::specs::meaning::Unknown::unknown_part))]
    fn part(&self, _asked: Asked, expr: &Expr) -> Result<(), Stop<NameFault>> {
        match expr {
            Expr::Name { name, place } => self.known(name.as_slice(), *place),
            Expr::Prev { name, place } => self.known(name.as_slice(), *place),
            Expr::Age { name, place } => self.known(name.as_slice(), *place),
            Expr::Num { .. }
            | Expr::Truth { .. }
            | Expr::Not { .. }
            | Expr::Neg { .. }
            | Expr::Two { .. } => Ok(()),
        }
    }
}

impl<'n> Judge for Unknown<'n> {
    type Fault = NameFault;

    ghost test = { λ s. unknown_spot (names_in s.names.now) };

    fn named(&self, role: Role, word: &Word) -> Result<(), Stop<NameFault>> {
        match role {
            Role::TypeName | Role::Target(_) | Role::Taken | Role::Goal => {
                self.known(word.text.as_slice(), word.place)
            }
            Role::Used => Ok(()),
        }
    }

    fn bound(&self, value: &Bound) -> Result<(), Stop<NameFault>> {
        self.known_value(&value.value, value.place)
    }

    fn initial(&self, _of: &Kind, value: &Bound) -> Result<(), Stop<NameFault>> {
        self.known_value(&value.value, value.place)
    }

    fn condition(&self, _site: Site, expr: &Expr) -> Result<(), Stop<NameFault>> {
        self.known_in(expr)
    }

    fn number(&self, _site: Site, expr: &Expr) -> Result<(), Stop<NameFault>> {
        self.known_in(expr)
    }

    fn term_for(&self, _site: Site, _word: &Word, expr: &Expr) -> Result<(), Stop<NameFault>> {
        self.known_in(expr)
    }
}
