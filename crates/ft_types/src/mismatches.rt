ghost use Rattle.std.specs.Prelude.{◌≡◌};
ghost use Rattle.ft_names.specs.meaning.Cards.{under};
ghost use Rattle.ft_names.specs.meaning.First.{Answers};
ghost use Rattle.ft_types.specs.meaning.Mismatch.{asked_for, asked_of_kind, fits, is_constant, is_controlled, is_variable_or_memory};
ghost use Rattle.ft_types.specs.meaning.Mismatch.{is_member_name, is_member_of, is_truth, is_value_of, is_whole, mismatch_at};
ghost use Rattle.ft_types.specs.meaning.Mismatch.{mismatch_spot, named_values, is_type, type_kind};

use crate::fault::ItemFault;
use crate::mismatch::{Mismatches, is_variable, values_kind};
use ft_base::Place;
use ft_names::{Asked, Card, Cards, ExprKind, Judge, Role, Site, Stop, Values, inspect_parts};
use ft_tree::{Bound, Expr, Kind, Plain, VarWord, Word};

// Whether a name may be used so, as far as its kind goes.
fn fits(role: Role, card: Option<Card>) -> bool
    ensures { result ≡ fits role card }
{
    match role {
        Role::TypeName => is_type(card),
        Role::Target(_) => is_variable(card),
        Role::Taken => is_variable_or_memory(card),
        Role::Used => true,
        Role::Goal => is_controlled(card),
    }
}

fn is_type(card: Option<Card>) -> bool
    ensures { result ≡ is_type card }
{
    match card {
        Some(Card::TypeName(_)) => true,
        _ => false,
    }
}

fn is_constant(card: Option<Card>) -> bool
    ensures { result ≡ is_constant card }
{
    match card {
        Some(Card::Constant(_)) => true,
        _ => false,
    }
}

fn is_controlled(card: Option<Card>) -> bool
    ensures { result ≡ is_controlled card }
{
    match card {
        Some(
            Card::Variable {
                kind: VarWord::Con,
                ..
            },
        ) => true,
        _ => false,
    }
}

// Whether this is a variable or a memory.
fn is_variable_or_memory(card: Option<Card>) -> bool
    ensures { result ≡ is_variable_or_memory card }
{
    match card {
        Some(Card::Variable { .. }) | Some(Card::Memory { .. }) => true,
        _ => false,
    }
}

fn is_member_of(owner: u32, card: Option<Card>) -> bool
    ensures { result ≡ is_member_of owner card }
{
    match card {
        Some(Card::Member { item, .. }) => item == owner,
        _ => false,
    }
}

fn named_values(card: Option<Card>) -> Values
    ensures { result ≡ named_values card }
{
    match card {
        Some(Card::TypeName(values)) => values,
        _ => Values::Untyped,
    }
}

fn asked_of_kind(kind: ExprKind) -> Asked
    ensures { result ≡ asked_of_kind kind }
{
    match kind {
        ExprKind::Nothing | ExprKind::Condition => Asked::Anything,
        ExprKind::Number | ExprKind::Truth | ExprKind::Members(_) => Asked::Term(kind),
    }
}

// What a term for a variable has to be.
fn asked_for(card: Option<Card>) -> Asked
    ensures { result ≡ asked_for card }
{
    match card {
        Some(Card::Variable { values, .. }) => asked_of_kind(values_kind(values)),
        _ => Asked::Anything,
    }
}

fn mismatch_at(place: Place, right: bool) -> Result<(), Stop<ItemFault>>
    ensures { Answers result (mismatch_at place right) }
{
    if right {
        Ok(())
    } else {
        Err(Stop::Fault(ItemFault::TypeMismatch { place }))
    }
}

// What kind of values a variable of this type has.
fn type_kind(cards: &Cards, of: &Kind) -> ExprKind
    ensures { result ≡ type_kind (under cards.now) of.now }
{
    match of {
        Kind::Range(_, _) => ExprKind::Number,
        Kind::Named(word) => values_kind(named_values(cards.find(word.text.as_slice()))),
        Kind::Bool => ExprKind::Truth,
    }
}

// Whether this is a number, or the name of a constant.
fn is_whole(cards: &Cards, value: &Plain) -> bool
    ensures { result ≡ is_whole (under cards.now) value.now }
{
    match value {
        Plain::Number(_) => true,
        Plain::Name(name) => is_constant(cards.find(name.as_slice())),
        Plain::Truth(_) => false,
    }
}

fn is_member_name(cards: &Cards, owner: u32, value: &Plain) -> bool
    ensures { result ≡ is_member_name (under cards.now) owner value.now }
{
    match value {
        Plain::Name(name) => is_member_of(owner, cards.find(name.as_slice())),
        Plain::Number(_) | Plain::Truth(_) => false,
    }
}

fn is_truth(value: &Plain) -> bool
    ensures { result ≡ is_truth value.now }
{
    match value {
        Plain::Truth(_) => true,
        Plain::Number(_) | Plain::Name(_) => false,
    }
}

// Whether an `init` is a value of its kind.
fn is_value_of(cards: &Cards, kind: ExprKind, init: &Bound) -> bool
    ensures { result ≡ is_value_of (under cards.now) kind init.now }
{
    match kind {
        ExprKind::Number => is_whole(cards, &init.value),
        ExprKind::Truth => is_truth(&init.value),
        ExprKind::Members(owner) => !init.minus && is_member_name(cards, owner, &init.value),
        ExprKind::Condition | ExprKind::Nothing => true,
    }
}

impl<'c> Judge for Mismatches<'c> {
    type Fault = ItemFault;

    ghost use Rattle.ft_names.specs.meaning.Cards.{under};
    ghost use Rattle.ft_types.specs.meaning.Mismatch.{mismatch_spot};

    ghost test = { λ s. mismatch_spot (under s.cards.now) };

    fn named(&self, role: Role, word: &Word) -> Result<(), Stop<ItemFault>> {
        mismatch_at(
            word.place,
            fits(role, self.cards.find(word.text.as_slice())),
        )
    }

    fn bound(&self, value: &Bound) -> Result<(), Stop<ItemFault>> {
        mismatch_at(value.place, is_whole(self.cards, &value.value))
    }

    fn initial(&self, of: &Kind, value: &Bound) -> Result<(), Stop<ItemFault>> {
        mismatch_at(
            value.place,
            is_value_of(self.cards, type_kind(self.cards, of), value),
        )
    }

    fn condition(&self, _site: Site, expr: &Expr) -> Result<(), Stop<ItemFault>> {
        inspect_parts(self, Asked::Condition, expr)
    }

    fn number(&self, _site: Site, expr: &Expr) -> Result<(), Stop<ItemFault>> {
        inspect_parts(self, Asked::Term(ExprKind::Number), expr)
    }

    fn term_for(&self, _site: Site, word: &Word, expr: &Expr) -> Result<(), Stop<ItemFault>> {
        inspect_parts(self, asked_for(self.cards.find(word.text.as_slice())), expr)
    }
}
