ghost use Rattle.std.specs.Prelude.{◌≡◌};
ghost use Rattle.ft_names.specs.meaning.Cards.{under};
ghost use Rattle.ft_types.specs.meaning.Mismatch.{card_kind, is_timer, is_unreadable, is_variable, is_wrong, kind_of, mismatch, place_of};
ghost use Rattle.ft_types.specs.meaning.Mismatch.{values_kind};

use crate::fault::ItemFault;
use crate::kinds::{is_comparable, is_met, op_kind};
use ft_base::Place;
use ft_names::{Asked, Card, Cards, ExprKind, Inspect, Stop, Values};
use ft_tree::Expr;

/// The kind of a term with these values.
pub fn values_kind(values: Values) -> ExprKind
    ensures { result ≡ values_kind values }
{
    match values {
        Values::Numbers { .. } => ExprKind::Number,
        Values::Truths => ExprKind::Truth,
        Values::Members { item, .. } => ExprKind::Members(item),
        Values::Untyped => ExprKind::Nothing,
    }
}

// The kind of a name as an expression.
fn card_kind(card: Option<Card>) -> ExprKind
    ensures { result ≡ card_kind card }
{
    match card {
        Some(Card::Constant(_)) => ExprKind::Number,
        Some(Card::Member { item, .. }) => ExprKind::Members(item),
        Some(Card::Variable { values, .. }) => values_kind(values),
        Some(Card::Memory { .. }) => ExprKind::Condition,
        Some(Card::TypeName(_)) | Some(Card::Block(_)) | Some(Card::Invariant { .. }) | None => {
            ExprKind::Nothing
        }
    }
}

/// Whether this is a variable.
pub fn is_variable(card: Option<Card>) -> bool
    ensures { result ≡ is_variable card }
{
    match card {
        Some(Card::Variable { .. }) => true,
        _ => false,
    }
}

// Whether this is the memory of a `held`.
fn is_timer(card: Option<Card>) -> bool
    ensures { result ≡ is_timer card }
{
    match card {
        Some(Card::Memory { hold: Some(_), .. }) => true,
        _ => false,
    }
}

// Whether this is what no expression may name.
fn is_unreadable(card: Option<Card>) -> bool
    ensures { result ≡ is_unreadable card }
{
    match card {
        Some(Card::TypeName(_)) | Some(Card::Block(_)) | Some(Card::Invariant { .. }) => true,
        _ => false,
    }
}

#[tactic(auto, using(ft_names::specs::laws::Parts::opens), unfolding(crate::specs::meaning::Mismatch::place_of))]
fn place_of(expr: &Expr) -> Place
    ensures { result ≡ place_of expr.now }
{
    match expr {
        Expr::Num { place, .. } => *place,
        Expr::Name { place, .. } => *place,
        Expr::Truth { place, .. } => *place,
        Expr::Prev { place, .. } => *place,
        Expr::Age { place, .. } => *place,
        Expr::Not { place, .. } => *place,
        Expr::Neg { place, .. } => *place,
        Expr::Two { place, .. } => *place,
    }
}

// The kind of an expression by its outermost form.
#[tactic(auto, using(ft_names::specs::laws::Parts::opens), unfolding(crate::specs::meaning::Mismatch::kind_of))]
fn kind_of(cards: &Cards, expr: &Expr) -> ExprKind
    ensures { result ≡ kind_of (under cards.now) expr.now }
{
    match expr {
        Expr::Num { .. } => ExprKind::Number,
        Expr::Name { name, .. } => card_kind(cards.find(name.as_slice())),
        Expr::Truth { .. } => ExprKind::Truth,
        Expr::Prev { name, .. } => {
            let card = cards.find(name.as_slice());
            if is_variable(card) {
                card_kind(card)
            } else {
                ExprKind::Nothing
            }
        }
        Expr::Age { name, .. } => {
            if is_timer(cards.find(name.as_slice())) {
                ExprKind::Number
            } else {
                ExprKind::Nothing
            }
        }
        Expr::Not { .. } => ExprKind::Condition,
        Expr::Neg { .. } => ExprKind::Number,
        Expr::Two { op, .. } => op_kind(*op),
    }
}

// Whether an expression is wrong whatever its place asks.
#[tactic(auto, using(ft_names::specs::laws::Parts::opens), unfolding(crate::specs::meaning::Mismatch::is_wrong))]
fn is_wrong(cards: &Cards, expr: &Expr) -> bool
    ensures { result ≡ is_wrong (under cards.now) expr.now }
{
    match expr {
        Expr::Num { .. } | Expr::Truth { .. } | Expr::Not { .. } | Expr::Neg { .. } => false,
        Expr::Name { name, .. } => is_unreadable(cards.find(name.as_slice())),
        Expr::Prev { name, .. } => !is_variable(cards.find(name.as_slice())),
        Expr::Age { name, .. } => !is_timer(cards.find(name.as_slice())),
        Expr::Two {
            op,
            left,
            right,
            ..
        } => !is_comparable(*op, kind_of(cards, left.get()), kind_of(cards, right.get())),
    }
}

/// The test for expressions and names of the wrong kind.
#[derive(Drop)]
pub struct Mismatches<'c> {
    pub cards: &'c Cards,
}

impl<'c> Inspect for Mismatches<'c> {
    type Fault = ItemFault;

    ghost test = { λ s. mismatch (under s.cards.now) };

    #[tactic(auto, unfolding(crate::specs::meaning::Mismatch::mismatch))]
    fn part(&self, asked: Asked, expr: &Expr) -> Result<(), Stop<ItemFault>> {
        if is_wrong(self.cards, expr) || !is_met(asked, kind_of(self.cards, expr)) {
            Err(Stop::Fault(ItemFault::TypeMismatch {
                place: place_of(expr),
            }))
        } else {
            Ok(())
        }
    }
}
