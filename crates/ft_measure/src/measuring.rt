ghost use Rattle.std.specs.Prelude.{◌≡◌, None};
ghost use Rattle.ft_names.specs.declared.asked.Asked.{Asked};
ghost use Rattle.ft_names.specs.meaning.Cards.{under};
ghost use Rattle.ft_names.specs.meaning.Parts.{first_part};
ghost use Rattle.ft_measure.specs.meaning.Measures.{measure};
ghost use Rattle.ft_measure.specs.meaning.Slopes.{slope, slope_at};

use crate::leaves::{of_age, of_name, of_number, of_prev};
use crate::measure::{Measure, unmeasured};
use crate::operators::{of_negation, of_operator};
use crate::slope::{Slope, first_of_three, operator_fault, slope_at};
use ft_base::Place;
use ft_names::Cards;
use ft_tree::Expr;

/// What is known of an expression, and the first part of it that isn't linear, in the order of the text.
#[derive(Clone, Copy, Drop)]
pub struct Measured {
    pub measure: Measure,
    pub first: Option<Slope>,
}

// An expression without operands.
fn leaf(measure: Measure, place: Place) -> Measured
    ensures measured { result.measure ≡ measure }
    ensures first { result.first ≡ slope_at place None measure.size }
{
    Measured {
        measure,
        first: slope_at(place, None, measure.size),
    }
}

/// Measures an expression, and finds the first part of it that isn't linear. It comes to each part once.
#[tactic(auto, using(crate::proofs::SlopeLemmas::linears))]
pub fn measure_expr(cards: &Cards, expr: &Expr) -> Measured
    ensures measured { result.measure ≡ measure (under cards.now) expr.now }
    ensures first { (asked : Asked) → result.first ≡ first_part (λ _. slope (under cards.now)) asked expr.now }
{
    match expr {
        Expr::Num { value, place } => leaf(of_number(*value), *place),
        Expr::Name { name, place } => leaf(of_name(cards.find(name.as_slice())), *place),
        Expr::Truth { .. } => Measured {
            measure: unmeasured(),
            first: None,
        },
        Expr::Prev { name, place } => leaf(of_prev(cards.find(name.as_slice())), *place),
        Expr::Age { name, place } => leaf(of_age(cards.find(name.as_slice())), *place),
        Expr::Not { of, .. } => {
            let inner = measure_expr(cards, of.get());
            Measured {
                measure: unmeasured(),
                first: inner.first,
            }
        }
        Expr::Neg { of, place } => {
            let inner = measure_expr(cards, of.get());
            let measure = of_negation(inner.measure);
            Measured {
                measure,
                first: first_of_three(None, slope_at(*place, None, measure.size), inner.first),
            }
        }
        Expr::Two {
            op,
            left,
            right,
            place,
        } => {
            let left = measure_expr(cards, left.get());
            let right = measure_expr(cards, right.get());
            let measure = of_operator(*op, left.measure, right.measure);
            let why = operator_fault(*op, left.measure, right.measure);
            Measured {
                measure,
                first: first_of_three(left.first, slope_at(*place, why, measure.size), right.first),
            }
        }
    }
}
