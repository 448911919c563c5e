ghost use Rattle.std.specs.Prelude.{◌≡◌};
ghost use Rattle.ft_names.specs.meaning.Cards.{cards_of, under};
ghost use Rattle.ft_names.specs.meaning.First.{Answers};
ghost use Rattle.ft_measure.specs.meaning.SlopeFaults.{first_slope, slope_in, slope_spot};

use crate::measuring::measure_expr;
use crate::slope::Slope;
use ft_names::{Cards, Judge, Role, Site, Stop, judge_set};
use ft_tree::{Bound, Expr, Kind, Tree, Word};

/// The test for terms that aren't linear.
#[derive(Drop)]
pub struct Slopes<'c> {
    pub cards: &'c Cards,
}

// The slope that was found, where there is one.
fn found(first: Option<Slope>) -> Result<(), Stop<Slope>>
    ensures { Answers result first }
{
    match first {
        Some(slope) => Err(Stop::Fault(slope)),
        None => Ok(()),
    }
}

impl<'c> Slopes<'c> {
    // The first part of an expression that isn't linear.
    fn judge(&self, expr: &Expr) -> Result<(), Stop<Slope>>
        ensures { Answers result (slope_in (under self.now.cards.now) expr.now) }
    {
        found(measure_expr(self.cards, expr).first)
    }
}

impl<'c> Judge for Slopes<'c> {
    type Fault = Slope;

    ghost use Rattle.ft_names.specs.meaning.Cards.{under};
    ghost use Rattle.ft_measure.specs.meaning.SlopeFaults.{slope_spot};

    ghost test = { λ s. slope_spot (under s.cards.now) };

    fn named(&self, _role: Role, _word: &Word) -> Result<(), Stop<Slope>> {
        Ok(())
    }

    fn bound(&self, _value: &Bound) -> Result<(), Stop<Slope>> {
        Ok(())
    }

    fn initial(&self, _of: &Kind, _value: &Bound) -> Result<(), Stop<Slope>> {
        Ok(())
    }

    fn condition(&self, _site: Site, expr: &Expr) -> Result<(), Stop<Slope>> {
        self.judge(expr)
    }

    fn number(&self, _site: Site, expr: &Expr) -> Result<(), Stop<Slope>> {
        self.judge(expr)
    }

    fn term_for(&self, _site: Site, _word: &Word, expr: &Expr) -> Result<(), Stop<Slope>> {
        self.judge(expr)
    }
}

/// Looks for the first place of a tree where a term isn't linear: in tables, memories, clauses on the environment and
/// invariants, in the order of the text.
pub fn judge_slopes(cards: &Cards, tree: &Tree) -> Result<(), Stop<Slope>>
    requires { cards.now ≡ cards_of tree.now.items }
    ensures answers { Answers result (first_slope tree.now.items) }
{
    judge_set(&Slopes { cards }, tree.items.as_slice())
}
