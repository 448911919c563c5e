// What a search has counted, and what that allows it.

ghost use Rattle.std.specs.Prelude.{◌≡◌, ◌<◌, ◌≤◌, ◌+◌, IsTrue, nat_lt};
ghost use Rattle.ft_search.specs.meaning.Spent.{enough_for};
ghost use Rattle.ft_search.specs.searching.Sizes.{others_for};
ghost use Rattle.ft_search.specs.searching.Turn.{halvings_by, splits_by, tightens_by};

use crate::turns::Turn;
use ft_cert::Step;

/// The splits, the nodes that leave an unknown at most half of its values, and all nodes that tighten one.
#[derive(Clone, Copy, Drop)]
pub(crate) struct Counts {
    pub(crate) used: u32,
    pub(crate) halved: u32,
    pub(crate) tight: u32,
}

/// Which tightenings there is room for.
#[derive(Clone, Copy, Drop)]
pub(crate) struct Allowed {
    /// Such as leave an unknown at most half of its values, which a split may not pass over.
    pub(crate) halving: bool,
    /// Any.
    pub(crate) others: bool,
}

/// After so many nodes that halve an unknown none is asked for.
fn enough_for(budget: u32) -> u32
    requires { budget ≤ 200000 }
    ensures { result ≡ enough_for budget }
{
    2 * budget + 96
}

/// How many tightenings there may be beside those.
fn others_for(budget: u32) -> u32
    requires { budget ≤ 200000 }
    ensures { result ≡ others_for budget }
{
    8 * budget + 4000
}

fn splits_by(step: Step) -> u32
    ensures { result ≡ splits_by step }
{
    match step {
        Step::Close => 0,
        Step::Cut { .. } => 1,
        Step::Decide { .. } => 1,
        Step::Tighten { .. } => 0,
    }
}

fn tightens_by(step: Step) -> u32
    ensures { result ≡ tightens_by step }
{
    match step {
        Step::Close => 0,
        Step::Cut { .. } => 0,
        Step::Decide { .. } => 0,
        Step::Tighten { .. } => 1,
    }
}

impl Counts {
    /// Before any node.
    pub(crate) const NONE: Counts = Counts {
        used: 0,
        halved: 0,
        tight: 0,
    };

    /// With one node more.
    pub(crate) fn with(&self, turn: &Turn) -> Counts
        requires used { self.now.used < 10000000 }
        requires halved { self.now.halved < 10000000 }
        requires tight { self.now.tight < 10000000 }
        ensures used { result.used ≡ self.now.used + splits_by turn.now.step }
        ensures halved { result.halved ≡ self.now.halved + halvings_by turn.now.halves }
        ensures tight { result.tight ≡ self.now.tight + tightens_by turn.now.step }
    {
        Counts {
            used: self.used + splits_by(turn.step),
            halved: self.halved + u32::from(turn.halves),
            tight: self.tight + tightens_by(turn.step),
        }
    }

    /// How many more tightenings of any kind there is room for in a search of so many splits.
    pub(crate) fn left(&self, budget: u32) -> u32
        requires budget { budget ≤ 200000 }
        requires halved { self.now.halved < 10000000 }
        requires by_halved { self.now.tight ≤ self.now.halved + others_for budget }
        requires limit { self.now.tight ≤ enough_for budget + others_for budget }
        ensures by_halved { result + self.now.tight ≤ self.now.halved + others_for budget }
        ensures limit { result + self.now.tight ≤ enough_for budget + others_for budget }
    {
        let most = self.halved.min(enough_for(budget)) + others_for(budget);
        most - self.tight
    }

    /// What these counts allow a search of so many splits.
    pub(crate) fn allowed(&self, budget: u32) -> Allowed
        requires budget { budget ≤ 200000 }
        requires halved { self.now.halved < 10000000 }
        ensures halving { result.halving ≡ nat_lt self.now.halved (enough_for budget) }
        ensures by_halved { IsTrue result.others → self.now.tight < self.now.halved + others_for budget }
        ensures limit { IsTrue result.others → self.now.tight < enough_for budget + others_for budget }
    {
        let enough = enough_for(budget);
        let others = others_for(budget);
        Allowed {
            halving: self.halved < enough,
            others: self.tight < self.halved + others && self.tight < enough + others,
        }
    }
}
