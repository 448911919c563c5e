ghost use Rattle.ft_oblige.specs.laws.PartLaws.{Goods, PartsAreGood, OthersAreGood, SlotsAreNames, SlotsHaveSome, SlotsAreSpans};

use ft_claims::good_laws;

/// What the proofs of this crate need of the claims that parts are made of.
pub(crate) fn goods()
    ensures { Goods }
{
    good_laws();
}

/// The parts of the formula of a fact have names of two scans, each of which has a span with some number in it, and positive
/// divisors. Numbers are in their spans name by name exactly where they are in the area of all names.
pub fn part_laws()
    ensures good { PartsAreGood }
    ensures others { OthersAreGood }
    ensures names { SlotsAreNames }
    ensures some { SlotsHaveSome }
    ensures spans { SlotsAreSpans }
{
    goods();
}
