ghost use Rattle.ft_claims.specs.laws.ClaimLaws.{TermsSay, ConditionsSay, CellsSay, DefinitionsSay, MovesSay, LinksSay};
ghost use Rattle.ft_claims.specs.laws.CoverLaws.{NodesSay, MetIsShown, ShownIsMet, ProperShowsNone, ProperIsUnmet};
ghost use Rattle.ft_claims.specs.laws.FormulaLaws.{PointsTell, NumbersMakePoints, TrueAlike, SettledAlike};
ghost use Rattle.ft_claims.specs.laws.Laws.{Laws};
ghost use Rattle.ft_claims.specs.laws.PointLaws.{CoverIsGood, PointsAreLocal, PointsShow, ShownHasPoint, ProperHasNoPoint};

use ft_mean::{evaluation_laws, table_laws};
use ft_settle::settling_law;

/// What is claimed of numbered names says what terms, conditions, tables and memories mean at the view that the numbers tell.
pub fn claim_laws()
    ensures terms { TermsSay }
    ensures conditions { ConditionsSay }
    ensures cells { CellsSay }
    ensures definitions { DefinitionsSay }
    ensures moves { MovesSay }
    ensures links { LinksSay }
{}

/// The three claims of a table, with the links of the memories that it reads: each is true exactly where the table shows its
/// fault, numbers that meet one tell a local view at which it does, and each such view is told by such numbers. So the table
/// is proper exactly where no numbers meet any of the three.
pub fn cover_laws()
    ensures nodes { NodesSay }
    ensures met_shown { MetIsShown }
    ensures shown_met { ShownIsMet }
    ensures proper_shows_none { ProperShowsNone }
    ensures proper_unmet { ProperIsUnmet }
{
    laws();
}

/// The three formulas of a table's coverage. Each name in them has a span. Some local view has the values of a point, and at every view that has them the
/// table shows the fault; where it shows the fault at a local view there is a point. So the table is proper exactly where
/// none of the three has a point.
pub fn point_laws()
    ensures good { CoverIsGood }
    ensures local { PointsAreLocal }
    ensures show { PointsShow }
    ensures has_point { ShownHasPoint }
    ensures proper { ProperHasNoPoint }
{
    laws();
}

/// What the proofs of this crate need of the definitions of the crates below.
pub(crate) fn laws()
    ensures { Laws }
{
    evaluation_laws();
    table_laws();
}

/// The two laws between claims and formulas: a point tells that each part is true for all numbers that have its values at the names,
/// and numbers in their spans at which each part is true make a point. Parts are true alike at numbers that agree on these names.
/// Settling the formula changes no truth.
pub fn formula_laws()
    ensures points { PointsTell }
    ensures numbers { NumbersMakePoints }
    ensures alike { TrueAlike }
    ensures settled { SettledAlike }
{
    settling_law();
}
