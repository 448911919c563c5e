ghost use Rattle.ft_unroll.specs.laws.Laws.{Laws};
ghost use Rattle.ft_unroll.specs.laws.ListLaws.{PointsHaveLists, PointsAllow, ListsAreAllowed, PointsDiffer, DifferencesHavePoints};
ghost use Rattle.ft_unroll.specs.laws.NumberLaws.{NumbersAreWhole, WholesAreNumbers, NumbersDiffer, DifferencesAreNumbers};
ghost use Rattle.ft_unroll.specs.laws.ShortLaws.{AllowedOneLess, DiffersAtLast, ClosedIsShortSafe};

use ft_claims::{claim_laws, formula_laws, value_laws};
use ft_mean::{
    evaluation_laws, look_laws, memories_move, row_laws, table_laws, time_laws, trace_laws,
    whole_laws,
};
use ft_oblige::list_part_laws;

/// What the proofs of this crate need of the definitions of the crates below.
pub(crate) fn laws()
    ensures { Laws }
{
    evaluation_laws();
    table_laws();
    memories_move();
    time_laws();
    look_laws();
    row_laws();
    trace_laws();
    whole_laws();
    claim_laws();
    formula_laws();
    value_laws();
    list_part_laws();
}

/// Numbers for the names of some scans that meet both sides and the environment's clauses are a whole reading, and a whole reading
/// gives such numbers. With proper tables those that meet a difference too are a list that first differs at its last scan.
pub fn number_laws()
    ensures whole { NumbersAreWhole }
    ensures numbers { WholesAreNumbers }
    ensures differ { NumbersDiffer }
    ensures differences { DifferencesAreNumbers }
{
    laws();
}

/// The points of the formulas of lists. Some monitored list has the values of a point; each that has those of a point of the list's
/// formula is allowed, and of each that has those of a point of the difference's formula the sides first differ at the last scan.
/// So the formulas have points exactly where such lists exist.
pub fn list_laws()
    ensures lists { PointsHaveLists }
    ensures allow { PointsAllow }
    ensures allowed { ListsAreAllowed }
    ensures differ { PointsDiffer }
    ensures differences { DifferencesHavePoints }
{
    laws();
}

/// Shorter lists: an allowed list gives one of a scan less, and a list that first differs gives one that does so at its last scan.
/// Where no formula of a difference at the last of 1 to n scans has a point, no list of at most n scans shows one.
pub fn short_laws()
    ensures allowed { AllowedOneLess }
    ensures differs { DiffersAtLast }
    ensures safe { ClosedIsShortSafe }
{
    laws();
}
