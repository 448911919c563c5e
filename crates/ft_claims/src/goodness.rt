ghost use Rattle.ft_claims.specs.laws.GoodLaws.{ConditionsGood, CellsGood, DefinitionsGood, MovesGood, NegationsGood, ConjunctionsGood};

use ft_mean::table_laws;

/// The claims of conditions, cells, tables and memories of a checked set have names of the two scans that they are about, and positive
/// divisors; and so have negations and conjunctions of such claims.
pub fn good_laws()
    ensures conditions { ConditionsGood }
    ensures cells { CellsGood }
    ensures definitions { DefinitionsGood }
    ensures moves { MovesGood }
    ensures negations { NegationsGood }
    ensures conjunctions { ConjunctionsGood }
{
    table_laws();
}
