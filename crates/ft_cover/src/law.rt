ghost use Rattle.ft_cover.specs.laws.ClosedLaws.{ClosedTablesAreProper};
ghost use Rattle.ft_cover.specs.laws.KeptLaws.{NamesHaveValues, SlotsAreKept, SlotsDiffer};
ghost use Rattle.ft_cover.specs.laws.Laws.{Laws};

use ft_claims::{cell_laws, cover_laws, formula_laws, point_laws, value_laws};
use ft_mean::safety_laws;
use ft_oblige::number_laws;

/// What the proofs of this crate need of the definitions of the crates below.
pub(crate) fn laws()
    ensures { Laws }
{
    safety_laws();
    cell_laws();
    cover_laws();
    formula_laws();
    point_laws();
    value_laws();
    number_laws();
}

/// The values of slots that are those of names which stand there once: two names stand for two slots, the slot of a name has the
/// value in its place, and any slot has such a value or 0.
pub fn kept_laws()
    ensures differ { SlotsDiffer }
    ensures values { NamesHaveValues }
    ensures kept { SlotsAreKept }
{}

/// Where each obligation of a table has no point, every table of the set is proper.
pub fn closed_laws()
    ensures { ClosedTablesAreProper }
{
    laws();
}
