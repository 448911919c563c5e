ghost use Rattle.ft_compose.specs.laws.CompositionLaws.{BlocksCompose, ShownBlocksCompose, ClosedBlocksCompose, FaultlessCompose};
ghost use Rattle.ft_compose.specs.laws.DecidingLaws.{DecidingLaws};
ghost use Rattle.ft_compose.specs.laws.FailureLaws.{PointsAreStates, PointsFail, StatesMakePoints, FailsIsFalse, FailingIsOpen, ToldCellsAlike};
ghost use Rattle.ft_compose.specs.laws.Laws.{Laws};

use ft_claims::{cell_laws, claim_laws, formula_laws, good_laws, point_laws, value_laws};
use ft_core::order_gives_rank;
use ft_cover::kept_laws;
use ft_mean::{
    evaluation_laws, memories_move, one_image, one_trace, safety_laws, table_laws, whole_laws,
};
use ft_oblige::{number_laws, part_laws};

/// What the proofs of this crate need of the definitions of the crates below.
pub(crate) fn laws()
    ensures { Laws }
{
    evaluation_laws();
    table_laws();
    memories_move();
    one_trace();
    one_image();
    whole_laws();
    claim_laws();
    good_laws();
    formula_laws();
    value_laws();
    number_laws();
    part_laws();
}

/// What the proofs of the search for a failing fact need of them.
pub(crate) fn deciding_laws()
    ensures { DecidingLaws }
{
    laws();
    order_gives_rank();
    evaluation_laws();
    safety_laws();
    table_laws();
    cell_laws();
    formula_laws();
    point_laws();
    number_laws();
    kept_laws();
}

/// Facts that hold over any two scans by themselves hold along every allowed list, and the design implements the requirement:
/// inside a scan by the rank of the blocks, and from scan to scan. Of a scan that begins nothing earlier is known.
pub fn blocks_compose()
    ensures { BlocksCompose }
{
    laws();
}

/// Where the tables are proper, each controlled variable is a goal, blocks use facts of blocks of a lower rank, and no formula of
/// a fact has a point, the design implements the requirement, and every invariant holds at every scan of every allowed list.
pub fn shown_blocks_compose()
    ensures { ShownBlocksCompose }
{
    laws();
}

/// The same by the numbers of obligations: where none above those of tables has a point.
pub fn closed_blocks_compose()
    ensures { ClosedBlocksCompose }
{
    laws();
}

/// The same of a set whose blocks have no fault: where every table is proper and no obligation has a point, the design implements the
/// requirement, and every invariant holds at every scan of every allowed list.
pub fn faultless_compose()
    ensures { FaultlessCompose }
{
    laws();
}

/// The points of the formula of a fact and the states at which the diagram fails. A point has the values of a state, and at every
/// state that has them it fails; each state at which it fails makes a point. There the fact is false, and each cell that the point
/// tells holds at all such states or at none. Where a fact is told to fail, its obligation isn't closed.
pub fn failure_laws()
    ensures states { PointsAreStates }
    ensures fail { PointsFail }
    ensures points { StatesMakePoints }
    ensures is_false { FailsIsFalse }
    ensures cells { ToldCellsAlike }
    ensures open { FailingIsOpen }
{
    laws();
}
