ghost use Rattle.std.specs.Prelude.{length, IfOk};
ghost use Rattle.ft_check.specs.checking.Room.{IsRoomFor};

use ft_base::NoMemory;
use ft_diff::{Diff, DiffRoom, open_lines};
use ft_linear::{Area, Formula, Marks, SumRoom};
use std::alloc::Global;

/// The room in which nodes are judged, taken once for a formula and an area.
#[derive(Drop)]
pub(crate) struct CheckRoom {
    pub(crate) marks: Marks,
    pub(crate) lines: Vec<Diff>,
    pub(crate) numbers: DiffRoom,
    pub(crate) sums: SumRoom,
}

impl CheckRoom {
    /// Room for the parts of this area. Since unknowns are numbered by u32, no formula reaches more of them than that; for an area
    /// of more spans it is `NoMemory`.
    pub(crate) fn open(alloc: Global, formula: &Formula, area: &Area) -> Result<CheckRoom, NoMemory>
        ensures { IfOk result (IsRoomFor formula.now (length area.now.spans)) }
    {
        let Ok(unknowns) = u32::try_from(area.spans.len()) else {
            return Err(NoMemory);
        };
        Ok(CheckRoom {
            marks: Marks::open(alloc, formula)?,
            lines: open_lines(alloc, formula)?,
            numbers: DiffRoom::open(alloc, unknowns, 0)?,
            sums: SumRoom::open(alloc, area.spans.len())?,
        })
    }
}
