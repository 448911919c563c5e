ghost use Rattle.std.specs.Prelude.{◌≡◌, ◌≤◌, ◌<◌, ◌+◌, ◌^◌, length, IfOk};
ghost use Rattle.ft_search.specs.searching.Sizes.{nodes_for, steps_for};
ghost use Rattle.ft_search.specs.searching.Space.{IsFreshFor, IsRoomFor};

use crate::budget::budget;
use crate::kept::KeptNode;
use crate::sweeping::Sweep;
use ft_base::{NoMemory, Span};
use ft_cert::Descent;
use ft_diff::{Diff, DiffRoom, open_lines};
use ft_linear::{Area, Formula, Marks};
use ft_pool::Pool;
use std::alloc::Global;

/// The room in which parts are judged.
#[derive(Drop)]
pub(crate) struct Judging {
    pub(crate) marks: Marks,
    pub(crate) lines: Vec<Diff>,
    pub(crate) numbers: DiffRoom,
    pub(crate) point: Vec<i64>,
    pub(crate) sweep: Sweep,
}

/// Room for a value of each unknown.
fn open_point(alloc: Global, spans: &[Span]) -> Result<Vec<i64>, NoMemory>
    ensures { IfOk result (λ point. length point.items ≡ length spans.now) }
{
    let mut point = Vec::new(alloc);
    for span in spans {
        point.push(span.lo())?;
    }
    Ok(point)
}

impl Judging {
    fn open(
        alloc: Global,
        formula: &Formula,
        area: &Area,
        unknowns: u32,
    ) -> Result<Judging, NoMemory>
        requires atoms { length formula.now.atoms < 2 ^ 32 }
        requires unknowns { unknowns ≡ length area.now.spans }
        ensures { IfOk result (IsRoomFor formula.now unknowns) }
    {
        Ok(Judging {
            marks: Marks::open(alloc, formula)?,
            lines: open_lines(alloc, formula)?,
            numbers: DiffRoom::open(alloc, unknowns, 0)?,
            point: open_point(alloc, area.spans.as_slice())?,
            sweep: Sweep::open(alloc, formula, area, 2 * unknowns as usize + 16)?,
        })
    }
}

/// All that a search needs. It is taken once, and no byte of it is written before it is used, but for what one part of the area takes.
#[derive(Drop)]
pub struct Room {
    pub(crate) judging: Judging,
    pub(crate) descent: Descent,
    pub(crate) nodes: Pool<KeptNode>,
    pub(crate) splits: u32,
    pub(crate) budget: u32,
    pub(crate) strict: bool,
}

/// Room for the steps of so many splits, and for a last one for each unknown.
fn steps_for(budget: u32, unknowns: u32) -> usize
    requires { budget ≤ 200000 }
    ensures { result ≡ steps_for budget + unknowns }
{
    11 * budget as usize + 4096 + unknowns as usize
}

/// Room for the nodes of so many splits.
fn nodes_for(budget: u32) -> usize
    requires { budget ≤ 200000 }
    ensures { result ≡ nodes_for budget }
{
    12 * budget as usize + 4098
}

impl Room {
    fn open_as(
        alloc: Global,
        formula: &Formula,
        area: &Area,
        splits: u32,
        strict: bool,
    ) -> Result<Room, NoMemory>
        requires { splits ≤ 200000 }
        ensures fresh { IfOk result (IsFreshFor formula.now area.now.spans) }
        ensures splits { IfOk result (λ room. room.splits ≡ splits) }
    {
        let spans = area.spans.as_slice();
        let Ok(unknowns) = u32::try_from(spans.len()) else {
            return Err(NoMemory);
        };
        let Ok(atoms) = u32::try_from(formula.atoms().len()) else {
            return Err(NoMemory);
        };
        let budget = budget(spans, atoms, splits);
        Ok(Room {
            judging: Judging::open(alloc, formula, area, unknowns)?,
            descent: Descent::open(alloc, formula, area, steps_for(budget, unknowns))?,
            nodes: Pool::open(alloc, nodes_for(budget))?,
            splits,
            budget,
            strict,
        })
    }

    /// Room for a search of this formula in this area with so many splits. Since atoms and unknowns are numbered by u32, it is
    /// `NoMemory` for more of them. Where fewer splits are all that any search of them can use, it takes room for these alone.
    pub fn open(
        alloc: Global,
        formula: &Formula,
        area: &Area,
        splits: u32,
    ) -> Result<Room, NoMemory>
        requires { splits ≤ 200000 }
        ensures fresh { IfOk result (IsFreshFor formula.now area.now.spans) }
        ensures splits { IfOk result (λ room. room.splits ≡ splits) }
    {
        Room::open_as(alloc, formula, area, splits, false)
    }

    /// The same for a search that tries no point before it splits: it answers a point where it stands at a part each point of which
    /// is one, and nowhere else.
    pub fn open_strict(
        alloc: Global,
        formula: &Formula,
        area: &Area,
        splits: u32,
    ) -> Result<Room, NoMemory>
        requires { splits ≤ 200000 }
        ensures fresh { IfOk result (IsFreshFor formula.now area.now.spans) }
        ensures splits { IfOk result (λ room. room.splits ≡ splits) }
    {
        Room::open_as(alloc, formula, area, splits, true)
    }
}
