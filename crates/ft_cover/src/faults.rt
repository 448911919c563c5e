//! What a point of an obligation shows of its table.
ghost use Rattle.std.specs.Prelude.{◌≡◌, ◌≤◌, ◌<◌, ◌+◌, ◌*◌, ◌∷◌, [], take, length, slice_get, Some, IfOk};
ghost use Rattle.ft_core.specs.declared.tables.Table.{Table};
ghost use Rattle.ft_core.specs.meaning.Grids.{cells};
ghost use Rattle.ft_mean.specs.judge.Safe.{KeepsSizes};
ghost use Rattle.ft_oblige.specs.declared.nodes.TableFault.TheVariants as fault;
ghost use Rattle.ft_oblige.specs.meaning.Made.{IsCoverage};
ghost use Rattle.ft_oblige.specs.meaning.Tried.{IsPointIn};
ghost use Rattle.ft_cover.specs.building.KeptView.{table_view};
ghost use Rattle.ft_cover.specs.building.Places.{places_in};
ghost use Rattle.ft_cover.specs.meaning.Covered.{IsFound};

use crate::answer::Cover;
use crate::kept::{Kept, first_values};
use crate::law::laws;
use crate::placing::{Wanted, places};
use ft_base::{List, NoMemory};
use ft_core::Tables;
use ft_oblige::{Obligation, Slot};
use std::alloc::Global;

// The places of the cells of a table that hold and are asked for where the slots have these values.
fn places_at(
    alloc: Global,
    tables: &Tables,
    table: u32,
    wanted: Wanted,
    slots: &[Slot],
    values: &[i64],
) -> Result<List<(u32, u32)>, NoMemory>
    requires table { table < length tables.now.tables }
    requires keeps { KeepsSizes tables.now.vars tables.now.memories (table_view tables.now slots.now values.now) }
    ensures { IfOk result (λ places. (its : Table) → slice_get tables.now.tables table ≡ Some its
        → places ≡ places_in tables.now.vars (table_view tables.now slots.now values.now) wanted (cells its.grid)) }
{
    laws();
    let look = Kept {
        tables,
        bits: true,
        anew: false,
        slots,
        values,
    };
    let grid = &tables.tables.get(table as usize).grid;
    let found = places(alloc, tables.vars.as_slice(), &look, wanted, grid)?;
    Ok(found)
}

fn first_two(places: &[(u32, u32)]) -> ((u32, u32), (u32, u32))
    requires { 2 ≤ length places.now }
    ensures { take 2 places.now ≡ result.0 ∷ result.1 ∷ [] }
{
    (places[0], places[1])
}

fn first_one(places: &[(u32, u32)]) -> (u32, u32)
    requires { 1 ≤ length places.now }
    ensures { take 1 places.now ≡ result ∷ [] }
{
    places[0]
}

/// At a point of its gap no cell of a table holds.
pub(crate) fn gap_at(
    alloc: Global,
    tables: &Tables,
    table: u32,
    obligation: Obligation,
    point: &[i64],
) -> Result<Cover, NoMemory>
    requires coverage { IsCoverage tables.now table fault.Gap obligation }
    requires point { IsPointIn obligation.formula obligation.area.spans point.now }
    ensures { IfOk result (IsFound tables.now (3 * table + 1)) }
{
    laws();
    let values = first_values(alloc, point, obligation.slots.len())?;
    Ok(Cover::Gap {
        table,
        values,
        labels: obligation.labels,
    })
}

/// At a point of its overlap two cells of a table hold: the first two by rows.
pub(crate) fn overlap_at(
    alloc: Global,
    tables: &Tables,
    table: u32,
    obligation: Obligation,
    point: &[i64],
) -> Result<Cover, NoMemory>
    requires table { table < length tables.now.tables }
    requires coverage { IsCoverage tables.now table fault.Overlap obligation }
    requires point { IsPointIn obligation.formula obligation.area.spans point.now }
    ensures { IfOk result (IsFound tables.now (3 * table + 2)) }
{
    laws();
    let slots = obligation.slots.as_slice();
    let values = first_values(alloc, point, slots.len())?;
    let found = places_at(
        alloc,
        tables,
        table,
        Wanted::Holding,
        slots,
        values.as_slice(),
    )?;
    let (first, second) = first_two(found.as_slice());
    Ok(Cover::Overlap {
        table,
        first,
        second,
        values,
        labels: obligation.labels,
    })
}

/// At a point of its range a cell of a table holds whose term is out of range: the first by rows.
pub(crate) fn range_at(
    alloc: Global,
    tables: &Tables,
    table: u32,
    obligation: Obligation,
    point: &[i64],
) -> Result<Cover, NoMemory>
    requires table { table < length tables.now.tables }
    requires coverage { IsCoverage tables.now table fault.Range obligation }
    requires point { IsPointIn obligation.formula obligation.area.spans point.now }
    ensures { IfOk result (IsFound tables.now (3 * table + 3)) }
{
    laws();
    let slots = obligation.slots.as_slice();
    let values = first_values(alloc, point, slots.len())?;
    let found = places_at(
        alloc,
        tables,
        table,
        Wanted::Outside,
        slots,
        values.as_slice(),
    )?;
    let cell = first_one(found.as_slice());
    Ok(Cover::OutOfRange {
        table,
        cell,
        values,
        labels: obligation.labels,
    })
}
