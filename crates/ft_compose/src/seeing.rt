//! The cells of the tables of a goal that hold at the values of a point.
ghost use Rattle.std.specs.Prelude.{◌≡◌, false, length, IfOk};
ghost use Rattle.std.specs.List.{find};
ghost use Rattle.ft_core.specs.declared.tables.Section.TheVariants as section;
ghost use Rattle.ft_core.specs.declared.tables.Var.{Var};
ghost use Rattle.ft_core.specs.meaning.Grids.{cells};
ghost use Rattle.ft_core.specs.meaning.Kinds.{controlled, defined_kinds};
ghost use Rattle.ft_mean.specs.judge.Safe.{IsSafeGrid, KeepsSizes};
ghost use Rattle.ft_mean.specs.meaning.Reading.{IsVar};
ghost use Rattle.ft_oblige.specs.building.Homes.{IsHomesOf};
ghost use Rattle.ft_oblige.specs.meaning.Blocks.{now_frame};
ghost use Rattle.ft_oblige.specs.meaning.States.{slot_spans};
ghost use Rattle.ft_cover.specs.building.KeptView.{kept_view};
ghost use Rattle.ft_cover.specs.building.Places.{places_in};
ghost use Rattle.ft_cover.specs.declared.placing.Wanted.TheVariants.{Holding};
ghost use Rattle.ft_compose.specs.building.Deciding.{AreGoodAt, home_in, is_told_at};
ghost use Rattle.ft_compose.specs.meaning.Decided.{first_seen};
ghost use Rattle.ft_compose.specs.meaning.Shared.{AreDefinitions};

use crate::blocks::Cells;
use crate::definitions::Definitions;
use crate::frames::now_frame;
use crate::law::deciding_laws;
use crate::telling::first_told;
use ft_base::{List, NoMemory, Span};
use ft_core::{Grid, Section, Tables};
use ft_cover::{Kept, Wanted, places};
use ft_oblige::{Homes, Slot};
use std::alloc::Global;

// The first cell of a table for a variable that holds at the values and is told, by rows.
fn first_in(
    alloc: Global,
    tables: &Tables,
    anew: bool,
    slots: &[Slot],
    values: &[i64],
    spans: &[Span],
    names: &[u32],
    variable: u32,
    grid: &Grid,
) -> Result<Option<(u32, u32)>, NoMemory>
    requires safe { IsSafeGrid (kept_view tables.now false anew slots.now values.now) grid.now }
    requires good { AreGoodAt tables.now (now_frame tables.now anew) spans.now variable grid.now
        (places_in tables.now.vars (kept_view tables.now false anew slots.now values.now) Holding (cells grid.now)) }
    ensures { IfOk result (λ first. first ≡ find
        (is_told_at tables.now (now_frame tables.now anew) (length spans.now) variable names.now grid.now)
        (places_in tables.now.vars (kept_view tables.now false anew slots.now values.now) Holding (cells grid.now))) }
{
    let look = Kept {
        tables,
        bits: false,
        anew,
        slots,
        values,
    };
    let frame = now_frame(tables, anew);
    let held = places(alloc, tables.vars.as_slice(), &look, Wanted::Holding, grid)?;
    let found = held.as_slice();
    let first = first_told(alloc, tables, &frame, spans, names, variable, grid, found)?;
    Ok(first)
}

// The place of the table of a variable, where one stands there.
fn home_of(homes: &[Option<u32>], variable: u32) -> Option<u32>
    ensures { result ≡ home_in homes.now variable }
{
    match homes.get(variable as usize) {
        Some(home) => *home,
        None => None,
    }
}

// The first cell of the tables of a section for a variable that holds at the values and is told, by rows.
fn first_seen(
    alloc: Global,
    tables: &Tables,
    section: Section,
    homes: &Homes,
    anew: bool,
    slots: &[Slot],
    values: &[i64],
    spans: &[Span],
    names: &[u32],
    variable: u32,
) -> Result<Option<(u32, u32)>, NoMemory>
    requires homes { IsHomesOf tables.now section homes.now }
    requires there { (v : Var) × IsVar tables.now (defined_kinds section) variable v }
    requires keeps { KeepsSizes tables.now.vars tables.now.memories (kept_view tables.now false anew slots.now values.now) }
    requires spans { spans.now ≡ slot_spans tables.now }
    ensures { IfOk result (λ first. first_seen tables.now section variable anew names.now
        (kept_view tables.now false anew slots.now values.now) ≡ first) }
{
    deciding_laws();
    match home_of(homes.tables.as_slice(), variable) {
        Some(home) => {
            let grid = &tables.tables.get(home as usize).grid;
            let first = first_in(
                alloc, tables, anew, slots, values, spans, names, variable, grid,
            )?;
            Ok(first)
        }
        None => Ok(None),
    }
}

/// The first cells of the REQ and of the OUT table of a controlled variable that hold at the values and are told, by rows.
pub(crate) fn goal_cells(
    alloc: Global,
    tables: &Tables,
    all: &Definitions,
    anew: bool,
    slots: &[Slot],
    values: &[i64],
    spans: &[Span],
    names: &[u32],
    variable: u32,
) -> Result<Cells, NoMemory>
    requires all { AreDefinitions tables.now all.now }
    requires there { (v : Var) × IsVar tables.now controlled variable v }
    requires keeps { KeepsSizes tables.now.vars tables.now.memories (kept_view tables.now false anew slots.now values.now) }
    requires spans { spans.now ≡ slot_spans tables.now }
    ensures req { IfOk result (λ cells. first_seen tables.now section.Req variable anew names.now
        (kept_view tables.now false anew slots.now values.now) ≡ cells.req) }
    ensures out { IfOk result (λ cells. first_seen tables.now section.Out variable anew names.now
        (kept_view tables.now false anew slots.now values.now) ≡ cells.out) }
{
    let req = first_seen(
        alloc,
        tables,
        Section::Req,
        &all.of_req,
        anew,
        slots,
        values,
        spans,
        names,
        variable,
    )?;
    let out = first_seen(
        alloc,
        tables,
        Section::Out,
        &all.of_out,
        anew,
        slots,
        values,
        spans,
        names,
        variable,
    )?;
    Ok(Cells { req, out })
}
