//! Both sides over the scans of a short list.
ghost use Rattle.std.specs.Prelude.{◌≡◌, ◌≤◌, ◌<◌, ◌++◌, OnOk};
ghost use Rattle.ft_oblige.specs.meaning.Lists.{by_scan, definitions_at, moves_at, sides_at};
ghost use Rattle.ft_core.specs.declared.tables.Section.TheVariants as section;
ghost use Rattle.ft_unroll.specs.building.Defining.{AreDefinitions};

use crate::defining::Definitions;
use crate::framing::list_frame;
use ft_base::{List, NoMemory};
use ft_claims::Claim;
use ft_core::{Section, Tables};
use ft_oblige::move_of;
use std::alloc::Global;

// Adds the definitions of a section at a scan.
fn add_definitions(
    alloc: Global,
    tables: &Tables,
    definitions: &Definitions,
    section: Section,
    scan: u32,
    parts: &mut List<Claim>,
) -> Result<(), NoMemory>
    requires definitions { AreDefinitions tables.now definitions.now }
    requires scan { scan < 8 }
    ensures { OnOk result (parts.new ≡ parts.old ++ definitions_at tables.now section scan) }
{
    let frame = list_frame(tables, scan);
    let places = definitions.places(tables, section);
    for variable in places {
        let claim = definitions.definition(alloc, tables, section, &frame, *variable)?;
        parts.push(claim)?;
    }
    Ok(())
}

// Adds the moves of all memories at a scan.
fn add_moves(
    alloc: Global,
    tables: &Tables,
    scan: u32,
    parts: &mut List<Claim>,
) -> Result<(), NoMemory>
    requires { scan < 8 }
    ensures { OnOk result (parts.new ≡ parts.old ++ moves_at tables.now scan) }
{
    let frame = list_frame(tables, scan);
    for place in 0..tables.memories.len() {
        parts.push(move_of(alloc, tables, &frame, place as u32)?)?;
    }
    Ok(())
}

// Adds both sides at a scan.
fn add_sides_at(
    alloc: Global,
    tables: &Tables,
    definitions: &Definitions,
    scan: u32,
    parts: &mut List<Claim>,
) -> Result<(), NoMemory>
    requires definitions { AreDefinitions tables.now definitions.now }
    requires scan { scan < 8 }
    ensures { OnOk result (parts.new ≡ parts.old ++ sides_at tables.now scan) }
{
    add_definitions(alloc, tables, definitions, Section::Req, scan, parts)?;
    add_definitions(alloc, tables, definitions, Section::Sof, scan, parts)?;
    add_definitions(alloc, tables, definitions, Section::In, scan, parts)?;
    add_moves(alloc, tables, scan, parts)
}

/// Adds both sides at so many scans.
pub(crate) fn add_sides(
    alloc: Global,
    tables: &Tables,
    definitions: &Definitions,
    scans: u32,
    parts: &mut List<Claim>,
) -> Result<(), NoMemory>
    requires definitions { AreDefinitions tables.now definitions.now }
    requires scans { scans ≤ 8 }
    ensures { OnOk result (parts.new ≡ parts.old ++ by_scan (sides_at tables.now) scans) }
{
    for scan in 0..scans {
        add_sides_at(alloc, tables, definitions, scan, parts)?;
    }
    Ok(())
}

/// Adds that OUT gives each controlled variable its value at so many scans.
pub(crate) fn add_outputs(
    alloc: Global,
    tables: &Tables,
    definitions: &Definitions,
    scans: u32,
    parts: &mut List<Claim>,
) -> Result<(), NoMemory>
    requires definitions { AreDefinitions tables.now definitions.now }
    requires scans { scans ≤ 8 }
    ensures { OnOk result (parts.new ≡ parts.old ++ by_scan (definitions_at tables.now section.Out) scans) }
{
    for scan in 0..scans {
        add_definitions(alloc, tables, definitions, Section::Out, scan, parts)?;
    }
    Ok(())
}
