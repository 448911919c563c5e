//! That the two sides differ at the last scan of a short list, and at none before it.
ghost use Rattle.std.specs.Prelude.{◌≡◌, ◌≤◌, ◌<◌, ◌-◌, map, IfOk};
ghost use Rattle.ft_claims.specs.declared.claim.Claim.TheVariants as claim;
ghost use Rattle.ft_claims.specs.meaning.Parts.{definition};
ghost use Rattle.ft_core.specs.declared.tables.Section.TheVariants as section;
ghost use Rattle.ft_oblige.specs.meaning.Lists.{defined_places, difference_parts, differs_at, list_frame};
ghost use Rattle.ft_unroll.specs.building.Defining.{AreDefinitions};

use crate::defining::Definitions;
use crate::framing::list_frame;
use crate::sides::{add_outputs, add_sides};
use crate::within::add_list;
use ft_base::{List, NoMemory};
use ft_claims::{Claim, denied};
use ft_core::{Section, Tables};
use std::alloc::Global;

// For each controlled variable that OUT doesn't give it its value at a scan.
fn denials(
    alloc: Global,
    tables: &Tables,
    definitions: &Definitions,
    scan: u32,
) -> Result<List<Claim>, NoMemory>
    requires definitions { AreDefinitions tables.now definitions.now }
    requires scan { scan < 8 }
    ensures { IfOk result (λ claims. claims ≡ map (λ x. claim.Not (definition tables.now section.Out (list_frame tables.now scan) x))
        (defined_places tables.now section.Out)) }
{
    let frame = list_frame(tables, scan);
    let mut claims = List::new(alloc);
    let places = definitions.places(tables, Section::Out);
    for variable in places {
        let same = definitions.definition(alloc, tables, Section::Out, &frame, *variable)?;
        let other = denied(alloc, same)?;
        claims.push(other)?;
    }
    Ok(claims)
}

// That OUT doesn't give some controlled variable its value at a scan.
fn differs_at(
    alloc: Global,
    tables: &Tables,
    definitions: &Definitions,
    scan: u32,
) -> Result<Claim, NoMemory>
    requires definitions { AreDefinitions tables.now definitions.now }
    requires scan { scan < 8 }
    ensures { IfOk result (λ whole. whole ≡ differs_at tables.now scan) }
{
    let claims = denials(alloc, tables, definitions, scan)?;
    Ok(Claim::Or(claims))
}

/// The parts of the formula of a difference at the last of so many scans.
pub(crate) fn difference_parts(
    alloc: Global,
    tables: &Tables,
    scans: u32,
) -> Result<List<Claim>, NoMemory>
    requires some { 1 ≤ scans }
    requires few { scans ≤ 8 }
    ensures { IfOk result (λ parts. parts ≡ difference_parts tables.now scans) }
{
    let definitions = Definitions::of(alloc, tables)?;
    let last = scans - 1;
    let differs = differs_at(alloc, tables, &definitions, last)?;
    let mut parts = List::new(alloc);
    parts.push(differs)?;
    add_outputs(alloc, tables, &definitions, last, &mut parts)?;
    add_sides(alloc, tables, &definitions, scans, &mut parts)?;
    add_list(alloc, tables, scans, &mut parts)?;
    Ok(parts)
}
