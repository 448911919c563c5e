//! The definitions of variables by the tables of all sections.
ghost use Rattle.std.specs.Prelude.{◌≡◌, IfOk};
ghost use Rattle.ft_claims.specs.meaning.Parts.{definition};
ghost use Rattle.ft_oblige.specs.building.Homes.{IsHomesOf};
ghost use Rattle.ft_compose.specs.meaning.Shared.{AreDefinitions};

use ft_base::NoMemory;
use ft_claims::{Claim, Frame};
use ft_core::{Section, Tables};
use ft_oblige::Homes;
use std::alloc::Global;

/// The tables of each section by the variables that they define.
#[derive(Drop)]
pub struct Definitions {
    pub of_in: Homes,
    pub of_req: Homes,
    pub of_sof: Homes,
    pub of_out: Homes,
}

impl Definitions {
    /// The tables of each section of a set.
    pub fn of(alloc: Global, tables: &Tables) -> Result<Definitions, NoMemory>
        ensures { IfOk result (AreDefinitions tables.now) }
    {
        let of_in = Homes::of(alloc, tables, Section::In)?;
        let of_req = Homes::of(alloc, tables, Section::Req)?;
        let of_sof = Homes::of(alloc, tables, Section::Sof)?;
        let of_out = Homes::of(alloc, tables, Section::Out)?;
        Ok(Definitions {
            of_in,
            of_req,
            of_sof,
            of_out,
        })
    }
}

// That a variable has the value of its table, by the tables of a section.
fn defined_by(
    alloc: Global,
    tables: &Tables,
    section: Section,
    homes: &Homes,
    frame: &Frame,
    variable: u32,
) -> Result<Claim, NoMemory>
    requires { IsHomesOf tables.now section homes.now }
    ensures { IfOk result (λ whole. whole ≡ definition tables.now section frame.now variable) }
{
    homes.definition(alloc, tables, frame, variable)
}

/// That a variable has the value of its table of a section.
pub(crate) fn definition(
    alloc: Global,
    tables: &Tables,
    all: &Definitions,
    section: Section,
    frame: &Frame,
    variable: u32,
) -> Result<Claim, NoMemory>
    requires { AreDefinitions tables.now all.now }
    ensures { IfOk result (λ whole. whole ≡ definition tables.now section frame.now variable) }
{
    match section {
        Section::In => defined_by(alloc, tables, section, &all.of_in, frame, variable),
        Section::Req => defined_by(alloc, tables, section, &all.of_req, frame, variable),
        Section::Sof => defined_by(alloc, tables, section, &all.of_sof, frame, variable),
        Section::Out => defined_by(alloc, tables, section, &all.of_out, frame, variable),
    }
}
