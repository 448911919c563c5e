//! The definitions of a set by the sections of their variables, found once for all scans of a list.
ghost use Rattle.std.specs.Prelude.{◌≡◌, IfOk};
ghost use Rattle.ft_claims.specs.meaning.Parts.{definition};
ghost use Rattle.ft_oblige.specs.meaning.Lists.{defined_places};
ghost use Rattle.ft_unroll.specs.building.Defining.{AreDefinitions, IsDefinedBy, defined_in};

use ft_base::{List, NoMemory};
use ft_claims::{Claim, Frame};
use ft_core::{Section, Tables};
use ft_oblige::Homes;
use std::alloc::Global;

/// The tables of a section, and the places of the variables that it defines.
#[derive(Drop)]
pub(crate) struct Defined {
    pub homes: Homes,
    pub places: List<u32>,
}

/// What each section defines.
#[derive(Drop)]
pub(crate) struct Definitions {
    pub inputs: Defined,
    pub required: Defined,
    pub designed: Defined,
    pub outputs: Defined,
}

// The places of the variables that a section defines, in order of declaration.
fn defined_places(alloc: Global, tables: &Tables, section: Section) -> Result<List<u32>, NoMemory>
    ensures { IfOk result (λ places. places ≡ defined_places tables.now section) }
{
    let mut places = List::new(alloc);
    for (place, var) in tables.vars.as_slice().iter().enumerate() {
        if section.defines(place, var) {
            places.push(place as u32)?;
        }
    }
    Ok(places)
}

fn of_section(alloc: Global, tables: &Tables, section: Section) -> Result<Defined, NoMemory>
    ensures { IfOk result (IsDefinedBy tables.now section) }
{
    let homes = Homes::of(alloc, tables, section)?;
    let places = defined_places(alloc, tables, section)?;
    Ok(Defined { homes, places })
}

impl Definitions {
    /// The definitions of a set. It takes time in proportion to the variables and the tables.
    pub fn of(alloc: Global, tables: &Tables) -> Result<Definitions, NoMemory>
        ensures { IfOk result (AreDefinitions tables.now) }
    {
        let inputs = of_section(alloc, tables, Section::In)?;
        let required = of_section(alloc, tables, Section::Req)?;
        let designed = of_section(alloc, tables, Section::Sof)?;
        let outputs = of_section(alloc, tables, Section::Out)?;
        Ok(Definitions {
            inputs,
            required,
            designed,
            outputs,
        })
    }

    fn defined(&self, section: Section) -> &Defined
        ensures { result.now ≡ defined_in section self.now }
    {
        match section {
            Section::In => &self.inputs,
            Section::Req => &self.required,
            Section::Sof => &self.designed,
            Section::Out => &self.outputs,
        }
    }

    /// The places of the variables that a section defines, in order of declaration.
    pub fn places(&self, tables: &Tables, section: Section) -> &[u32]
        requires { AreDefinitions tables.now self.now }
        ensures { result.now ≡ defined_places tables.now section }
    {
        self.defined(section).places.as_slice()
    }

    /// That a variable has the value of its table of a section.
    pub fn definition(
        &self,
        alloc: Global,
        tables: &Tables,
        section: Section,
        frame: &Frame,
        variable: u32,
    ) -> Result<Claim, NoMemory>
        requires { AreDefinitions tables.now self.now }
        ensures { IfOk result (λ whole. whole ≡ definition tables.now section frame.now variable) }
    {
        let homes = &self.defined(section).homes;
        homes.definition(alloc, tables, frame, variable)
    }
}
