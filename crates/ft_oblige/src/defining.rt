//! That a variable has the value of its table.
ghost use Rattle.std.specs.Prelude.{◌≡◌, IfOk};
ghost use Rattle.std.specs.Option.{option_map};
ghost use Rattle.ft_claims.specs.meaning.Parts.{definition};
ghost use Rattle.ft_oblige.specs.building.Homes.{IsHomesOf, home_table};

use crate::homes::homes;
use crate::stating::About;
use crate::walking::grid_claims;
use ft_base::{List, NoMemory};
use ft_claims::{Claim, Frame};
use ft_core::{Section, Table, Tables};
use ft_mean::table_laws;
use std::alloc::Global;

/// The tables of a section by the variables that they define.
#[derive(Drop)]
pub struct Homes {
    pub section: Section,
    /// At the place of each variable the place of its table, where it has one.
    pub tables: List<Option<u32>>,
}

// The table of a variable.
fn home_table<'t>(tables: &'t [Table], homes: &[Option<u32>], variable: u32) -> Option<&'t Table>
    ensures { option_map (λ table. table.now) result ≡ home_table tables.now homes.now variable }
{
    match homes.get(variable as usize) {
        Some(Some(home)) => tables.get(*home as usize),
        Some(None) => None,
        None => None,
    }
}

impl Homes {
    /// The tables of a section. It takes time in proportion to the variables and the tables of the set.
    pub fn of(alloc: Global, tables: &Tables, section: Section) -> Result<Homes, NoMemory>
        ensures { IfOk result (IsHomesOf tables.now section) }
    {
        let places = homes(alloc, tables.tables.as_slice(), section, tables.vars.len())?;
        Ok(Homes {
            section,
            tables: places,
        })
    }

    /// That a variable has the value of its table of the section. It takes time in proportion to that table alone.
    pub fn definition(
        &self,
        alloc: Global,
        tables: &Tables,
        frame: &Frame,
        variable: u32,
    ) -> Result<Claim, NoMemory>
        requires { IsHomesOf tables.now self.now.section self.now }
        ensures { IfOk result (λ whole. whole ≡ definition tables.now self.now.section frame.now variable) }
    {
        table_laws();
        match home_table(tables.tables.as_slice(), self.tables.as_slice(), variable) {
            Some(table) => {
                let cells = grid_claims(
                    alloc,
                    tables,
                    frame,
                    About::Defines(variable),
                    &table.grid,
                )?;
                Ok(Claim::Or(cells))
            }
            None => Ok(Claim::Or(List::new(alloc))),
        }
    }
}
