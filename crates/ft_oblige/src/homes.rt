//! Which table of a section defines each variable.
ghost use Rattle.std.specs.Prelude.{◌≡◌, ◌≤◌, length, IfOk};
ghost use Rattle.ft_oblige.specs.building.Homes.{AreHomes, targets_of, with_home, with_homes, with_table};

use ft_base::{List, NoMemory};
use ft_core::{Grid, Section, Table};
use std::alloc::Global;

// Puts the table of a variable at its place. A variable past the last is passed over.
fn put_home(homes: &mut List<Option<u32>>, table: u32, variable: u32)
    ensures { homes.new ≡ with_home table homes.old variable }
{
    if (variable as usize) < homes.len() {
        homes.set(variable as usize, Some(table));
    }
}

fn put_homes(homes: &mut List<Option<u32>>, table: u32, variables: &[u32])
    ensures { homes.new ≡ with_homes table homes.old variables.now }
{
    for variable in variables {
        put_home(homes, table, *variable);
    }
}

fn put_targets(homes: &mut List<Option<u32>>, table: u32, grid: &Grid)
    ensures { homes.new ≡ with_homes table homes.old (targets_of grid.now) }
{
    match grid {
        Grid::Normal { target, .. } => put_home(homes, table, *target),
        Grid::Inverted { target, .. } => put_home(homes, table, *target),
        Grid::Vector { targets, .. } => put_homes(homes, table, targets.as_slice()),
    }
}

fn put_table(homes: &mut List<Option<u32>>, section: Section, at: u32, table: &Table)
    ensures { homes.new ≡ with_table section at table.now homes.old }
{
    if table.section.is(section) {
        put_targets(homes, at, &table.grid);
    }
}

/// The table of a section for each variable, by its place. It takes time in proportion to the variables and the tables.
pub(crate) fn homes(
    alloc: Global,
    tables: &[Table],
    section: Section,
    variables: usize,
) -> Result<List<Option<u32>>, NoMemory>
    requires { length tables.now ≤ 400 }
    ensures { IfOk result (AreHomes tables.now section variables (length tables.now)) }
{
    let mut homes = List::from_vec(Vec::from_elem(alloc, None, variables)?);
    for (at, table) in tables.iter().enumerate() {
        put_table(&mut homes, section, at as u32, table);
    }
    Ok(homes)
}
