ghost use Rattle.std.specs.Prelude.{◌≡◌, ◌≤◌, ℕ, length, slice_set, Some, IfOk};
ghost use Rattle.ft_scan.specs.steps.Homes.{AreHomes, PutsHomes, PutsRowHomes};

use ft_base::{List, NoMemory};
use ft_core::{Grid, Section, Table};
use std::alloc::Global;

/// Where a variable is defined.
#[derive(Clone, Copy, Drop)]
pub(crate) enum Home {
    /// By a whole table, normal or inverted.
    Whole { table: u32 },
    /// By a row of a vector table.
    Row { table: u32, row: usize },
}

/// Puts where a variable is defined at its place. A place past the last variable is passed over.
fn put_home(homes: &mut List<Option<Home>>, variable: u32, home: Home)
    ensures { homes.new ≡ slice_set homes.old variable (Some home) }
{
    if (variable as usize) < homes.len() {
        homes.set(variable as usize, Some(home));
    }
}

/// Puts the homes of the variables that the rows of a vector table define.
fn put_row_homes(homes: &mut List<Option<Home>>, table: u32, targets: &[u32])
    ensures { PutsRowHomes table targets.now (length targets.now) homes.old homes.new }
{
    'rows: for (row, target) in targets.iter().enumerate() {
        put_home(homes, *target, Home::Row { table, row });
    }
}

/// Puts the homes of the variables that a table defines.
fn put_table_homes(homes: &mut List<Option<Home>>, table: u32, grid: &Grid)
    ensures { PutsHomes table grid.now homes.old homes.new }
{
    match grid {
        Grid::Normal { target, .. } => put_home(homes, *target, Home::Whole { table }),
        Grid::Inverted { target, .. } => put_home(homes, *target, Home::Whole { table }),
        Grid::Vector { targets, .. } => put_row_homes(homes, table, targets.as_slice()),
    }
}

/// Where the tables of a section define each variable, by its place. A target past the last variable is passed over.
pub(crate) fn homes(
    alloc: Global,
    tables: &[Table],
    section: Section,
    variables: usize,
) -> Result<List<Option<Home>>, NoMemory>
    requires few { length tables.now ≤ 400 }
    ensures long { IfOk result (λ homes. length homes ≡ variables) }
    ensures homes { IfOk result (AreHomes tables.now section (length tables.now)) }
{
    let mut homes = List::from_vec(Vec::from_elem(alloc, None, variables)?);
    'tables: for (at, table) in tables.iter().enumerate() {
        if table.section.is(section) {
            put_table_homes(&mut homes, at as u32, &table.grid);
        }
    }
    Ok(homes)
}
