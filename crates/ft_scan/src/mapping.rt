ghost use Rattle.std.specs.Prelude.{◌≡◌, ◌==◌, ◌∷◌, [], ℕ, IsTrue, length, slice_get, slice_set, Some, if◌then◌else◌};
ghost use Rattle.std.specs.List.{list_any};
ghost use Rattle.ft_core.specs.declared.tables.Section.TheVariants.{Out};
ghost use Rattle.ft_core.specs.meaning.Grids.{defines, is_for};
ghost use Rattle.ft_core.specs.meaning.Kinds.{monitored, inputs, outputs, controlled, count_of, place_of, defined_kinds, makes_image};
ghost use Rattle.ft_core.specs.meaning.Kinds.{is_of};
ghost use Rattle.ft_mean.specs.meaning.Fits.{InputMap, Maps};
ghost use Rattle.ft_mean.specs.meaning.Proper.{AllProper};
ghost use Rattle.ft_mean.specs.meaning.Reading.{IsListOf};
ghost use Rattle.ft_scan.specs.steps.Mapping.{CanMap, IsTableOf, HasTargets, IsFilled};
ghost use Rattle.ft_scan.specs.steps.Rows.{AreValues};

use crate::cells::{entry_value, open_column, value_in};
use crate::law::laws;
use crate::rows::Rows;
use ft_core::{Grid, Section, Table, Tables, VarKind, image_place};
use ft_mean::Look;

/// Puts the value of a variable at its place of a row, if the section defines it.
fn put_value(tables: &Tables, section: Section, variable: usize, value: i64, image: &mut [i64])
    requires image { IsTrue (makes_image section) }
    requires room { length image.old ≡ count_of (defined_kinds section) tables.now.vars }
    ensures { image.new ≡ if is_of tables.now.vars (defined_kinds section) variable then slice_set image.old
        (place_of (defined_kinds section) tables.now.vars variable) value else image.old }
{
    laws();
    let Some(var) = tables.vars.as_slice().get(variable) else {
        return;
    };
    if section.defines(variable, var) {
        image[image_place(tables, section, variable)] = value;
    }
}

/// Puts the value of a variable of a table into a row.
fn put_cell<L: Look>(
    tables: &Tables,
    section: Section,
    table: &Table,
    target: usize,
    look: &L,
    image: &mut [i64],
)
    requires can { CanMap tables.now section (L.view look.now) }
    requires table { IsTableOf tables.now section table.now }
    requires target { IsTrue (defines table.now.grid target) }
    requires room { length image.old ≡ count_of (defined_kinds section) tables.now.vars }
    ensures { IsFilled tables.now section (L.view look.now) (λ x. target == x) image.old image.new }
{
    laws();
    let Some(value) = value_in(&table.grid, target, look) else {
        return;
    };
    put_value(tables, section, target, value, image);
}

/// Puts the values of the rows of a vector table into a row, in the table's column that holds.
fn put_rows<L: Look>(
    tables: &Tables,
    section: Section,
    table: &Table,
    targets: &[u32],
    look: &L,
    image: &mut [i64],
)
    requires can { CanMap tables.now section (L.view look.now) }
    requires table { IsTableOf tables.now section table.now }
    requires targets { HasTargets table.now targets.now }
    requires room { length image.old ≡ count_of (defined_kinds section) tables.now.vars }
    ensures { IsFilled tables.now section (L.view look.now) (λ x. list_any (λ target. target == x) targets.now) image.old image.new }
{
    laws();
    let Some(column) = open_column(&table.grid, look) else {
        return;
    };
    for (row, target) in targets.iter().enumerate() {
        let value = entry_value(&table.grid, row, column, look);
        put_value(tables, section, *target as usize, value, image);
    }
}

/// Puts the values of the variables of a table into a row, if it is one of the section.
fn put_table<L: Look>(tables: &Tables, section: Section, table: &Table, look: &L, image: &mut [i64])
    requires can { CanMap tables.now section (L.view look.now) }
    requires table { (at : ℕ) × (slice_get tables.now.tables at ≡ Some table.now) }
    requires room { length image.old ≡ count_of (defined_kinds section) tables.now.vars }
    ensures { IsFilled tables.now section (L.view look.now) (λ x. is_for section x table.now) image.old image.new }
{
    if !table.section.is(section) {
        return;
    }
    match &table.grid {
        Grid::Normal { target, .. } => {
            put_cell(tables, section, table, *target as usize, look, image)
        }
        Grid::Inverted { target, .. } => {
            put_cell(tables, section, table, *target as usize, look, image)
        }
        Grid::Vector { targets, .. } => {
            put_rows(tables, section, table, targets.as_slice(), look, image)
        }
    }
}

/// Puts the values of all variables that the tables of a section define into a row of them, as they are at what the section
/// looks at.
fn map_row<L: Look>(tables: &Tables, section: Section, look: &L, image: &mut [i64])
    requires can { CanMap tables.now section (L.view look.now) }
    requires room { length image.old ≡ count_of (defined_kinds section) tables.now.vars }
    ensures width { length image.new ≡ length image.old }
    ensures values { AreValues tables.now section (L.view look.now) image.new }
{
    laws();
    for table in tables.tables.as_slice() {
        put_table(tables, section, table, look, image);
    }
}

/// What IN makes of a row of monitored values: the row of inputs. Both are in order of declaration. It takes no memory,
/// and time in proportion to the tables.
pub fn input_map(tables: &Tables, monitored_row: &[i64], inputs_row: &mut [i64])
    requires proper { AllProper tables.now }
    requires row { IsListOf tables.now monitored (monitored_row.now ∷ []) }
    requires room { length inputs_row.old ≡ count_of inputs tables.now.vars }
    ensures { InputMap tables.now (monitored_row.now ∷ []) (inputs_row.new ∷ []) }
{
    laws();
    let rows = Rows {
        tables,
        kind: VarKind::Mon,
        row: monitored_row,
        earlier: &[],
        begins: true,
    };
    map_row(tables, Section::In, &rows, inputs_row);
}

/// What OUT makes of a row of outputs: the row of controlled values. Both are in order of declaration. It takes no memory,
/// and time in proportion to the tables.
pub fn output_map(tables: &Tables, outputs_row: &[i64], controlled_row: &mut [i64])
    requires proper { AllProper tables.now }
    requires row { IsListOf tables.now outputs (outputs_row.now ∷ []) }
    requires room { length controlled_row.old ≡ count_of controlled tables.now.vars }
    ensures { Maps tables.now Out outputs (outputs_row.now ∷ []) (controlled_row.new ∷ []) }
{
    laws();
    let rows = Rows {
        tables,
        kind: VarKind::Output,
        row: outputs_row,
        earlier: &[],
        begins: true,
    };
    map_row(tables, Section::Out, &rows, controlled_row);
}
