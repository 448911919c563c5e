ghost use Rattle.std.specs.Prelude.{◌≡◌, ◌<◌, ℕ, [], false, replicate, length, Some, IsTrue, IfOk, OnOk};
ghost use Rattle.ft_core.specs.meaning.Items.{IsScanOrder};
ghost use Rattle.ft_core.specs.meaning.Kinds.{defined_kinds, section_of, is_of};
ghost use Rattle.ft_core.specs.checked.Sound.{is_side, is_memory_of};
ghost use Rattle.ft_scan.specs.steps.Homes.{AreHomes, IsHome};
ghost use Rattle.ft_scan.specs.steps.Plan.{IsPlan};
ghost use Rattle.ft_scan.specs.steps.Planning.{Adds, AddsColumn, AddsEntry, AddsHome, AddsItem, AddsMemory, AddsVariable};
ghost use Rattle.ft_scan.specs.declared.homes.Home.TheVariants.{Row};

use crate::homes::{Home, homes};
use crate::law::laws;
use ft_base::{List, NoMemory};
use ft_core::{Memory, Side, Tables};
use std::alloc::Global;

/// What is done at one step of a scan. Variables, tables and memories are named by their places in the set.
#[derive(Clone, Copy, Drop)]
pub(crate) enum Step {
    /// The column of a vector table that holds is found.
    Column {
        table: u32,
    },
    /// A variable gets its value by its normal or inverted table.
    Cell {
        variable: u32,
        table: u32,
    },
    /// A variable gets its value by a row of its vector table, in the column that was found.
    Entry {
        variable: u32,
        table: u32,
        row: usize,
    },
    /// A memory goes on by one scan.
    Memory {
        memory: u32,
    },
}

/// Whether the tables of a side define a variable.
fn is_defined(tables: &Tables, side: Side, variable: u32) -> bool
    ensures { result ≡ is_of tables.now.vars (defined_kinds (section_of side)) variable }
{
    match tables.vars.as_slice().get(variable as usize) {
        Some(var) => side.section().defines(variable as usize, var),
        None => false,
    }
}

/// Where the tables of a side define a variable, which they do.
fn home_of(tables: &Tables, side: Side, homes: &List<Option<Home>>, variable: u32) -> Home
    requires long { length homes.now ≡ length tables.now.vars }
    requires homes { AreHomes tables.now.tables (section_of side) (length tables.now.tables) homes.now }
    requires variable { IsTrue (is_of tables.now.vars (defined_kinds (section_of side)) variable) }
    ensures { IsHome tables.now.tables (section_of side) (length tables.now.tables) variable (Some result) }
{
    match *homes.get(variable as usize) {
        Some(home) => home,
        None => unreachable!(),
    }
}

fn is_side(left: Side, right: Side) -> bool
    ensures { result ≡ is_side left right }
{
    left == right
}

/// Whether a memory is of a side.
fn is_memory_of(tables: &Tables, side: Side, memory: u32) -> bool
    ensures { result ≡ is_memory_of tables.now.memories side memory }
{
    match tables.memories.as_slice().get(memory as usize) {
        Some(Memory::Held { side: its, .. }) => is_side(*its, side),
        Some(Memory::Hyst { side: its, .. }) => is_side(*its, side),
        None => false,
    }
}

/// The steps so far.
#[derive(Drop)]
pub(crate) struct Planned {
    steps: List<Step>,
    /// Whether a step finds the column of the table, by the table's place.
    columns: List<bool>,
}

impl Planned {
    /// No step yet.
    fn begin(alloc: Global, tables: usize) -> Result<Planned, NoMemory>
        ensures steps { IfOk result (λ planned. planned.steps ≡ []) }
        ensures columns { IfOk result (λ planned. planned.columns ≡ replicate tables false) }
    {
        Ok(Planned {
            steps: List::new(alloc),
            columns: List::from_vec(Vec::from_elem(alloc, false, tables)?),
        })
    }

    fn add(&mut self, step: Step) -> Result<(), NoMemory>
        ensures { OnOk result (Adds step self.old self.new) }
    {
        self.steps.push(step)
    }

    /// The column of a table is found before its first entry is looked for.
    fn add_column(&mut self, table: u32) -> Result<(), NoMemory>
        requires { table < length self.old.columns }
        ensures { OnOk result (AddsColumn table self.old self.new) }
    {
        if *self.columns.get(table as usize) {
            return Ok(());
        }
        self.columns.set(table as usize, true);
        self.add(Step::Column { table })
    }

    fn add_entry(&mut self, variable: u32, table: u32, row: usize) -> Result<(), NoMemory>
        requires { table < length self.old.columns }
        ensures { OnOk result (AddsEntry variable table row self.old self.new) }
    {
        let entry = Step::Entry {
            variable,
            table,
            row,
        };
        self.add_column(table)?;
        self.add(entry)
    }

    fn add_home(&mut self, variable: u32, home: Home) -> Result<(), NoMemory>
        requires { (table row : ℕ) → home ≡ Row table row → table < length self.old.columns }
        ensures { OnOk result (AddsHome variable home self.old self.new) }
    {
        match home {
            Home::Whole { table } => self.add(Step::Cell { variable, table }),
            Home::Row { table, row } => self.add_entry(variable, table, row),
        }
    }

    fn add_variable(
        &mut self,
        tables: &Tables,
        side: Side,
        homes: &List<Option<Home>>,
        variable: u32,
    ) -> Result<(), NoMemory>
        requires long { length homes.now ≡ length tables.now.vars }
        requires homes { AreHomes tables.now.tables (section_of side) (length tables.now.tables) homes.now }
        requires columns { length self.old.columns ≡ length tables.now.tables }
        ensures { OnOk result (AddsVariable tables.now side variable self.old self.new) }
    {
        if !is_defined(tables, side, variable) {
            return Ok(());
        }
        self.add_home(variable, home_of(tables, side, homes, variable))
    }

    fn add_memory(&mut self, tables: &Tables, side: Side, memory: u32) -> Result<(), NoMemory>
        ensures { OnOk result (AddsMemory tables.now side memory self.old self.new) }
    {
        if !is_memory_of(tables, side, memory) {
            return Ok(());
        }
        self.add(Step::Memory { memory })
    }

    /// The items are the variables, and after them the memories.
    fn add_item(
        &mut self,
        tables: &Tables,
        side: Side,
        homes: &List<Option<Home>>,
        item: u32,
    ) -> Result<(), NoMemory>
        requires long { length homes.now ≡ length tables.now.vars }
        requires homes { AreHomes tables.now.tables (section_of side) (length tables.now.tables) homes.now }
        requires columns { length self.old.columns ≡ length tables.now.tables }
        ensures { OnOk result (AddsItem tables.now side item self.old self.new) }
    {
        let variables = tables.vars.len() as u32;
        if item < variables {
            self.add_variable(tables, side, homes, item)
        } else {
            self.add_memory(tables, side, item - variables)
        }
    }
}

/// The steps of a scan of one side, from an order of the set's variables and memories.
pub(crate) fn plan(
    alloc: Global,
    tables: &Tables,
    side: Side,
    order: &[u32],
) -> Result<List<Step>, NoMemory>
    requires { IsScanOrder (length tables.now.vars) tables.now.memories tables.now.tables order.now }
    ensures { IfOk result (IsPlan tables.now side) }
{
    laws();
    let homes = homes(
        alloc,
        tables.tables.as_slice(),
        side.section(),
        tables.vars.len(),
    )?;
    let mut planned = Planned::begin(alloc, tables.tables.len())?;
    'items: for item in order {
        planned.add_item(tables, side, &homes, *item)?;
    }
    Ok(planned.steps)
}
