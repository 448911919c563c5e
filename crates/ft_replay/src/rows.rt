//! The rows of values of one scan.
ghost use Rattle.std.specs.Prelude.{◌≡◌, ◌+◌, ◌<◌, length, IfOk, if◌then◌else◌};
ghost use Rattle.ft_core.specs.meaning.Kinds.{count_of, side_kinds};
ghost use Rattle.ft_replay.specs.scans.Rows.{HasRooms, class_of};

use ft_base::NoMemory;
use ft_core::{Side, Tables, Var, VarKind};
use std::alloc::Global;

/// Of which variables a row has the values.
#[derive(Clone, Copy, Drop)]
pub(crate) enum Class {
    /// Those of a kind.
    Kind(VarKind),
    /// Those of a side.
    Side(Side),
}

impl Class {
    /// Whether it has the variable at a place of the set.
    pub fn has(self, variable: usize, var: &Var) -> bool
        ensures { result ≡ class_of self variable var.now }
    {
        match self {
            Class::Kind(kind) => var.kind == kind,
            Class::Side(side) => side.has(variable, var),
        }
    }
}

/// The place of the next variable's value in a row of a side, after that of this variable.
pub(crate) fn next_place(side: Side, variable: usize, var: &Var, at: usize) -> usize
    requires { at < 18446744073709551615 }
    ensures { result ≡ if side_kinds side variable var.now then at + 1 else at }
{
    if side.has(variable, var) { at + 1 } else { at }
}

/// A row of zeros.
fn zeros(alloc: Global, tables: &Tables, class: Class) -> Result<Vec<i64>, NoMemory>
    ensures { IfOk result (λ row. length row.items ≡ count_of (class_of class) tables.now.vars) }
{
    let mut row = Vec::new(alloc);
    for (variable, var) in tables.vars.as_slice().iter().enumerate() {
        if class.has(variable, var) {
            row.push(0)?;
        }
    }
    Ok(row)
}

/// A row of each of a replayer's five lists at one scan, all in order of declaration.
#[derive(Drop)]
pub(crate) struct Rows {
    pub inputs: Vec<i64>,
    /// All variables of the requirement.
    pub required: Vec<i64>,
    /// All variables of the design.
    pub design: Vec<i64>,
    pub outputs: Vec<i64>,
    pub controlled: Vec<i64>,
}

impl Rows {
    /// Rows of zeros.
    pub fn of(alloc: Global, tables: &Tables) -> Result<Rows, NoMemory>
        ensures { IfOk result (HasRooms tables.now) }
    {
        Ok(Rows {
            inputs: zeros(alloc, tables, Class::Kind(VarKind::Input))?,
            required: zeros(alloc, tables, Class::Side(Side::Req))?,
            design: zeros(alloc, tables, Class::Side(Side::Sof))?,
            outputs: zeros(alloc, tables, Class::Kind(VarKind::Output))?,
            controlled: zeros(alloc, tables, Class::Kind(VarKind::Con))?,
        })
    }
}
