//! Whether a scan has a value in range for each monitored variable.
ghost use Rattle.std.specs.Prelude.{◌≡◌, ◌↔◌, ◌∷◌, [], IsTrue};
ghost use Rattle.std.specs.List.{count_by, list_all};
ghost use Rattle.ft_core.specs.meaning.Kinds.{count_of, monitored};
ghost use Rattle.ft_mean.specs.meaning.Reading.{IsListOf};
ghost use Rattle.ft_allowed.specs.building.Ranging.{has_value, is_monitored, is_served};

use crate::law::laws;
use ft_core::{Tables, Var, VarKind};

fn is_monitored(var: &Var) -> bool
    ensures { result ≡ is_monitored var.now }
{
    var.kind == VarKind::Mon
}

// Whether a row has a value in range at the place of a variable.
fn has_value(var: &Var, row: &[i64]) -> bool
    ensures { result ≡ has_value row.now var.now }
{
    match row.get(var.place as usize) {
        Some(value) => var.range.lo() <= *value && *value <= var.range.hi(),
        None => false,
    }
}

// Whether a row has what a variable asks for, where it is monitored.
fn is_served(var: &Var, row: &[i64]) -> bool
    ensures { result ≡ is_served row.now var.now }
{
    !is_monitored(var) || has_value(var, row)
}

fn are_served(vars: &[Var], row: &[i64]) -> bool
    ensures { result ≡ list_all (is_served row.now) vars.now }
{
    vars.iter().all(|var| is_served(var, row))
}

fn count_monitored(vars: &[Var]) -> usize
    ensures { result ≡ count_by is_monitored vars.now }
{
    vars.iter().filter(|var| is_monitored(var)).count()
}

/// Whether a scan has a value in range for each monitored variable, and no other value.
pub(crate) fn is_row(tables: &Tables, row: &[i64]) -> bool
    ensures { IsTrue result ↔ IsListOf tables.now monitored (row.now ∷ []) }
{
    laws();
    let vars = tables.vars.as_slice();
    row.len() == count_monitored(vars) && are_served(vars, row)
}
