//! Rows of monitored values.
ghost use Rattle.std.specs.Prelude.{◌≡◌, length, IfOk};
ghost use Rattle.ft_core.specs.meaning.Kinds.{count_of, monitored};

use ft_base::NoMemory;
use ft_core::{Tables, Var, VarKind};
use std::alloc::Global;

/// Whether a variable is monitored.
fn is_monitored(var: &Var) -> bool
    ensures { result ≡ monitored 0 var.now }
{
    var.kind == VarKind::Mon
}

/// A row of zeros.
pub(crate) fn zeros(alloc: Global, tables: &Tables) -> Result<Vec<i64>, NoMemory>
    ensures { IfOk result (λ row. length row.items ≡ count_of monitored tables.now.vars) }
{
    let mut row = Vec::new(alloc);
    for var in tables.vars.as_slice() {
        if is_monitored(var) {
            row.push(0)?;
        }
    }
    Ok(row)
}
