ghost use Rattle.std.specs.Prelude.{◌≡◌, ◌∷◌, []};
ghost use Rattle.ft_core.specs.meaning.Kinds.{of_kind};
ghost use Rattle.ft_mean.specs.meaning.Reading.{reading_of};
ghost use Rattle.ft_scan.specs.steps.Rows.{row_view};

use ft_core::{Tables, VarKind, kind_place};
use ft_mean::Look;

/// What a row of the variables of a kind tells of a variable: one of another kind is at its `init`.
fn value_in_row(tables: &Tables, kind: VarKind, row: &[i64], variable: u32) -> i64
    ensures { result ≡ reading_of tables.now (of_kind kind) (row.now ∷ []) 0 variable }
{
    match tables.vars.as_slice().get(variable as usize) {
        Some(var) if var.kind == kind => {
            let place = kind_place(tables, kind, variable as usize);
            row.get(place).copied().unwrap_or(0)
        }
        Some(var) => var.init,
        None => 0,
    }
}

/// A row of the variables of one kind, and the row before it where there is one.
#[derive(Clone, Copy)]
pub(crate) struct Rows<'a> {
    pub tables: &'a Tables,
    pub kind: VarKind,
    pub row: &'a [i64],
    pub earlier: &'a [i64],
    /// Whether there is no row before it.
    pub begins: bool,
}

impl<'a> Look for Rows<'a> {
    ghost view = { λ rows. row_view rows.tables.now (of_kind rows.kind) rows.row.now rows.earlier.now rows.begins };

    fn now_of(&self, variable: u32) -> i64 {
        value_in_row(self.tables, self.kind, self.row, variable)
    }

    fn before_of(&self, variable: u32) -> i64 {
        if self.begins {
            self.tables.init_of(variable as usize)
        } else {
            value_in_row(self.tables, self.kind, self.earlier, variable)
        }
    }

    fn age_of(&self, _memory: u32) -> i64 {
        -1
    }

    fn memory_of(&self, _memory: u32) -> bool {
        false
    }
}
