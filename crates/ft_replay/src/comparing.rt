//! Whether the two sides agree at a scan.
ghost use Rattle.std.specs.Prelude.{◌≡◌, ◌∷◌, [], length, MatchBool};
ghost use Rattle.ft_core.specs.declared.tables.Side.TheVariants.{Req};
ghost use Rattle.ft_core.specs.meaning.Kinds.{controlled, count_of, side_kinds};
ghost use Rattle.ft_mean.specs.meaning.Refines.{SameAt};
ghost use Rattle.ft_replay.specs.scans.Differing.{DiffersAt, IsAlike, IsDifferent};
ghost use Rattle.ft_replay.specs.scans.Rows.{HasPlaces};

use crate::law::laws;
use crate::rows::next_place;
use ft_core::{Side, Tables, Var, VarKind};

/// Whether a variable isn't controlled, or its value, which stands at a place of the requirement's row, is that at its own place of
/// a row of controlled values.
fn is_alike(var: &Var, required: &[i64], at: usize, row: &[i64]) -> bool
    requires { HasPlaces controlled var.now at required.now row.now }
    ensures { MatchBool result (IsAlike var.now at required.now row.now) (IsDifferent var.now at required.now row.now) }
{
    var.kind != VarKind::Con || required[at] == row[var.place as usize]
}

/// Whether the controlled values of a row of the requirement are those of a row of controlled values.
pub(crate) fn are_alike(tables: &Tables, required: &[i64], row: &[i64]) -> bool
    requires width { length required.now ≡ count_of (side_kinds Req) tables.now.vars }
    requires room { length row.now ≡ count_of controlled tables.now.vars }
    ensures { MatchBool result (SameAt tables.now (required.now ∷ []) (row.now ∷ []) 0)
        (DiffersAt tables.now (required.now ∷ []) (row.now ∷ []) 0) }
{
    laws();
    let mut at = 0;
    'vars: for (variable, var) in tables.vars.as_slice().iter().enumerate() {
        if !is_alike(var, required, at, row) {
            return false;
        }
        at = next_place(Side::Req, variable, var, at);
    }
    true
}
