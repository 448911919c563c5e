//! The outputs of a scan of the design.
ghost use Rattle.std.specs.Prelude.{◌≡◌, ◌∷◌, [], length, MatchBool, pos, slice_index_or, slice_set};
ghost use Rattle.ft_core.specs.declared.tables.Side.TheVariants.{Sof};
ghost use Rattle.ft_core.specs.meaning.Kinds.{count_of, outputs, side_kinds};
ghost use Rattle.ft_replay.specs.scans.Rows.{HasPlaces};
ghost use Rattle.ft_replay.specs.scans.Outputs.{AreOutputs};

use crate::law::laws;
use crate::rows::next_place;
use ft_core::{Side, Tables, Var, VarKind};

/// Puts the value of an output, which stands at a place of the design's row, at its own place of a row of outputs. Any other
/// variable is passed over.
fn tell_output(var: &Var, design: &[i64], at: usize, row: &mut [i64])
    requires { HasPlaces outputs var.now at design.now row.old }
    ensures { MatchBool (outputs 0 var.now) (row.new ≡ slice_set row.old var.now.place (slice_index_or design.now at (pos 0)))
        (row.new ≡ row.old) }
{
    if var.kind == VarKind::Output {
        row[var.place as usize] = design[at];
    }
}

/// Tells the outputs of a row of the design, in order of declaration.
pub(crate) fn tell_outputs(tables: &Tables, design: &[i64], row: &mut [i64])
    requires width { length design.now ≡ count_of (side_kinds Sof) tables.now.vars }
    requires room { length row.old ≡ count_of outputs tables.now.vars }
    ensures room { length row.new ≡ length row.old }
    ensures told { AreOutputs tables.now (design.now ∷ []) (row.new ∷ []) }
{
    laws();
    let mut at = 0;
    'vars: for (variable, var) in tables.vars.as_slice().iter().enumerate() {
        tell_output(var, design, at, row);
        at = next_place(Side::Sof, variable, var, at);
    }
}
