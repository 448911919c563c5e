ghost use Rattle.std.specs.Prelude.{◌≡◌, ◌∷◌, [], IfSome};
ghost use Rattle.std.specs.List.{list_all};
ghost use Rattle.std.specs.Option.{option_map};
ghost use Rattle.ft_core.specs.meaning.Kinds.{monitored};
ghost use Rattle.ft_mean.specs.meaning.Allowed.{nat_at};
ghost use Rattle.ft_mean.specs.meaning.Reading.{IsListOf, reading_of};
ghost use Rattle.ft_mean.specs.judge.Safe.{AreSafeConds};
ghost use Rattle.ft_mean.specs.meaning.Value.{truth};
ghost use Rattle.ft_scan.specs.meaning.Allowing.{nat_after};

use crate::law::laws;
use crate::rows::Rows;
use ft_core::{Cond, Tables, VarKind};
use ft_mean::{Look, truth_of};

/// Whether every condition holds.
fn all_hold<L: Look>(conds: &[Cond], look: &L) -> bool
    requires { AreSafeConds (L.view look.now) conds.now }
    ensures { result ≡ list_all (truth (L.view look.now)) conds.now }
{
    for cond in conds {
        if !truth_of(cond, look) {
            return false;
        }
    }
    true
}

/// Whether the environment's clauses hold at a first scan.
#[tactic(auto, using(crate::proofs::RowLemmas::begin_is))]
fn may_begin(tables: &Tables, now: &[i64]) -> bool
    requires { IsListOf tables.now monitored (now.now ∷ []) }
    ensures { result ≡ nat_at tables.now (reading_of tables.now monitored (now.now ∷ [])) 0 }
{
    laws();
    let rows = Rows {
        tables,
        kind: VarKind::Mon,
        row: now,
        earlier: &[],
        begins: true,
    };
    all_hold(tables.always.as_slice(), &rows) && all_hold(tables.first.as_slice(), &rows)
}

/// Whether they hold at a scan after another.
#[tactic(auto, using(crate::proofs::RowLemmas::follow_is))]
fn may_follow(tables: &Tables, earlier: &[i64], now: &[i64]) -> bool
    requires earlier { IsListOf tables.now monitored (earlier.now ∷ []) }
    requires now { IsListOf tables.now monitored (now.now ∷ []) }
    ensures { result ≡ nat_at tables.now (reading_of tables.now monitored (earlier.now ∷ now.now ∷ [])) 1 }
{
    laws();
    let rows = Rows {
        tables,
        kind: VarKind::Mon,
        row: now,
        earlier,
        begins: false,
    };
    all_hold(tables.always.as_slice(), &rows) && all_hold(tables.step.as_slice(), &rows)
}

/// Whether the environment's clauses hold at one scan of monitored values, in order of declaration: where there is a scan
/// before it those for each scan and for a step, and else those for each scan and for scan 0. It takes no memory.
pub fn allowed_step(tables: &Tables, before: Option<&[i64]>, now: &[i64]) -> bool
    requires before { IfSome before (λ row. IsListOf tables.now monitored (row.now ∷ [])) }
    requires now { IsListOf tables.now monitored (now.now ∷ []) }
    ensures { result ≡ nat_after tables.now (option_map (λ row. row.now) before.entry) now.now }
{
    match before {
        Some(earlier) => may_follow(tables, earlier, now),
        None => may_begin(tables, now),
    }
}
