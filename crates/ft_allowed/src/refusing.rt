//! The first scan of a list that a set refuses.
ghost use Rattle.std.specs.Prelude.{ℕ, ◌≡◌, ◌≢◌, ◌<◌, ◌≤◌, ◌↔◌, ◌∷◌, [], None, length, slice_index_or, IfSome, IsTrue};
ghost use Rattle.ft_core.specs.meaning.Kinds.{monitored};
ghost use Rattle.ft_mean.specs.meaning.Allowed.{Allowed, nat_at};
ghost use Rattle.ft_mean.specs.meaning.Reading.{IsListOf, reading_of};
ghost use Rattle.ft_allowed.specs.meaning.Refused.{IsAllowedAt, IsFirstRefused};

use crate::law::laws;
use crate::ranging::is_row;
use ft_core::{History, Tables};
use ft_scan::allowed_step;

// Whether the environment's clauses hold at a scan of a list.
fn may_come(tables: &Tables, list: &History, scan: usize) -> bool
    requires there { scan < length list.now }
    requires ranges { (t : ℕ) → t < length list.now → t ≤ scan → IsListOf tables.now monitored (slice_index_or list.now t [] ∷ []) }
    ensures { result ≡ nat_at tables.now (reading_of tables.now monitored list.now) scan }
{
    laws();
    let now = list.row(scan);
    if scan == 0 {
        allowed_step(tables, None, now)
    } else {
        allowed_step(tables, Some(list.row(scan - 1)), now)
    }
}

// Whether a scan is allowed after those before it.
fn is_allowed(tables: &Tables, list: &History, scan: usize) -> bool
    requires there { scan < length list.now }
    requires before { (t : ℕ) → t < scan → IsAllowedAt tables.now list.now t }
    ensures { IsTrue result ↔ IsAllowedAt tables.now list.now scan }
{
    is_row(tables, list.row(scan)) && may_come(tables, list, scan)
}

/// The first scan, from 0, that has a value out of its range, too few or too many of them, or that the environment doesn't allow
/// after those before it. Where there is none and the list isn't empty, it is allowed. It takes no memory, and time in
/// proportion to the scans times the set's variables and clauses.
pub fn first_refused(tables: &Tables, list: &History) -> Option<usize>
    ensures none { result ≡ None → list.now ≢ [] → Allowed tables.now list.now }
    ensures some { IfSome result (IsFirstRefused tables.now list.now) }
    ensures only { Allowed tables.now list.now → result ≡ None }
{
    laws();
    for scan in 0..list.scans() {
        if !is_allowed(tables, list, scan) {
            return Some(scan);
        }
    }
    None
}
