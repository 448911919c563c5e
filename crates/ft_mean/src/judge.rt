//! The plain and slow judge of a whole trace.
ghost use Rattle.std.specs.Prelude.{ℕ, ◌≡◌, ◌<◌, ◌↔◌, ◌&&◌, int_le, length, IsTrue, IfOk};
ghost use Rattle.ft_mean.specs.meaning.Fits.{Fits};
ghost use Rattle.ft_mean.specs.judge.Scope.{kinds_of, is_inside, in_range, is_row, is_list, are_lists};
ghost use Rattle.ft_mean.specs.judge.Scope.{at_all, has_given, has_table, is_right, follows_by};
ghost use Rattle.ft_mean.specs.judge.Safe.{AreSafeTables};
ghost use Rattle.ft_mean.specs.judge.Seen.{view_at};

use crate::cells::is_defined;
use crate::recall::recall_all;
use crate::scope::{Scope, count_of, is_of, recorded};
use crate::seen::{Seen, SeenAt};
use crate::telling::seen_of;
use crate::time::Known;
use crate::trace::Trace;
use ft_base::NoMemory;
use ft_core::{History, Side, Tables, Var};
use std::alloc::Global;

fn has_in_range(var: &Var, value: i64) -> bool
    ensures { result ≡ (int_le var.now.range.0 value && int_le value var.now.range.1) }
{
    var.range.lo() <= value && value <= var.range.hi()
}

fn is_inside(tables: &Tables, variable: usize, value: i64) -> bool
    ensures { result ≡ is_inside tables.now variable value }
{
    match tables.vars.as_slice().get(variable) {
        Some(var) => has_in_range(var, value),
        None => true,
    }
}

fn in_range(tables: &Tables, scope: Scope, scans: &History, scan: usize, variable: usize) -> bool
    ensures { result ≡ in_range tables.now (kinds_of scope) scans.now scan variable }
{
    !is_of(tables, scope, variable)
        || is_inside(
            tables,
            variable,
            recorded(tables, scope, scans, scan, variable),
        )
}

fn are_in_range(tables: &Tables, scope: Scope, scans: &History, scan: usize) -> bool
    ensures { result ≡ at_all tables.now (in_range tables.now (kinds_of scope) scans.now scan) }
{
    for variable in 0..tables.vars.len() {
        if !in_range(tables, scope, scans, scan, variable) {
            return false;
        }
    }
    true
}

fn is_row(tables: &Tables, scope: Scope, scans: &History, scan: usize) -> bool
    requires { scan < length scans.now }
    ensures { result ≡ is_row tables.now (kinds_of scope) scans.now scan }
{
    scans.width(scan) == count_of(scope, tables.vars.as_slice())
        && are_in_range(tables, scope, scans, scan)
}

/// Whether each scan has a value in range for each variable of a scope, and no other value.
fn is_list(tables: &Tables, scope: Scope, scans: &History) -> bool
    ensures { result ≡ is_list tables.now (kinds_of scope) scans.now }
{
    for scan in 0..scans.scans() {
        if !is_row(tables, scope, scans, scan) {
            return false;
        }
    }
    true
}

fn has_given(
    tables: &Tables,
    side: Side,
    given: &History,
    trace: &Trace,
    scan: usize,
    variable: usize,
) -> bool
    ensures { result ≡ has_given tables.now side given.now trace.now scan variable }
{
    !is_of(tables, Scope::Given(side), variable)
        || recorded(tables, Scope::Whole(side), trace, scan, variable)
            == recorded(tables, Scope::Given(side), given, scan, variable)
}

fn has_table(
    tables: &Tables,
    side: Side,
    trace: &Trace,
    seen: &Seen,
    scan: usize,
    variable: usize,
) -> bool
    requires { AreSafeTables (view_at seen.now scan) tables.now.tables }
    ensures { result ≡ has_table tables.now side trace.now seen.now scan variable }
{
    !is_of(tables, Scope::Defined(side), variable)
        || is_defined(
            tables,
            side.section(),
            variable,
            &SeenAt { seen, scan },
            recorded(tables, Scope::Whole(side), trace, scan, variable),
        )
}

fn is_right(
    tables: &Tables,
    side: Side,
    given: &History,
    trace: &Trace,
    seen: &Seen,
    scan: usize,
    variable: usize,
) -> bool
    requires { AreSafeTables (view_at seen.now scan) tables.now.tables }
    ensures { result ≡ is_right tables.now side given.now trace.now seen.now scan variable }
{
    has_given(tables, side, given, trace, scan, variable)
        && has_table(tables, side, trace, seen, scan, variable)
}

fn follows_at(
    tables: &Tables,
    side: Side,
    given: &History,
    trace: &Trace,
    seen: &Seen,
    scan: usize,
) -> bool
    requires { AreSafeTables (view_at seen.now scan) tables.now.tables }
    ensures { result ≡ at_all tables.now (is_right tables.now side given.now trace.now seen.now scan) }
{
    for variable in 0..tables.vars.len() {
        if !is_right(tables, side, given, trace, seen, scan, variable) {
            return false;
        }
    }
    true
}

/// Whether each variable of the side has its given value or the value of its table at each scan.
fn follows(tables: &Tables, side: Side, given: &History, trace: &Trace, seen: &Seen) -> bool
    requires { (t : ℕ) → AreSafeTables (view_at seen.now t) tables.now.tables }
    ensures { result ≡ follows_by tables.now side given.now trace.now seen.now }
{
    for scan in 0..trace.scans() {
        if !follows_at(tables, side, given, trace, seen, scan) {
            return false;
        }
    }
    true
}

/// Whether the given values and the trace are lists of as many scans, in range.
fn are_lists(tables: &Tables, side: Side, given: &History, trace: &Trace) -> bool
    ensures { result ≡ are_lists tables.now side given.now trace.now }
{
    is_list(tables, Scope::Given(side), given)
        && is_list(tables, Scope::Whole(side), trace)
        && trace.scans() == given.scans()
}

/// Whether a finished trace fits the tables of a side over the given list. The plain and slow judge.
pub fn fits_list(
    alloc: Global,
    tables: &Tables,
    side: Side,
    given: &History,
    trace: &Trace,
) -> Result<bool, NoMemory>
    ensures { IfOk result (λ fits. IsTrue fits ↔ Fits tables.now side given.now trace.now) }
{
    if !are_lists(tables, side, given, trace) {
        return Ok(false);
    }
    let start = seen_of(alloc, tables, Scope::Whole(side), trace)?;
    let known = Known {
        tables,
        scope: Scope::Whole(side),
        scans: trace,
    };
    let seen = recall_all(alloc, &known, start)?;
    Ok(follows(tables, side, given, trace, &seen))
}
