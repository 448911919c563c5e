//! Where known scans begin, and the time between them.
ghost use Rattle.std.specs.Prelude.{◌≡◌, ◌≤◌, pos, ◌*ℤ◌, unsigned_abs};
ghost use Rattle.ft_core.specs.checked.Sound.{IsPeriod};
ghost use Rattle.ft_mean.specs.judge.Scope.{reading_by};
ghost use Rattle.ft_mean.specs.meaning.Reading.{begins, begun, since};

use crate::scope::Scope;
use ft_core::{History, Tables};

/// Known scans of a scope of a set.
#[derive(Clone, Copy)]
pub(crate) struct Known<'a> {
    pub tables: &'a Tables,
    pub scope: Scope,
    pub scans: &'a History,
}

/// Whether a scan begins: nothing of a scan before is known there.
pub(crate) fn begins(known: &Known, scan: usize) -> bool
    ensures { result ≡ begins known.now.tables.now (reading_by known.now.tables.now known.now.scope known.now.scans.now) scan }
{
    scan == 0
}

/// The last scan at or before this one that begins.
pub(crate) fn begun(known: &Known, scan: usize) -> usize
    ensures { result ≡ begun known.now.tables.now (reading_by known.now.tables.now known.now.scope known.now.scans.now) scan }
{
    for back in 0..scan {
        if begins(known, scan - back) {
            return scan - back;
        }
    }
    0
}

// A product of 64 bits and 14 bits fits 128.
fn length_of(scans: u64, period: i64) -> i128
    requires { unsigned_abs period ≤ 10000 }
    ensures { result ≡ pos scans *ℤ period }
{
    i128::from(scans) * i128::from(period)
}

fn span_of(scans: usize, period: i64) -> i128
    requires { IsPeriod period }
    ensures { result ≡ pos scans *ℤ period }
{
    length_of(scans as u64, period)
}

/// The milliseconds from one scan to another.
pub(crate) fn since(known: &Known, from: usize, to: usize) -> i128
    requires { from ≤ to }
    ensures { result ≡ since known.now.tables.now (reading_by known.now.tables.now known.now.scope known.now.scans.now) from to }
{
    span_of(to - from, known.tables.period)
}
