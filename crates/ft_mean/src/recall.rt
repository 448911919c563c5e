//! The truth of memories, by looking back over the scans.
ghost use Rattle.std.specs.Prelude.{ℕ, ◌≡◌, ◌≤◌, ◌<◌, ◌+◌, ◌&&◌};
ghost use Rattle.std.specs.Prelude.{int_le, map, length, IfOk};
ghost use Rattle.std.specs.List.{list_all, range_with_len};
ghost use Rattle.ft_mean.specs.judge.Scope.{reading_by};
ghost use Rattle.ft_mean.specs.meaning.Past.{scans, held, hyst};
ghost use Rattle.ft_mean.specs.meaning.Reading.{begun, since};
ghost use Rattle.ft_mean.specs.judge.Safe.{IsSafe, IsSafeCond, IsSafeMemory, AreSafeMemories};
ghost use Rattle.ft_mean.specs.judge.Seen.{view_at, recalled, recalled_at, after_rounds};
ghost use Rattle.ft_mean.specs.meaning.Value.{value, truth};

use crate::evaluating::{truth_of, value_of};
use crate::seen::{Seen, SeenAt};
use crate::time::{Known, begun, since};
use ft_base::{List, NoMemory};
use ft_core::{Cond, Memory, Term};
use std::alloc::Global;

/// Whether a condition is true at all scans from one to another.
fn is_true_from(cond: &Cond, seen: &Seen, from: usize, to: usize) -> bool
    requires safe { (t : ℕ) → IsSafeCond (view_at seen.now t) cond.now }
    requires last { to + 1 < 18446744073709551616 }
    ensures { result ≡ list_all (λ j. truth (view_at seen.now j) cond.now) (scans from to) }
{
    for scan in from..to + 1 {
        if !truth_of(cond, &SeenAt { seen, scan }) {
            return false;
        }
    }
    true
}

/// Whether a condition was true from a scan on at all scans up to this one, and that is at least the hold ago.
fn was_held_from(
    cond: &Cond,
    hold: i64,
    known: &Known,
    seen: &Seen,
    from: usize,
    scan: usize,
) -> bool
    requires safe { (t : ℕ) → IsSafeCond (view_at seen.now t) cond.now }
    requires past { from ≤ scan }
    requires last { scan + 1 < 18446744073709551616 }
    ensures { result ≡ (int_le hold (since known.now.tables.now (reading_by known.now.tables.now known.now.scope known.now.scans.now) from
        scan)
        && list_all (λ j. truth (view_at seen.now j) cond.now) (scans from scan)) }
{
    i128::from(hold) <= since(known, from, scan) && is_true_from(cond, seen, from, scan)
}

/// Whether it was so from some scan on, at or after the last that begins.
fn was_held(cond: &Cond, hold: i64, known: &Known, seen: &Seen, begun: usize, scan: usize) -> bool
    requires safe { (t : ℕ) → IsSafeCond (view_at seen.now t) cond.now }
    requires begun { begun ≤ scan }
    requires last { scan + 1 < 18446744073709551616 }
    ensures { result ≡ held begun (λ j. since known.now.tables.now (reading_by known.now.tables.now known.now.scope known.now.scans.now) j
        scan) hold
        (λ j. truth (view_at seen.now j) cond.now) scan }
{
    for from in begun..scan + 1 {
        if was_held_from(cond, hold, known, seen, from, scan) {
            return true;
        }
    }
    false
}

/// Whether the last scan at which a term was at or past a bound had it at the upper one; the start where there is none at or
/// after the last scan that begins.
fn was_met(
    term: &Term,
    lo: i64,
    hi: i64,
    start: bool,
    seen: &Seen,
    begun: usize,
    scan: usize,
) -> bool
    requires safe { (t : ℕ) → IsSafe (view_at seen.now t) term.now }
    requires begun { begun ≤ scan }
    requires last { scan + 1 < 18446744073709551616 }
    ensures { result ≡ hyst begun lo hi start (λ j. value (view_at seen.now j) term.now) scan }
{
    for back in 0..scan + 1 - begun {
        let at = SeenAt {
            seen,
            scan: scan - back,
        };
        let number = value_of(term, &at);
        if number >= hi {
            return true;
        }
        if number <= lo {
            return false;
        }
    }
    start
}

/// The truth of a memory at a scan, from the truths of those that it reads.
pub(crate) fn is_recalled(memory: &Memory, known: &Known, seen: &Seen, scan: usize) -> bool
    requires safe { (t : ℕ) → IsSafeMemory (view_at seen.now t) memory.now }
    requires last { scan + 1 < 18446744073709551616 }
    ensures { result ≡ recalled (begun known.now.tables.now (reading_by known.now.tables.now known.now.scope known.now.scans.now) scan)
        (λ j. since known.now.tables.now (reading_by known.now.tables.now known.now.scope known.now.scans.now) j scan) seen.now memory.now
        scan }
{
    let from = begun(known, scan);
    match memory {
        Memory::Held { cond, hold, .. } => was_held(cond, *hold, known, seen, from, scan),
        Memory::Hyst {
            term,
            lo,
            hi,
            start,
            ..
        } => was_met(term, *lo, *hi, *start, seen, from, scan),
    }
}

fn recalled_row(
    alloc: Global,
    known: &Known,
    seen: &Seen,
    scan: usize,
) -> Result<List<bool>, NoMemory>
    requires safe { (t : ℕ) → AreSafeMemories (view_at seen.now t) known.now.tables.now.memories }
    requires last { scan + 1 < 18446744073709551616 }
    ensures { IfOk result (λ row. row ≡ recalled_at known.now.tables.now
        (reading_by known.now.tables.now known.now.scope known.now.scans.now) seen.now scan) }
{
    let mut row = List::new(alloc);
    for memory in known.tables.memories.as_slice() {
        row.push(is_recalled(memory, known, seen, scan))?;
    }
    Ok(row)
}

/// The truth of each memory at each scan, from the truths of those that they read.
pub(crate) fn recalled_rows(
    alloc: Global,
    known: &Known,
    seen: &Seen,
) -> Result<List<List<bool>>, NoMemory>
    requires { (t : ℕ) → AreSafeMemories (view_at seen.now t) known.now.tables.now.memories }
    ensures { IfOk result (λ bits. bits ≡ map (recalled_at known.now.tables.now
        (reading_by known.now.tables.now known.now.scope known.now.scans.now) seen.now) (range_with_len 0 (length seen.now.rows))) }
{
    let mut bits = List::new(alloc);
    for scan in 0..seen.rows.scans() {
        bits.push(recalled_row(alloc, known, seen, scan)?)?;
    }
    Ok(bits)
}

/// The same scans, with the truths of the memories after so many rounds.
fn recall(alloc: Global, known: &Known, start: Seen, rounds: usize) -> Result<Seen, NoMemory>
    requires { (t : ℕ) → AreSafeMemories (view_at start t) known.now.tables.now.memories }
    ensures { IfOk result (λ seen. seen ≡ after_rounds known.now.tables.now
        (reading_by known.now.tables.now known.now.scope known.now.scans.now) rounds start) }
{
    let mut seen = start;
    for _round in 0..rounds {
        seen.bits = recalled_rows(alloc, known, &seen)?;
    }
    Ok(seen)
}

/// The same scans, with the truth of each memory: no chain of variables and memories that read each other is longer than
/// their number.
pub(crate) fn recall_all(alloc: Global, known: &Known, start: Seen) -> Result<Seen, NoMemory>
    requires { (t : ℕ) → AreSafeMemories (view_at start t) known.now.tables.now.memories }
    ensures { IfOk result (λ seen. seen ≡ after_rounds known.now.tables.now
        (reading_by known.now.tables.now known.now.scope known.now.scans.now)
        (length known.now.tables.now.vars + length known.now.tables.now.memories) start) }
{
    let half = recall(alloc, known, start, known.tables.memories.len())?;
    let seen = recall(alloc, known, half, known.tables.vars.len())?;
    Ok(seen)
}
