//! The names that a formula of coverage is over.
ghost use Rattle.std.specs.Prelude.{◌≡◌, ◌++◌, map, pos, IfOk, OnOk};
ghost use Rattle.ft_base.specs.Interval.{IsBounded};
ghost use Rattle.ft_claims.specs.meaning.Coverage.{cover_frame};
ghost use Rattle.ft_claims.specs.meaning.Spans.{bit_span, cover_scan_spans, cover_spans};

use ft_base::{List, NoMemory, Range, Span};
use ft_claims::Frame;
use ft_core::{Memory, Tables, Var};
use std::alloc::Global;

/// A scan after the scan before, where every memory is a bit.
pub(crate) fn cover_frame(tables: &Tables) -> Frame
    ensures { result ≡ cover_frame tables.now }
{
    Frame {
        this: 0,
        prior: (tables.vars.len() + tables.memories.len()) as u32,
        anew: false,
        bits: true,
    }
}

/// The span of these bounds, which are as small as those of a variable.
pub(crate) fn span_between(lo: i64, hi: i64) -> Span
    requires { IsBounded 1000000000 lo hi }
    ensures { result ≡ (lo, hi) }
{
    match Span::new(lo, hi) {
        Some(span) => span,
        None => unreachable!(),
    }
}

// The values of a variable as those of an unknown.
fn span_of(range: Range) -> Span
    ensures { result ≡ range }
{
    span_between(range.lo(), range.hi())
}

// The numbers 0 and 1, whichever memory it is.
fn bit_of(_memory: &Memory) -> Span
    ensures { result ≡ (pos 0, pos 1) }
{
    span_between(0, 1)
}

/// Adds the values of these variables.
pub(crate) fn add_ranges(spans: &mut List<Span>, vars: &[Var]) -> Result<(), NoMemory>
    ensures { OnOk result (spans.new ≡ spans.old ++ map (λ v. v.range) vars.now) }
{
    for var in vars {
        spans.push(span_of(var.range))?;
    }
    Ok(())
}

fn add_bits(spans: &mut List<Span>, memories: &[Memory]) -> Result<(), NoMemory>
    ensures { OnOk result (spans.new ≡ spans.old ++ map bit_span memories.now) }
{
    for memory in memories {
        spans.push(bit_of(memory))?;
    }
    Ok(())
}

// Adds the spans of the names of one scan.
fn add_scan(spans: &mut List<Span>, tables: &Tables) -> Result<(), NoMemory>
    ensures { OnOk result (spans.new ≡ spans.old ++ cover_scan_spans tables.now) }
{
    add_ranges(spans, tables.vars.as_slice())?;
    add_bits(spans, tables.memories.as_slice())
}

/// The spans of the names of a scan and of the scan before.
pub(crate) fn cover_spans(alloc: Global, tables: &Tables) -> Result<List<Span>, NoMemory>
    ensures { IfOk result (λ spans. spans ≡ cover_spans tables.now) }
{
    let mut spans = List::new(alloc);
    add_scan(&mut spans, tables)?;
    add_scan(&mut spans, tables)?;
    Ok(spans)
}
