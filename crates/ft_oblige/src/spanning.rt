//! What the names of one scan may stand for, where each memory is a number that is kept.
ghost use Rattle.std.specs.Prelude.{◌≡◌, ◌++◌, map, OnOk};
ghost use Rattle.ft_mean.specs.laws.Moves.{span_of};
ghost use Rattle.ft_oblige.specs.building.Spanning.{AreKept, IsKept};
ghost use Rattle.ft_oblige.specs.meaning.States.{scan_spans};

use crate::covering::{add_ranges, span_between};
use ft_base::{List, NoMemory, Span};
use ft_core::{Memory, Tables};

// The numbers that a memory keeps.
fn kept_span(memory: &Memory) -> Span
    requires { IsKept memory.now }
    ensures { result ≡ span_of memory.now }
{
    match memory {
        Memory::Held { hold, .. } => span_between(-1, *hold),
        Memory::Hyst { .. } => span_between(0, 1),
    }
}

fn add_kept(spans: &mut List<Span>, memories: &[Memory]) -> Result<(), NoMemory>
    requires { AreKept memories.now }
    ensures { OnOk result (spans.new ≡ spans.old ++ map span_of memories.now) }
{
    for memory in memories {
        spans.push(kept_span(memory))?;
    }
    Ok(())
}

/// Adds the spans of the names of one scan: of variables their ranges, and of memories what they keep.
pub fn add_scan_spans(spans: &mut List<Span>, tables: &Tables) -> Result<(), NoMemory>
    ensures { OnOk result (spans.new ≡ spans.old ++ scan_spans tables.now) }
{
    add_ranges(spans, tables.vars.as_slice())?;
    add_kept(spans, tables.memories.as_slice())
}
