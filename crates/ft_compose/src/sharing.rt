//! What the formulas of all facts of a set share.
ghost use Rattle.std.specs.Prelude.{◌≡◌, IfOk, if◌then◌else◌};
ghost use Rattle.ft_oblige.specs.meaning.States.{slot_spans};
ghost use Rattle.ft_compose.specs.meaning.Shared.{IsShared};

use crate::definitions::Definitions;
use crate::law::laws;
use crate::others::{first_others, later_others};
use crate::part::{Part, parts_of};
use ft_base::{List, NoMemory, Span};
use ft_core::Tables;
use ft_oblige::add_scan_spans;
use std::alloc::Global;

/// What the formulas of all facts of a set share.
#[derive(Drop)]
pub struct Shared {
    /// The spans of the names of two scans.
    pub spans: List<Span>,
    /// How many there are.
    pub base: u32,
    /// What else is known of a scan that begins.
    pub first: List<Part>,
    /// What else is known of any other scan and the scan before it.
    pub later: List<Part>,
    pub definitions: Definitions,
}

// The spans of the names of two scans.
fn slot_spans(alloc: Global, tables: &Tables) -> Result<List<Span>, NoMemory>
    ensures { IfOk result (λ spans. spans ≡ slot_spans tables.now) }
{
    let mut spans = List::new(alloc);
    add_scan_spans(&mut spans, tables)?;
    add_scan_spans(&mut spans, tables)?;
    Ok(spans)
}

// How many names there are. More than 2^32 are refused as want of memory.
fn base_of(names: usize) -> Result<u32, NoMemory>
    ensures { IfOk result (λ base. base ≡ names) }
{
    match u32::try_from(names) {
        Ok(base) => Ok(base),
        Err(_) => Err(NoMemory),
    }
}

impl Shared {
    /// What the formulas of all facts of a set share, made once. It takes time about in proportion to the text of the IN
    /// tables, the clauses on the environment and the invariants, and to the number of these times the number of names.
    pub fn of(alloc: Global, tables: &Tables) -> Result<Shared, NoMemory>
        ensures { IfOk result (IsShared tables.now) }
    {
        laws();
        let spans = slot_spans(alloc, tables)?;
        let base = base_of(spans.len())?;
        let definitions = Definitions::of(alloc, tables)?;
        let known = first_others(alloc, tables, &definitions)?;
        let first = parts_of(alloc, spans.as_slice(), known.as_slice())?;
        let also_known = later_others(alloc, tables, &definitions)?;
        let later = parts_of(alloc, spans.as_slice(), also_known.as_slice())?;
        Ok(Shared {
            spans,
            base,
            first,
            later,
            definitions,
        })
    }

    /// What else is known of a scan that begins, or of any other.
    pub(crate) fn others(&self, anew: bool) -> &[Part]
        ensures { result.now ≡ if anew then self.now.first else self.now.later }
    {
        if anew {
            self.first.as_slice()
        } else {
            self.later.as_slice()
        }
    }
}
