//! Where the names of the scans of a short list begin.
ghost use Rattle.std.specs.Prelude.{◌≡◌, ◌≤◌, ◌<◌, ◌*◌, IfOk};
ghost use Rattle.ft_claims.specs.meaning.Names.{width};
ghost use Rattle.ft_mean.specs.meaning.Reading.{scan_before};
ghost use Rattle.ft_oblige.specs.meaning.Lists.{is_first, list_frame, list_spans};

use ft_base::{List, NoMemory, Span};
use ft_claims::Frame;
use ft_core::Tables;
use ft_oblige::add_scan_spans;
use std::alloc::Global;

// How many names a scan has.
fn width(tables: &Tables) -> u32
    ensures value { result ≡ width tables.now }
    ensures few { result ≤ 1300 }
{
    (tables.vars.len() + tables.memories.len()) as u32
}

// The scan before, and scan 0 where there is none.
fn scan_before(scan: u32) -> u32
    ensures value { result ≡ scan_before scan }
    ensures before { result ≤ scan }
{
    if scan == 0 { 0 } else { scan - 1 }
}

// Whether a scan is the first of its list.
fn is_first(scan: u32) -> bool
    ensures { result ≡ is_first scan }
{
    scan == 0
}

/// The number of the first name of a scan of a short list.
pub(crate) fn base_of(tables: &Tables, scan: u32) -> u32
    requires { scan < 8 }
    ensures value { result ≡ scan * width tables.now }
    ensures few { result ≤ 1000000 }
{
    scan * width(tables)
}

/// The names of a scan of a short list: they come after those of all scans before it.
pub(crate) fn list_frame(tables: &Tables, scan: u32) -> Frame
    requires { scan < 8 }
    ensures { result ≡ list_frame tables.now scan }
{
    Frame {
        this: base_of(tables, scan),
        prior: base_of(tables, scan_before(scan)),
        anew: is_first(scan),
        bits: false,
    }
}

/// The spans of the names of so many scans.
pub(crate) fn list_spans(alloc: Global, tables: &Tables, scans: u32) -> Result<List<Span>, NoMemory>
    ensures { IfOk result (λ spans. spans ≡ list_spans tables.now scans) }
{
    let mut spans = List::new(alloc);
    for _scan in 0..scans {
        add_scan_spans(&mut spans, tables)?;
    }
    Ok(spans)
}
