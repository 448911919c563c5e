//! The scans that the formula of a fact is about.
ghost use Rattle.std.specs.Prelude.{◌≡◌};
ghost use Rattle.ft_claims.specs.meaning.Names.{width};
ghost use Rattle.ft_oblige.specs.meaning.Blocks.{now_frame, past_frame};

use ft_claims::Frame;
use ft_core::Tables;

// How many names a scan has.
fn width(tables: &Tables) -> u32
    ensures { result ≡ width tables.now }
{
    (tables.vars.len() + tables.memories.len()) as u32
}

/// This scan, which begins or follows the scan before.
pub(crate) fn now_frame(tables: &Tables, anew: bool) -> Frame
    ensures { result ≡ now_frame tables.now anew }
{
    Frame {
        this: 0,
        prior: width(tables),
        anew,
        bits: false,
    }
}

/// The scan before.
pub(crate) fn past_frame(tables: &Tables) -> Frame
    ensures { result ≡ past_frame tables.now }
{
    let width = width(tables);
    Frame {
        this: width,
        prior: width,
        anew: true,
        bits: false,
    }
}
