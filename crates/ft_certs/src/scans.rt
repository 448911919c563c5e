//! The scans of a list.
ghost use Rattle.std.specs.Prelude.{◌≡◌, ◌<◌, ◌^◌, ◌++◌, length, IfOk, IfErr};
ghost use Rattle.std.specs.List.{All};
ghost use Rattle.ft_certs.specs.meaning.Text.{IsScan, end_line, scans_text, values_text};
ghost use Rattle.ft_certs.specs.building.Pieces.{Scans, Values};
ghost use Rattle.ft_certs.specs.building.Stuck.{Stopped};

use crate::numbers::signed;
use crate::stop::Stop;
use ft_base::List;
use ft_core::History;
use std::alloc::Global;

// The values of a scan and LF, and the bytes after that.
fn values<'t>(alloc: Global, bytes: &'t [u8]) -> Result<(List<i64>, &'t [u8]), Stop>
    ensures read { IfOk result (λ r. IsScan r.0 × (bytes.now ≡ values_text r.0 ++ end_line ++ r.1.now)) }
    ensures stopped { IfErr result (Stopped (Values 44) bytes.now) }
{
    let mut values = List::new(alloc);
    let mut end = b',';
    let mut rest = bytes;
    'values: while end == b',' {
        let (value, next, more) = signed(rest, b",\n")?;
        values.push(value)?;
        end = next;
        rest = more;
    }
    Ok((values, rest))
}

/// So many scans, and the bytes after them.
pub(crate) fn scans<'t>(
    alloc: Global,
    count: u32,
    bytes: &'t [u8],
) -> Result<(History, &'t [u8]), Stop>
    ensures read { IfOk result (λ r. (length r.0 ≡ count) × All IsScan r.0 × (bytes.now ≡ scans_text r.0 ++ r.1.now)) }
    ensures stopped { IfErr result (Stopped (Scans count) bytes.now) }
{
    let mut list = History::new(alloc);
    let mut rest = bytes;
    'scans: for _scan in 0..count {
        let (values, more) = values(alloc, rest)?;
        list.add(values.as_slice())?;
        rest = more;
    }
    Ok((list, rest))
}
