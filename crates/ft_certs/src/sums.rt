//! The lines of a sum.
ghost use Rattle.std.specs.Prelude.{◌≡◌, ◌<◌, ◌^◌, ◌++◌, ◌∷◌, true, codes, IfOk, IfErr};
ghost use Rattle.std.specs.List.{All};
ghost use Rattle.ft_certs.specs.meaning.Text.{IsLine, end_line, line_text, lines_text};
ghost use Rattle.ft_certs.specs.building.Pieces.{SumLines, Sums, is_one_of, line_by};
ghost use Rattle.ft_certs.specs.building.Stuck.{Stopped};

use crate::numbers::{MOST_OF_32_BITS, number};
use crate::stop::Stop;
use ft_base::List;
use ft_linear::Line;
use std::alloc::Global;

fn line_by(kind: u8, times: u64, number: u32) -> Line
    ensures { result ≡ line_by kind times number }
{
    match kind {
        b'+' => Line::Atom {
            number,
            value: true,
            times,
        },
        b'-' => Line::Atom {
            number,
            value: false,
            times,
        },
        b'<' => Line::Upper {
            unknown: number,
            times,
        },
        _ => Line::Lower {
            unknown: number,
            times,
        },
    }
}

// A line of a sum with the space or LF after it, and the bytes after that.
fn line<'t>(bytes: &'t [u8]) -> Result<(Line, u8, &'t [u8]), Stop>
    ensures read { IfOk result (λ r. IsLine r.0 × (is_one_of (codes " \n") r.1 ≡ true) × (bytes.now ≡ line_text r.0 ++ r.1 ∷ r.2.now)) }
    ensures stopped { IfErr result (Stopped SumLines bytes.now) }
{
    let (times, kind, rest) = number(bytes, 0, u64::MAX, b"+-<>")?;
    let (number, end, rest) = number(rest, 0, MOST_OF_32_BITS, b" \n")?;
    Ok((line_by(kind, times, number as u32), end, rest))
}

/// The lines of a sum after the first space or LF, and the bytes after them.
pub(crate) fn lines<'t>(
    alloc: Global,
    end: u8,
    bytes: &'t [u8],
) -> Result<(List<Line>, &'t [u8]), Stop>
    requires { is_one_of (codes " \n") end ≡ true }
    ensures read { IfOk result (λ r. All IsLine r.0 × (end ∷ bytes.now ≡ lines_text r.0 ++ end_line ++ r.1.now)) }
    ensures stopped { IfErr result (Stopped (Sums end) bytes.now) }
{
    let mut lines = List::new(alloc);
    let mut end = end;
    let mut rest = bytes;
    'lines: while end == b' ' {
        let (line, next, more) = line(rest)?;
        lines.push(line)?;
        end = next;
        rest = more;
    }
    Ok((lines, rest))
}
