//! The files of a command, fetched from the shelf.
ghost use Rattle.std.specs.Prelude.{◌≡◌, IfErr, IfOk};
ghost use Rattle.std.specs.List.{Contains};
ghost use Rattle.ft_port.specs.Shelf.{OthersStay};
ghost use Rattle.ft_cli.specs.Top.{IsRead, limit_of, use_of};
ghost use Rattle.ft_cli.specs.stages.Command.{IsUnfetched, report_on_error};

use ft_base::Text;
use ft_port::{FetchError, Shelf, fetch};
use ft_report::{Report, Which};
use std::alloc::Global;

/// The longest file of a set, in bytes.
const SET_LIMIT: u64 = 4_194_304;

/// The longest file of a trace, in bytes.
const TRACE_LIMIT: u64 = 16_777_216;

/// The longest file of this kind, in bytes.
fn limit_for(which: Which) -> u64
    ensures { result ≡ limit_of which }
{
    match which {
        Which::Set => SET_LIMIT,
        Which::Trace => TRACE_LIMIT,
    }
}

/// The report on a file of this kind that wasn't fetched.
fn unfetched(error: FetchError, which: Which) -> Report
    ensures { result ≡ report_on_error error which }
{
    match error {
        FetchError::Failed => Report::ReadFault,
        FetchError::TooLong => Report::TooLong(which),
        FetchError::NoMemory => Report::NoMemory,
    }
}

/// The whole text of a file of this kind, where it could be fetched.
pub fn fetched<S: Shelf>(
    alloc: Global,
    shelf: &mut S,
    name: &str,
    which: Which,
) -> Result<Text, Report>
    requires { Contains (S.names shelf.old) name.now }
    ensures file { IfOk result (IsRead (use_of (S.content shelf.old) (S.reads shelf.new) (S.faults shelf.old) (S.faults shelf.new)
        (S.reach shelf.new) name.now) (limit_of which)) }
    ensures cause { IfErr result (IsUnfetched (use_of (S.content shelf.old) (S.reads shelf.new) (S.faults shelf.old) (S.faults shelf.new)
        (S.reach shelf.new) name.now) which) }
    ensures others { OthersStay name.now (S.reach shelf.old) (S.reach shelf.new) (S.faults shelf.old) (S.faults shelf.new)
        (S.reads shelf.old) (S.reads shelf.new) }
    ensures content { S.content shelf.new ≡ S.content shelf.old }
    ensures names { S.names shelf.new ≡ S.names shelf.old }
{
    match fetch(alloc, shelf, name, limit_for(which)) {
        Ok(text) => Ok(text),
        Err(error) => Err(unfetched(error, which)),
    }
}
