//! The report on a text that spells no set.
ghost use Rattle.std.specs.Prelude.{◌≡◌};
ghost use Rattle.ft_cli.specs.meaning.Replay.{IsEarly};
ghost use Rattle.ft_cli.specs.stages.Command.{report_on_fault, report_on_unread};

use ft_admit::SetFault;
use ft_parse::ParseFault;
use ft_report::Report;

/// The report on a fault of a text. Want of memory is none.
pub fn refused(fault: SetFault) -> Report
    ensures is { result ≡ report_on_fault fault }
    ensures early { IsEarly result }
{
    match fault {
        SetFault::NoMemory => Report::NoMemory,
        fault => Report::Refused(fault),
    }
}

/// The report on a text that spells no tree.
pub fn unread(fault: ParseFault) -> Report
    ensures { result ≡ report_on_unread fault }
{
    refused(SetFault::from(fault))
}
