ghost use Rattle.std.specs.Prelude.{◌≡◌};

use crate::stop::Stop;
use ft_base::{Place, Text};
use ft_core::VarKind;

/// Why the names of a tree are at fault.
#[derive(Drop)]
pub enum NameFault {
    /// The set has no monitored variable, or else no controlled one.
    NoVariable { kind: VarKind },
    /// A name is declared a second time, or stands twice after one `takes` or `uses`.
    DuplicateName { name: Text, place: Place },
    /// A name that nothing declares is used, other than after `uses`.
    UnknownName { name: Text, place: Place },
    /// Memory was refused.
    NoMemory,
}

impl From<Stop<NameFault>> for NameFault {
    ghost use Rattle.ft_names.specs.meaning.NameFaults.{stopped};

    ghost from_gives = { λ stop fault. fault ≡ stopped stop };

    fn from(stop: Stop<NameFault>) -> NameFault {
        match stop {
            Stop::Fault(fault) => fault,
            Stop::NoMemory => NameFault::NoMemory,
        }
    }
}
