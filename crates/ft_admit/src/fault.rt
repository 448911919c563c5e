ghost use Rattle.std.specs.Prelude.{◌≡◌};

use ft_base::{List, Place, Text};
use ft_core::{Section, VarKind};
use ft_measure::{Slope, Why};
use ft_names::{NameFault, Stop};
use ft_types::ItemFault;

/// Why a tree spells no checked set, in the order in which the kinds are asked for.
#[derive(Drop)]
pub enum TypeFault {
    /// The set has no monitored variable, or else no controlled one.
    NoVariable {
        kind: VarKind,
    },
    /// A name is declared a second time, or stands twice after one `takes` or `uses`.
    DuplicateName {
        name: Text,
        place: Place,
    },
    /// A name that nothing declares is used, other than after `uses`.
    UnknownName {
        name: Text,
        place: Place,
    },
    /// A variable, a memory, `prev` or `age` stands where it may not be read, a table defines a variable of another section,
    /// or `takes` names a monitored or input variable.
    WrongSide {
        name: Text,
        place: Place,
    },
    /// An expression or a name is of the wrong kind.
    TypeMismatch {
        place: Place,
    },
    /// A term isn't linear, or too large.
    NotLinear {
        why: Why,
        place: Place,
    },
    /// A lower bound is above the upper one, or a number is out of its range.
    BadRange {
        place: Place,
    },
    /// A hold is out of its range.
    BadHold {
        place: Place,
    },
    /// The lower bound of a band isn't below the upper one.
    BadBand {
        place: Place,
    },
    /// A row has not as many entries as the header.
    Shape {
        title: Text,
        place: Place,
    },
    /// A variable lacks a table in a section.
    NoTable {
        section: Section,
        name: Text,
    },
    /// A variable is defined twice in a section.
    TwoTables {
        section: Section,
        name: Text,
        place: Place,
    },
    /// These variables and memories read each other in a circle within one scan. The first is the first declared that lies on one.
    Cycle {
        names: List<Text>,
    },
    /// What `uses` names is no invariant.
    UnknownInvariant {
        name: Text,
        place: Place,
    },
    /// Memory was refused.
    NoMemory,
}

impl From<ft_base::NoMemory> for TypeFault {
    ghost use Rattle.ft_admit.specs.declared.fault.TypeFault.TheVariants.{NoMemory};

    ghost from_gives = { λ _ fault. fault ≡ NoMemory };

    fn from(_refused: ft_base::NoMemory) -> TypeFault {
        TypeFault::NoMemory
    }
}

impl From<NameFault> for TypeFault {
    ghost use Rattle.ft_admit.specs.meaning.TypeFaults.{of_name};

    ghost from_gives = { λ given fault. fault ≡ of_name given };

    fn from(fault: NameFault) -> TypeFault {
        match fault {
            NameFault::NoVariable { kind } => TypeFault::NoVariable { kind },
            NameFault::DuplicateName { name, place } => TypeFault::DuplicateName { name, place },
            NameFault::UnknownName { name, place } => TypeFault::UnknownName { name, place },
            NameFault::NoMemory => TypeFault::NoMemory,
        }
    }
}

impl From<ItemFault> for TypeFault {
    ghost use Rattle.ft_admit.specs.meaning.TypeFaults.{of_item};

    ghost from_gives = { λ given fault. fault ≡ of_item given };

    fn from(fault: ItemFault) -> TypeFault {
        match fault {
            ItemFault::WrongSide { name, place } => TypeFault::WrongSide { name, place },
            ItemFault::TypeMismatch { place } => TypeFault::TypeMismatch { place },
            ItemFault::BadRange { place } => TypeFault::BadRange { place },
            ItemFault::BadHold { place } => TypeFault::BadHold { place },
            ItemFault::BadBand { place } => TypeFault::BadBand { place },
            ItemFault::Shape { title, place } => TypeFault::Shape { title, place },
            ItemFault::NoTable { section, name } => TypeFault::NoTable { section, name },
            ItemFault::TwoTables {
                section,
                name,
                place,
            } => TypeFault::TwoTables {
                section,
                name,
                place,
            },
        }
    }
}

impl From<Stop<ItemFault>> for TypeFault {
    ghost use Rattle.ft_admit.specs.meaning.TypeFaults.{item_stop};

    ghost from_gives = { λ stop fault. fault ≡ item_stop stop };

    fn from(stop: Stop<ItemFault>) -> TypeFault {
        match stop {
            Stop::Fault(fault) => TypeFault::from(fault),
            Stop::NoMemory => TypeFault::NoMemory,
        }
    }
}

impl From<Stop<Slope>> for TypeFault {
    ghost use Rattle.ft_admit.specs.meaning.TypeFaults.{slope_stop};

    ghost from_gives = { λ stop fault. fault ≡ slope_stop stop };

    fn from(stop: Stop<Slope>) -> TypeFault {
        match stop {
            Stop::Fault(slope) => TypeFault::NotLinear {
                why: slope.why,
                place: slope.place,
            },
            Stop::NoMemory => TypeFault::NoMemory,
        }
    }
}

impl From<Stop<TypeFault>> for TypeFault {
    ghost use Rattle.ft_admit.specs.meaning.TypeFaults.{type_stop};

    ghost from_gives = { λ stop fault. fault ≡ type_stop stop };

    fn from(stop: Stop<TypeFault>) -> TypeFault {
        match stop {
            Stop::Fault(fault) => fault,
            Stop::NoMemory => TypeFault::NoMemory,
        }
    }
}
