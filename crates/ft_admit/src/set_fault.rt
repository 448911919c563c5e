ghost use Rattle.std.specs.Prelude.{◌≡◌};

use crate::fault::TypeFault;
use ft_base::{List, Place, Text};
use ft_blocks::BlockFault;
use ft_core::{Section, VarKind};
use ft_measure::Why;
use ft_parse::{LimitWord, ParseFault};

/// Why a text is not admitted, in the order in which the kinds are asked for.
#[derive(Drop)]
pub enum SetFault {
    /// The tokens before the place begin some set's text, and with the token at the place, or the end, they don't.
    Syntax {
        place: Place,
    },
    /// A token passes this limit.
    Limit {
        which: LimitWord,
        place: Place,
    },
    /// The set has no monitored variable, or else no controlled one.
    NoVariable {
        kind: VarKind,
    },
    /// A name is declared a second time, or stands twice after one `takes` or `uses`.
    DuplicateName {
        name: Text,
        place: Place,
    },
    /// A name that nothing declares is used, other than after `uses`.
    UnknownName {
        name: Text,
        place: Place,
    },
    /// A variable, a memory, `prev` or `age` stands where it may not be read, a table defines a variable of another section,
    /// or `takes` names a monitored or input variable.
    WrongSide {
        name: Text,
        place: Place,
    },
    /// An expression or a name is of the wrong kind.
    TypeMismatch {
        place: Place,
    },
    /// A term isn't linear, or too large.
    NotLinear {
        why: Why,
        place: Place,
    },
    /// A lower bound is above the upper one, or a number is out of its range.
    BadRange {
        place: Place,
    },
    /// A hold is out of its range.
    BadHold {
        place: Place,
    },
    /// The lower bound of a band isn't below the upper one.
    BadBand {
        place: Place,
    },
    /// A row has not as many entries as the header.
    Shape {
        title: Text,
        place: Place,
    },
    /// A variable lacks a table in a section.
    NoTable {
        section: Section,
        name: Text,
    },
    /// A variable is defined twice in a section.
    TwoTables {
        section: Section,
        name: Text,
        place: Place,
    },
    /// These variables and memories read each other in a circle within one scan. The first is the first declared that lies on one.
    Cycle {
        names: List<Text>,
    },
    /// What `uses` names is no invariant.
    UnknownInvariant {
        name: Text,
        place: Place,
    },
    /// These blocks use each other in a circle. The first is the first declared that lies on one.
    BlockCycle {
        names: List<Text>,
    },
    /// No block has this controlled variable as a goal. It is the first declared of which that is so.
    GoalMissing {
        name: Text,
    },
    /// A goal stands twice: the variable of the first goal in the text that an earlier one has too.
    ShownTwice {
        name: Text,
    },
    /// Memory was refused.
    NoMemory,
}

impl From<ParseFault> for SetFault {
    ghost use Rattle.ft_admit.specs.meaning.SetFaults.{of_parse};

    ghost from_gives = { λ given fault. fault ≡ of_parse given };

    fn from(fault: ParseFault) -> SetFault {
        match fault {
            ParseFault::Syntax { place } => SetFault::Syntax { place },
            ParseFault::Limit { which, place } => SetFault::Limit { which, place },
            ParseFault::NoMemory => SetFault::NoMemory,
        }
    }
}

impl From<TypeFault> for SetFault {
    ghost use Rattle.ft_admit.specs.meaning.SetFaults.{of_type};

    ghost from_gives = { λ given fault. fault ≡ of_type given };

    fn from(fault: TypeFault) -> SetFault {
        match fault {
            TypeFault::NoVariable { kind } => SetFault::NoVariable { kind },
            TypeFault::DuplicateName { name, place } => SetFault::DuplicateName { name, place },
            TypeFault::UnknownName { name, place } => SetFault::UnknownName { name, place },
            TypeFault::WrongSide { name, place } => SetFault::WrongSide { name, place },
            TypeFault::TypeMismatch { place } => SetFault::TypeMismatch { place },
            TypeFault::NotLinear { why, place } => SetFault::NotLinear { why, place },
            TypeFault::BadRange { place } => SetFault::BadRange { place },
            TypeFault::BadHold { place } => SetFault::BadHold { place },
            TypeFault::BadBand { place } => SetFault::BadBand { place },
            TypeFault::Shape { title, place } => SetFault::Shape { title, place },
            TypeFault::NoTable { section, name } => SetFault::NoTable { section, name },
            TypeFault::TwoTables {
                section,
                name,
                place,
            } => SetFault::TwoTables {
                section,
                name,
                place,
            },
            TypeFault::Cycle { names } => SetFault::Cycle { names },
            TypeFault::UnknownInvariant { name, place } => {
                SetFault::UnknownInvariant { name, place }
            }
            TypeFault::NoMemory => SetFault::NoMemory,
        }
    }
}

impl From<BlockFault> for SetFault {
    ghost use Rattle.ft_admit.specs.meaning.SetFaults.{of_block};

    ghost from_gives = { λ given fault. fault ≡ of_block given };

    fn from(fault: BlockFault) -> SetFault {
        match fault {
            BlockFault::BlockCycle { names } => SetFault::BlockCycle { names },
            BlockFault::GoalMissing { name } => SetFault::GoalMissing { name },
            BlockFault::ShownTwice { name } => SetFault::ShownTwice { name },
            BlockFault::NoMemory => SetFault::NoMemory,
        }
    }
}
