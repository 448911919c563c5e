ghost use Rattle.ft_names.specs.meaning.First.{Answers};
ghost use Rattle.ft_types.specs.meaning.Ranges.{unless};

use ft_base::{Place, Text};
use ft_core::Section;
use ft_names::Stop;

/// Why a tree spells no set.
#[derive(Drop)]
pub enum ItemFault {
    /// A variable, a memory, `prev` or `age` stands where it may not be read, a table defines a variable of another section,
    /// or `takes` names a monitored or input variable.
    WrongSide {
        name: Text,
        place: Place,
    },
    /// An expression or a name is of the wrong kind.
    TypeMismatch {
        place: Place,
    },
    /// A lower bound is above the upper one, or a number is out of its range.
    BadRange {
        place: Place,
    },
    /// A hold is out of its range.
    BadHold {
        place: Place,
    },
    /// The lower bound of a band isn't below the upper one.
    BadBand {
        place: Place,
    },
    /// A row has not as many entries as the header.
    Shape {
        title: Text,
        place: Place,
    },
    /// A variable lacks a table in a section.
    NoTable {
        section: Section,
        name: Text,
    },
    /// A variable is defined twice in a section.
    TwoTables {
        section: Section,
        name: Text,
        place: Place,
    },
}

// The fault, unless all is right.
pub(crate) fn unless(right: bool, fault: ItemFault) -> Result<(), Stop<ItemFault>>
    ensures { Answers result (unless right fault) }
{
    if right {
        Ok(())
    } else {
        Err(Stop::Fault(fault))
    }
}
