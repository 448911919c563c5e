use crate::short::{Short, Subject};
use ft_admit::SetFault;
use ft_base::NoMemory;
use ft_core::{History, State, Tables};
use ft_search::SpentTree;
use ft_trace::TraceFault;
use ft_tree::Tree;

/// Which file a report speaks of.
#[derive(Clone, Copy, Debug, PartialEq, Eq, Drop)]
pub enum Which {
    /// The file of the set.
    Set,
    /// The file of the trace.
    Trace,
}

/// What the call ends with. A table is named by its place in its set, a cell by its row and its column, from 1.
#[derive(Drop)]
pub enum Report {
    /// The words are of no form that there is.
    Usage,
    /// The file can't be read.
    ReadFault,
    /// The file is longer than its limit.
    TooLong(Which),
    /// Memory was refused.
    NoMemory,
    /// The text spells no set without a fault, or to `print` no tree. It never holds want of memory.
    Refused(SetFault),
    /// The tree that the text spells.
    Printed(Tree),
    /// No cell of a table holds at this state.
    Gap {
        tables: Tables,
        table: u32,
        state: State,
    },
    /// At this state two cells of a table hold.
    Overlap {
        tables: Tables,
        table: u32,
        first: (u32, u32),
        second: (u32, u32),
        state: State,
    },
    /// At this state a cell of a table holds whose term is out of the range of its variable.
    OutOfRange {
        tables: Tables,
        table: u32,
        cell: (u32, u32),
        state: State,
    },
    /// No list of so many scans is allowed, the least length of which there is none.
    NatStops {
        length: u32,
    },
    /// The fact that this obligation is about, by its number from 1, fails at this state. Of a goal these are the first cells of its
    /// REQ and of its OUT table that the state tells and that hold there.
    Fails {
        tables: Tables,
        obligation: u32,
        req: Option<(u32, u32)>,
        out: Option<(u32, u32)>,
        state: State,
        short: Short,
    },
    /// The splits of a search are used up. Where it was for a point of an obligation of a fact, short lists were searched too.
    Spent {
        tables: Tables,
        subject: Subject,
        tree: SpentTree,
        short: Option<Short>,
    },
    /// The design refines the requirement. The list is allowed.
    Verified {
        tables: Tables,
        list: History,
    },
    /// So it does in the generated set of this number.
    Demo {
        number: u32,
        tables: Tables,
        list: History,
    },
    /// The design first differs from the requirement at this scan of the list.
    Refuted {
        tables: Tables,
        list: History,
        scan: usize,
    },
    /// On a trace of so many scans both sides have the same controlled values.
    Agree {
        scans: usize,
    },
    /// They first differ at this scan of the trace.
    Differ {
        scan: usize,
    },
    /// The bytes spell no trace of the set. It never holds want of memory.
    TraceRefused(TraceFault),
    /// The environment doesn't allow this scan of the trace.
    NatRefuses {
        scan: usize,
    },
}

impl From<NoMemory> for Report {
    ghost use Rattle.std.specs.Prelude.{◌≡◌};
    ghost use Rattle.ft_report.specs.declared.report.Report.TheVariants.{NoMemory};

    ghost from_gives = { λ _ report. report ≡ NoMemory };

    fn from(_refused: NoMemory) -> Report {
        Report::NoMemory
    }
}
