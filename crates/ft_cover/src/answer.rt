use ft_base::List;
use ft_cert::Cert;
use ft_core::Label;
use ft_search::SpentTree;

/// What is found of the coverage of a set's tables. A table is named by its place, from 0, and a cell by its row and its column,
/// from 1. Values are those of a point of the obligation, one for each label.
#[derive(Drop)]
pub enum Cover {
    /// Every table is proper.
    Proper {
        /// One certificate for each obligation of a table, in order, where they are kept.
        certs: List<Cert>,
    },
    /// No cell of a table holds.
    Gap {
        table: u32,
        values: List<i64>,
        labels: List<Label>,
    },
    /// Two cells of a table hold: the first two by rows, which are two columns of the first row of a vector table.
    Overlap {
        table: u32,
        first: (u32, u32),
        second: (u32, u32),
        values: List<i64>,
        labels: List<Label>,
    },
    /// A cell holds whose term is out of the range of its variable: the first by rows.
    OutOfRange {
        table: u32,
        cell: (u32, u32),
        values: List<i64>,
        labels: List<Label>,
    },
    /// The splits of a search for a point of an obligation are used up.
    Spent {
        /// Its number, from 1.
        obligation: u32,
        tree: SpentTree,
    },
}
