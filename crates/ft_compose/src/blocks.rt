use ft_base::List;
use ft_cert::Cert;
use ft_core::Label;
use ft_search::SpentTree;

/// The cells of the tables of a goal that hold where it fails: of its REQ and of its OUT table the first by rows that holds and is
/// told, as its row and its column, from 1. None where none does, and for an invariant.
#[derive(Clone, Copy, Drop)]
pub struct Cells {
    pub req: Option<(u32, u32)>,
    pub out: Option<(u32, u32)>,
}

/// What is found of the facts of a set's blocks. An obligation is named by its number, from 1.
#[derive(Drop)]
pub enum Blocks {
    /// No obligation of a fact has a point.
    AllShown {
        /// One certificate for each obligation of a fact, in order, where they are kept.
        certs: List<Cert>,
    },
    /// The first obligation of a fact that isn't closed has a point.
    Fails {
        obligation: u32,
        cells: Cells,
        /// The values of the point, one for each label.
        values: List<i64>,
        labels: List<Label>,
    },
    /// The splits of a search for a point of an obligation are used up.
    Spent {
        obligation: u32,
        tree: SpentTree,
    },
}
