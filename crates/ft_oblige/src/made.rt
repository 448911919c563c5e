use crate::labelling::Slot;
use ft_base::List;
use ft_core::Label;
use ft_linear::{Area, Formula};

/// What has to have no point for a set to be shown: a formula with the span of each of its unknowns.
#[derive(Drop)]
pub struct Obligation {
    pub formula: Formula,
    pub area: Area,
    /// The labels of the first unknowns. Those of quotients come after them and have none.
    pub labels: List<Label>,
    /// What each label stands for.
    pub slots: List<Slot>,
}
