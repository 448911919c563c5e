/// A node of the tree that a search makes, as its room keeps it.
#[derive(Clone, Copy, Drop)]
pub(crate) enum KeptNode {
    /// The part's truth is No.
    Refuted,
    /// The bounds and the difference lines of the part have no whole solution.
    Unsolved,
    /// Two parts: the unknown up to the value, and above it.
    Cut {
        unknown: u32,
        value: i64,
    },
    /// Two parts: the atom true, and the atom false.
    Case {
        atom: u32,
    },
    /// One part: the unknown within the span that this literal of the atom and the bounds of its other unknowns leave it.
    Tightened {
        unknown: u32,
        atom: u32,
        value: bool,
    },
}
