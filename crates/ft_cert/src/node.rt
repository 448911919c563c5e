use ft_base::List;
use ft_linear::Line;

/// A node of a certificate, which stands for a part of an area.
#[derive(Drop)]
pub enum CertNode {
    /// The part's truth is No.
    F,
    /// The bounds and the difference lines of the part have no whole solution.
    L,
    /// The lines, each times its multiplier, add up to a positive constant with no unknown.
    S {
        /// The lines.
        lines: List<Line>,
    },
    /// Two parts: the unknown up to the value, and above it.
    R {
        /// The unknown.
        unknown: u32,
        /// The greatest value of the first part.
        value: i64,
    },
    /// Two parts: the atom true, and the atom false.
    C {
        /// The atom.
        atom: u32,
    },
    /// One part: the unknown within the span that the sum of the lines leaves it.
    T {
        /// The unknown.
        unknown: u32,
        /// The lines.
        lines: List<Line>,
    },
}
