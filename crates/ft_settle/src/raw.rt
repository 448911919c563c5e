use ft_base::{Boxed, List};
use ft_linear::Lin;

/// A formula as it is built, before its atoms are made canonical.
#[derive(Drop)]
pub enum Raw {
    /// The form is at most 0.
    Le(Lin),
    /// The part is false.
    Not(Boxed<Raw>),
    /// Each part is true. With no part it is true.
    And(List<Raw>),
    /// Some part is true. With no part it is false.
    Or(List<Raw>),
}
