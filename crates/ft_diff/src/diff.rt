/// The line `x - y <= c`. An unknown is given by its number, and None stands for 0.
#[derive(Clone, Copy, PartialEq, Eq, Drop)]
pub struct Diff {
    /// The unknown that is at most `c` above the other.
    pub x: Option<u32>,
    /// The other unknown.
    pub y: Option<u32>,
    /// The greatest difference.
    pub c: i64,
}
