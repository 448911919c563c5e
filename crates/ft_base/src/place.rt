/// A place in a text: its line, and its column in bytes, both counted from 1.
#[derive(Clone, Copy, Debug, PartialEq, Eq, Drop)]
pub struct Place {
    /// The line, from 1. A line ends after its LF.
    pub line: u32,
    /// The column in bytes, from 1.
    pub column: u32,
}
