use ft_base::List;
use ft_memo::{Band, Timer};

/// A memory as it runs.
#[derive(Drop)]
pub(crate) enum Running {
    Timer(Timer),
    Band(Band),
}

/// The values of a scan under way, and what is kept of the scans before. Everything stands at its place in the set.
#[derive(Drop)]
pub(crate) struct Frame {
    /// The values at this scan, as far as they are known.
    pub now: List<i64>,
    /// The values one scan before.
    pub past: List<i64>,
    /// The truths of the memories at this scan, as far as they are known.
    pub truths: List<bool>,
    /// The columns of the vector tables that hold at this scan, as far as they are known.
    pub columns: List<usize>,
    pub runs: Vec<Running>,
}
