use ft_core::History;
use ft_search::SpentTree;

/// What is found of the lists on which the design and the requirement differ.
#[derive(Drop)]
pub enum Refute {
    /// A list at whose last scan they first differ. No shorter one shows a difference.
    List { history: History, scan: usize },
    /// No list of as many scans as a short list may have shows one.
    Safe,
    /// The search at this length used its splits up. No shorter list shows a difference.
    SpentAt { length: u32, tree: SpentTree },
}
