use ft_core::History;
use ft_search::SpentTree;

/// What is found of the allowed lists of a set.
#[derive(Drop)]
pub enum Lists {
    /// An allowed list of as many scans as a short list may have.
    List { history: History },
    /// No list of so many scans is allowed, and one of each length below it is.
    Stops { length: u32 },
    /// The search at this length used its splits up.
    SpentAt { length: u32, tree: SpentTree },
}
