use ft_search::SpentTree;

/// What is known of short lists where a fact isn't shown. A length is a number of scans.
#[derive(Drop)]
pub enum Short {
    /// No list of at most so many scans, which is the set's depth, shows a difference.
    Safe { length: u32 },
    /// The search at this length used its splits up. No shorter list shows a difference.
    SpentAt { length: u32, tree: SpentTree },
}

/// What a search that was spent looked for.
#[derive(Clone, Copy, Drop)]
pub enum Subject {
    /// A point of the obligation with this number, from 1.
    Obligation(u32),
    /// An allowed list of so many scans.
    NatList(u32),
}
