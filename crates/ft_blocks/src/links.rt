use ft_base::List;

/// How the blocks of a set use each other.
#[derive(Drop)]
pub struct Graph {
    /// The places of the blocks, each once, in an order in which each uses only earlier ones.
    pub order: List<u32>,
}
