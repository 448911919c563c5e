use ft_core::History;
use ft_search::SpentTree;

/// What a search finds of the formula of a short list.
#[derive(Drop)]
pub(crate) enum Sought {
    /// That no list has a point of it.
    NoList,
    /// A list that has the values of a point.
    List(History),
    /// The tree that is left when the splits are used up.
    Spent(SpentTree),
}
