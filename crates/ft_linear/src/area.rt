use ft_base::{List, Span};

/// The span of each unknown, by number.
#[derive(Drop)]
pub struct Area {
    /// The spans.
    pub spans: List<Span>,
}
