use ft_core::History;

/// A list of scans, each with a value of each variable of one side, in order of declaration.
pub type Trace = History;
