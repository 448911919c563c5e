use ft_base::{List, Text};
use ft_cert::Cert;
use ft_core::History;

/// What a text of certificates holds: the set's name, an allowed list, and a certificate for each obligation in order.
#[derive(Drop)]
pub struct Certs {
    /// The set's name.
    pub set: Text,
    /// The scans of the list, each with at least one value.
    pub list: History,
    /// The certificates, of obligation 1 first.
    pub certs: List<Cert>,
}
