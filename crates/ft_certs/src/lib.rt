//! The text of certificates, both ways.
#![tactic(auto)]

mod certs;
mod fault;
mod nodes;
mod numbers;
mod obligations;
mod reading;
mod scans;
mod stop;
mod sums;
mod trees;
mod words;
mod writing;

pub use certs::Certs;
pub use fault::CertText;
pub use reading::read_certs;
pub use writing::write_certs;
