//! Evidence that a part of an area has no point of a formula: trees of nodes, kept as lists in prefix order, and the walk
//! through the parts for which their nodes stand.
#![tactic(auto)]

mod cert;
mod descent;
mod law;
mod node;
mod step;

pub use cert::Cert;
pub use descent::Descent;
pub use law::cert_laws;
pub use node::CertNode;
pub use step::{Step, case_step, cut_step};
