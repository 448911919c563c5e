//! The check of certificates.
#![tactic(auto)]

mod checking;
mod fault;
mod room;
mod steps;

pub use checking::check;
pub use fault::CertFault;
