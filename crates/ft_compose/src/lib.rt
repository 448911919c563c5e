//! The blocks of a set: the obligations of their facts, what the facts come to together, and the check of certificates of all
//! obligations of a set.
#![tactic(auto)]

mod blocks;
mod checking;
mod deciding;
mod definitions;
mod facts;
mod frames;
mod law;
mod linking;
mod others;
mod owned;
mod part;
mod seeing;
mod sharing;
mod telling;

pub use blocks::{Blocks, Cells};
pub use checking::{CertsFault, check_certs};
pub use deciding::decide_blocks;
pub use definitions::Definitions;
pub use facts::{fact_obligation, numbered_fact};
pub use law::{
    blocks_compose, closed_blocks_compose, failure_laws, faultless_compose, shown_blocks_compose,
};
pub use part::Part;
pub use sharing::Shared;
