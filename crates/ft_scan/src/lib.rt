//! A side of a set scan by scan, and IN, OUT and NAT at one scan.
#![tactic(auto)]

mod allowing;
mod cells;
mod frame;
mod homes;
mod law;
mod mapping;
mod opening;
mod places;
mod plan;
mod rows;
mod scanner;
mod stepping;

pub use allowing::allowed_step;
pub use mapping::{input_map, output_map};
pub use scanner::Scanner;
