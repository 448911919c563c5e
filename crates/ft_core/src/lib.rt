//! The checked set of tables: variables, terms and conditions, memories, grids, blocks, and lists of scans.
#![tactic(auto)]

mod circle;
mod gathering;
mod history;
mod items;
mod kinds;
mod label;
mod law;
mod numbering;
mod ordering;
mod place;
mod tables;
mod term;
mod walk;

pub use history::History;
pub use items::scan_order;
pub use label::{Label, State};
pub use law::checked_by_tests;
pub use numbering::{order_gives_set_order, reads_within};
pub use ordering::{OrderFault, order, order_gives_rank, rank_excludes_circles};
pub use place::{given_place, image_place, kind_place};
pub use tables::{Block, Fact, Grid, Memory, Section, Side, Table, Tables, Take, Var, VarKind};
pub use term::{Cond, Rel, Term};
