//! The top call of the tool: from the words of its command line to the bytes of its report and its status.
#![tactic(auto)]

mod command;
mod ended;
mod exit;
mod fetching;
mod generating;
mod judging;
mod law;
mod number;
mod output;
mod refusing;
mod replaying;
mod top;

pub use ended::Ended;
pub use exit::exit_of;
pub use judging::report_on_text;
pub use top::{file_words, run};
