//! The generated sets: printed, and judged.
ghost use Rattle.std.specs.Prelude.{◌≡◌, ◌≤◌, IfOk};
ghost use Rattle.ft_gen.specs.meaning.Generated.{generated};
ghost use Rattle.ft_cli.specs.meaning.Generation.{IsDemo, IsGenerated};
ghost use Rattle.ft_cli.specs.meaning.Judgement.{IsJudgement};
ghost use Rattle.ft_cli.specs.stages.Command.{report_on_generated};

use crate::judging::report_on_text;
use ft_base::{NoMemory, Text};
use ft_gen::generate;
use ft_report::Report;
use ft_tree::write_tree;
use std::alloc::Global;

/// The tree of the generated set of this number.
pub fn generated(alloc: Global, number: u32) -> Report
    requires some { 1 ≤ number }
    requires few { number ≤ 60 }
    ensures { IsGenerated number result }
{
    match generate(alloc, number) {
        Ok(tree) => Report::Printed(tree),
        Err(NoMemory) => Report::NoMemory,
    }
}

/// The canonical text of the generated set of this number.
fn generated_text(alloc: Global, number: u32) -> Result<Text, NoMemory>
    requires some { 1 ≤ number }
    requires few { number ≤ 60 }
    ensures { IfOk result (λ text. text ≡ generated number) }
{
    let tree = generate(alloc, number)?;
    write_tree(alloc, &tree)
}

/// What the text of the generated set of this number is judged to be. One of 2^32 - 1 bytes or more is refused as want of memory.
fn judged(alloc: Global, text: &[u8]) -> Report
    ensures { IsJudgement text.now result }
{
    if text.len() < u32::MAX as usize {
        report_on_text(alloc, text)
    } else {
        Report::NoMemory
    }
}

/// The report on the generated set of this number, by what its text is judged to be.
fn demonstrated(number: u32, found: Report) -> Report
    ensures { result ≡ report_on_generated number found }
{
    match found {
        Report::Verified { tables, list } => Report::Demo {
            number,
            tables,
            list,
        },
        found => found,
    }
}

/// The verdict on the generated set of this number.
pub fn demo(alloc: Global, number: u32) -> Report
    requires some { 1 ≤ number }
    requires few { number ≤ 60 }
    ensures { IsDemo number result }
{
    match generated_text(alloc, number) {
        Ok(text) => demonstrated(number, judged(alloc, text.as_slice())),
        Err(NoMemory) => Report::NoMemory,
    }
}
