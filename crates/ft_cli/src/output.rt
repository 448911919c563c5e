//! How a report is written.
ghost use Rattle.std.specs.Prelude.{◌≡◌, map, string_bytes, IfOk};
ghost use Rattle.ft_report.specs.meaning.Fitting.{IsFitting};
ghost use Rattle.ft_cli.specs.Top.{output_named, output_of, written_as};

use ft_base::{NoMemory, Text};
use ft_json::{no_memory_json, report_json};
use ft_report::{Report, report_text};
use std::alloc::Global;

/// How a report is written.
#[derive(Clone, Copy, Drop)]
pub enum Output {
    /// Line by line.
    Lines,
    /// As one line of JSON.
    Json,
}

/// How the report on a command of this name is written.
fn output_named(name: &str) -> Output
    ensures { result ≡ output_named name.now }
{
    match name {
        "verify-json" => Output::Json,
        _ => Output::Lines,
    }
}

impl Output {
    /// How the report on these words is written.
    pub fn of_words(words: &[String]) -> Output
        ensures { result ≡ output_of (map string_bytes words.now) }
    {
        match words.first() {
            Some(name) => output_named(name.as_str()),
            None => Output::Lines,
        }
    }

    /// The text of a report.
    pub fn text_of(self, alloc: Global, report: &Report) -> Result<Text, NoMemory>
        requires { IsFitting report.now }
        ensures { IfOk result (λ text. text ≡ written_as self report.now) }
    {
        match self {
            Output::Lines => report_text(alloc, report),
            Output::Json => report_json(alloc, report),
        }
    }

    /// The text of the report that memory was refused. It takes no memory.
    pub fn no_memory(self) -> &'static [u8]
        ensures { result.now ≡ written_as self Report.NoMemory }
    {
        match self {
            Output::Lines => b"no memory\n",
            Output::Json => no_memory_json(),
        }
    }
}
