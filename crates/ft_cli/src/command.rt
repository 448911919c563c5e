ghost use Rattle.std.specs.Prelude.{◌≡◌, map, option_map, string_bytes};
ghost use Rattle.ft_cli.specs.Top.{command_named, command_of, command_on_number, command_on_two};
ghost use Rattle.ft_cli.specs.stages.Command.{asked_by};

use crate::number::set_number;

/// What the words ask for.
#[derive(Clone, Copy, Drop)]
pub enum Command<'w> {
    /// The verdict on the set in this file.
    Verify(&'w str),
    /// The canonical text of the set in this file.
    Print(&'w str),
    /// What the two sides of the set in this file do on the trace in the other.
    Replay { file: &'w str, trace: &'w str },
    /// The canonical text of the generated set of this number, from 1 to 60.
    Gen(u32),
    /// The verdict on the generated set of this number, from 1 to 60.
    Demo(u32),
}

/// The command of this name on a number.
fn command_on_number<'w>(name: &str, word: &str) -> Option<Command<'w>>
    ensures { option_map asked_by result ≡ command_on_number name.now word.now }
{
    match (name, set_number(word.as_bytes())) {
        ("gen", Some(number)) => Some(Command::Gen(number)),
        ("demo", Some(number)) => Some(Command::Demo(number)),
        _ => None,
    }
}

/// The command of this name on this file, or on this number.
fn command_named<'w>(name: &str, word: &'w str) -> Option<Command<'w>>
    ensures { option_map asked_by result ≡ command_named name.now word.now }
{
    match name {
        "verify" | "verify-json" => Some(Command::Verify(word)),
        "print" => Some(Command::Print(word)),
        _ => command_on_number(name, word),
    }
}

/// The command of this name on the file of a set and that of a trace.
fn command_on_two<'w>(name: &str, file: &'w str, trace: &'w str) -> Option<Command<'w>>
    ensures { option_map asked_by result ≡ command_on_two name.now file.now trace.now }
{
    match name {
        "replay" => Some(Command::Replay { file, trace }),
        _ => None,
    }
}

/// The command that the words are.
pub fn command_of(words: &[String]) -> Option<Command<'_>>
    ensures { option_map asked_by result ≡ command_of (map string_bytes words.now) }
{
    match words {
        [name, word] => command_named(name.as_str(), word.as_str()),
        [name, file, trace] => command_on_two(name.as_str(), file.as_str(), trace.as_str()),
        _ => None,
    }
}
