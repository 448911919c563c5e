//! The lines of a state.
ghost use Rattle.std.specs.Prelude.{◌≡◌, ◌++◌, IfOk, OnOk};
ghost use Rattle.std.specs.List.{flat_map, zip};
ghost use Rattle.ft_report.specs.meaning.States.{member_at, state_text, value_line, value_text};

use crate::lines::add_value;
use ft_base::{List, NoMemory, Text};
use ft_core::{Label, State};
use std::alloc::Global;

/// Adds the member at this position, where there is one.
fn add_member(text: &mut Text, members: &[Text], value: i64) -> Result<(), NoMemory>
    ensures { OnOk result (text.new ≡ text.old ++ member_at members.now value) }
{
    if value < 0 {
        return Ok(());
    }
    match members.get(value as usize) {
        Some(member) => text.extend(member.as_slice()),
        None => Ok(()),
    }
}

/// The member at this position, and nothing where there is none.
pub fn member_at(alloc: Global, members: &[Text], value: i64) -> Result<Text, NoMemory>
    ensures { IfOk result (λ text. text ≡ member_at members.now value) }
{
    let mut text = List::new(alloc);
    add_member(&mut text, members, value)?;
    Ok(text)
}

/// Adds a number, or where there are members the one at this position.
fn add_told(alloc: Global, text: &mut Text, members: &[Text], value: i64) -> Result<(), NoMemory>
    ensures { OnOk result (text.new ≡ text.old ++ value_text members.now value) }
{
    if members.len() == 0 {
        return add_value(alloc, text, value);
    }
    add_member(text, members, value)
}

/// Adds the line of a label and its value.
fn add_line(alloc: Global, text: &mut Text, label: &Label, value: i64) -> Result<(), NoMemory>
    ensures { OnOk result (text.new ≡ text.old ++ value_line label.now value) }
{
    text.extend(b"  ")?;
    text.extend(label.name.as_slice())?;
    text.push(b'=')?;
    add_told(alloc, text, label.members.as_slice(), value)?;
    text.push(b'\n')
}

fn add_lines(
    alloc: Global,
    text: &mut Text,
    labels: &[Label],
    values: &[i64],
) -> Result<(), NoMemory>
    ensures { OnOk result (text.new ≡ text.old ++ flat_map (λ entry. value_line entry.0 entry.1) (zip labels.now values.now)) }
{
    for at in 0..labels.len().min(values.len()) {
        add_line(alloc, text, &labels[at], values[at])?;
    }
    Ok(())
}

/// Adds a state: a line for each label.
pub(crate) fn add_state(alloc: Global, text: &mut Text, state: &State) -> Result<(), NoMemory>
    ensures { OnOk result (text.new ≡ text.old ++ state_text state.now) }
{
    add_lines(
        alloc,
        text,
        state.labels.as_slice(),
        state.values.as_slice(),
    )
}
