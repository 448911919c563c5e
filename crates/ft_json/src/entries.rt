//! What reports tell beside a status and a verdict.
ghost use Rattle.std.specs.Prelude.{◌≡◌, codes, OnOk};
ghost use Rattle.serde_json.specs.Data.{put};
ghost use Rattle.serde_json.specs.View.{members_view};
ghost use Rattle.ft_report.specs.meaning.Fitting.{IsNumberOfFact, IsSubjectOf};
ghost use Rattle.ft_json.specs.building.Adding.{with_counts, with_fails, with_fault, with_list, with_set, with_short, with_shorts};
ghost use Rattle.ft_json.specs.building.Adding.{with_spent, with_state};

use crate::lists::list_value;
use crate::members::{put_count, put_text, put_value};
use crate::states::state_value;
use ft_base::NoMemory;
use ft_core::{History, State, Tables};
use ft_oblige::count;
use ft_report::{Short, Subject, obligation_name, short_words, spent_words};
use serde_json::{Map, Value};
use std::alloc::Global;

/// Puts how many there are of what a set has.
pub(crate) fn put_counts(
    alloc: Global,
    members: &mut Map<String, Value>,
    tables: &Tables,
) -> Result<(), NoMemory>
    ensures { OnOk result (members_view members.new.entries ≡ with_counts tables.now (members_view members.old.entries)) }
{
    put_count(alloc, members, "blocks", tables.blocks.len())?;
    put_count(alloc, members, "obligations", count(tables) as usize)?;
    put_count(alloc, members, "tables", tables.tables.len())?;
    put_count(alloc, members, "variables", tables.vars.len())
}

/// Puts the name of a set.
fn put_set(alloc: Global, members: &mut Map<String, Value>, tables: &Tables) -> Result<(), NoMemory>
    ensures { OnOk result (members_view members.new.entries ≡ with_set tables.now (members_view members.old.entries)) }
{
    put_text(alloc, members, "set", tables.name.as_slice())
}

/// Puts a list and its set's name.
pub(crate) fn put_list(
    alloc: Global,
    members: &mut Map<String, Value>,
    tables: &Tables,
    list: &History,
) -> Result<(), NoMemory>
    ensures { OnOk result (members_view members.new.entries ≡ with_list tables.now list.now (members_view members.old.entries)) }
{
    put_set(alloc, members, tables)?;
    let value = list_value(alloc, tables, list)?;
    put_value(alloc, members, "list", value)
}

/// Puts a fault.
pub(crate) fn put_fault(
    alloc: Global,
    members: &mut Map<String, Value>,
    fault: &[u8],
) -> Result<(), NoMemory>
    ensures { OnOk result (members_view members.new.entries ≡ with_fault fault.now (members_view members.old.entries)) }
{
    put_text(alloc, members, "fault", fault)
}

/// Puts a state.
pub(crate) fn put_state(
    alloc: Global,
    members: &mut Map<String, Value>,
    state: &State,
) -> Result<(), NoMemory>
    ensures { OnOk result (members_view members.new.entries ≡ with_state state.now (members_view members.old.entries)) }
{
    let value = state_value(alloc, state)?;
    put_value(alloc, members, "state", value)
}

/// Puts what is known of short lists.
pub(crate) fn put_short(
    alloc: Global,
    members: &mut Map<String, Value>,
    tables: &Tables,
    short: &Short,
) -> Result<(), NoMemory>
    ensures { OnOk result (members_view members.new.entries ≡ with_short tables.now short.now (members_view members.old.entries)) }
{
    let words = short_words(alloc, tables, short)?;
    put_text(alloc, members, "short", words.as_slice())
}

/// Puts what is known of short lists, where they were searched.
pub(crate) fn put_shorts(
    alloc: Global,
    members: &mut Map<String, Value>,
    tables: &Tables,
    short: &Option<Short>,
) -> Result<(), NoMemory>
    ensures { OnOk result (members_view members.new.entries ≡ with_shorts tables.now short.now (members_view members.old.entries)) }
{
    match short {
        Some(short) => put_short(alloc, members, tables, short),
        None => Ok(()),
    }
}

/// Puts the name of an obligation whose fact fails, and its set's name.
pub(crate) fn put_fails(
    alloc: Global,
    members: &mut Map<String, Value>,
    tables: &Tables,
    obligation: u32,
) -> Result<(), NoMemory>
    requires { IsNumberOfFact tables.now obligation }
    ensures { OnOk result (members_view members.new.entries ≡ with_fails tables.now obligation (members_view members.old.entries)) }
{
    put_set(alloc, members, tables)?;
    let name = obligation_name(alloc, tables, obligation)?;
    put_text(alloc, members, "fails", name.as_slice())
}

/// Puts what a search that was spent looked for, and its set's name.
pub(crate) fn put_spent(
    alloc: Global,
    members: &mut Map<String, Value>,
    tables: &Tables,
    subject: Subject,
) -> Result<(), NoMemory>
    requires { IsSubjectOf tables.now subject }
    ensures { OnOk result (members_view members.new.entries ≡ with_spent tables.now subject (members_view members.old.entries)) }
{
    put_set(alloc, members, tables)?;
    let words = spent_words(alloc, tables, subject)?;
    put_text(alloc, members, "spent", words.as_slice())
}
