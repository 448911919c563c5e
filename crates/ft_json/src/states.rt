//! A state as JSON.
ghost use Rattle.std.specs.Prelude.{◌≡◌, IfOk, OnOk};
ghost use Rattle.serde_json.specs.View.{members_view, view};
ghost use Rattle.ft_json.specs.meaning.Values.{state_data, with_label};

use crate::members::put_value;
use crate::values::told_value;
use ft_base::NoMemory;
use ft_core::{Label, State};
use serde_json::{Map, Value};
use std::alloc::Global;

/// Puts the value of a label at its name.
fn put_label(
    alloc: Global,
    members: &mut Map<String, Value>,
    label: &Label,
    value: i64,
) -> Result<(), NoMemory>
    ensures { OnOk result (members_view members.new.entries ≡ with_label (members_view members.old.entries) (label.now, value)) }
{
    let name = String::from_utf8_lossy(alloc, label.name.as_slice())?;
    let told = told_value(alloc, label.members.as_slice(), value)?;
    put_value(alloc, members, name.as_str(), told)
}

/// The values of a state by label.
pub(crate) fn state_value(alloc: Global, state: &State) -> Result<Value, NoMemory>
    ensures { IfOk result (λ value. view value ≡ state_data state.now) }
{
    let mut members = Map::new(alloc);
    'labels: for (label, value) in state.labels.as_slice().iter().zip(state.values.as_slice()) {
        put_label(alloc, &mut members, label, *value)?;
    }
    Ok(Value::from(members))
}
