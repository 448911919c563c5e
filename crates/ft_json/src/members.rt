//! The members of an object.
ghost use Rattle.std.specs.Prelude.{◌≡◌, OnOk};
ghost use Rattle.serde_json.specs.Data.{put};
ghost use Rattle.serde_json.specs.View.{members_view, view};
ghost use Rattle.ft_json.specs.meaning.Values.{count_data, text_data};

use crate::values::text_value;
use ft_base::NoMemory;
use serde_json::{Map, Value};
use std::alloc::Global;

/// Puts a value at a key.
pub(crate) fn put_value(
    alloc: Global,
    members: &mut Map<String, Value>,
    key: &str,
    value: Value,
) -> Result<(), NoMemory>
    ensures { OnOk result (members_view members.new.entries ≡ put key.now (view value) (members_view members.old.entries)) }
{
    serde_json::put(members, alloc, key, value)?;
    Ok(())
}

/// Puts a text at a key.
pub(crate) fn put_text(
    alloc: Global,
    members: &mut Map<String, Value>,
    key: &str,
    text: &[u8],
) -> Result<(), NoMemory>
    ensures { OnOk result (members_view members.new.entries ≡ put key.now (text_data text.now) (members_view members.old.entries)) }
{
    let value = text_value(alloc, text)?;
    put_value(alloc, members, key, value)
}

/// Puts a number that isn't negative at a key.
pub(crate) fn put_count(
    alloc: Global,
    members: &mut Map<String, Value>,
    key: &str,
    count: usize,
) -> Result<(), NoMemory>
    ensures { OnOk result (members_view members.new.entries ≡ put key.now (count_data count) (members_view members.old.entries)) }
{
    put_value(alloc, members, key, Value::from(count))
}
