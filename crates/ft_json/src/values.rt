//! Texts and values as JSON.
ghost use Rattle.std.specs.Prelude.{◌≡◌, ◌∷◌, [], ◌++◌, map, IfOk, OnOk};
ghost use Rattle.serde_json.specs.View.{view};
ghost use Rattle.ft_json.specs.meaning.Values.{text_data, value_data};

use ft_base::{NoMemory, Text};
use ft_report::member_at;
use serde_json::Value;
use std::alloc::Global;

/// A text, in which U+FFFD stands for bytes that aren't UTF-8.
pub(crate) fn text_value(alloc: Global, text: &[u8]) -> Result<Value, NoMemory>
    ensures { IfOk result (λ value. view value ≡ text_data text.now) }
{
    let text = String::from_utf8_lossy(alloc, text)?;
    Ok(Value::from(text))
}

/// A whole number, or where there are members the name of the one at this position.
pub(crate) fn told_value(alloc: Global, members: &[Text], value: i64) -> Result<Value, NoMemory>
    ensures { IfOk result (λ told. view told ≡ value_data members.now value) }
{
    if members.len() == 0 {
        return Ok(Value::from(value));
    }
    let member = member_at(alloc, members, value)?;
    text_value(alloc, member.as_slice())
}

/// Adds a value at the end of an array.
pub(crate) fn add(list: &mut Vec<Value>, value: Value) -> Result<(), NoMemory>
    ensures { OnOk result (map view list.new.items ≡ map view list.old.items ++ view value ∷ []) }
{
    serde_json::push(list, value)?;
    Ok(())
}
