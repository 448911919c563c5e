ghost use Rattle.std.specs.Prelude.{◌≡◌, []};
ghost use Rattle.ft_parse.specs.parsers.Items.{is_item_start, more_items_by, set_by, setting_by};
ghost use Rattle.ft_read.specs.parsers.Combinators.{Gives, begins};
ghost use Rattle.ft_parse.specs.parsers.Repetition.{many};
ghost use Rattle.ft_parse.specs.parsers.Steps.{start_by};

use crate::counts::Items;
use crate::items::item;
use crate::parts::Parts;
use ft_base::Text;
use ft_read::{Cursor, Stop, is_map, is_side, is_var_word, name, number, sign, word};
use ft_tree::Number;
use std::alloc::Global;

/// A set's name and its period.
fn head(alloc: Global, cursor: &mut Cursor) -> Result<(Text, Number), Stop>
    ensures { Gives (λ read. read) result cursor.new (start_by cursor.old) }
{
    word(cursor, b"set")?;
    let name = name(alloc, cursor)?;
    sign(cursor, b";")?;
    word(cursor, b"period")?;
    let period = number(cursor)?;
    word(cursor, b"ms")?;
    sign(cursor, b";")?;
    Ok((name.text, period))
}

/// The number after this word, where it is there.
#[tactic(auto, unfolding(crate::specs::parsers::Items::setting_by))]
fn setting(cursor: &mut Cursor, first: &[u8]) -> Result<Option<Number>, Stop>
    ensures { Gives (λ setting. setting) result cursor.new (setting_by first.now cursor.old) }
{
    if !cursor.is_word(first) {
        return Ok(None);
    }
    word(cursor, first)?;
    let value = number(cursor)?;
    sign(cursor, b";")?;
    Ok(Some(value))
}

/// Whether an item is next.
#[tactic(auto, using(crate::proofs::BlockLemmas::starts))]
fn is_item(cursor: &Cursor) -> bool
    ensures { result ≡ begins is_item_start cursor.now.rest }
{
    cursor.is_word(b"const")
        || cursor.is_word(b"type")
        || is_var_word(cursor)
        || is_side(cursor)
        || is_map(cursor)
        || cursor.is_word(b"nat")
        || cursor.is_word(b"block")
}

/// An item more.
#[tactic(auto, unfolding(crate::specs::parsers::Items::more_items_by))]
fn more_items(alloc: Global, cursor: &mut Cursor, items: &mut Items) -> Result<(), Stop>
    ensures { Gives (λ _. items.new) result cursor.new (more_items_by items.old cursor.old) }
{
    let made = item(alloc, cursor, items)?;
    items.push(made)?;
    Ok(())
}

/// The items of a set.
#[tactic(auto, using(crate::proofs::BlockLemmas::items))]
fn read_items(alloc: Global, cursor: &mut Cursor) -> Result<Items, Stop>
    ensures { Gives (λ items. items) result cursor.new (many is_item_start more_items_by [] cursor.old) }
{
    let mut items = Items::new(alloc);
    while is_item(cursor) {
        more_items(alloc, cursor, &mut items)?;
    }
    Ok(items)
}

/// All of a set.
#[tactic(auto, using(crate::proofs::SetLemmas::sets))]
pub fn set(alloc: Global, cursor: &mut Cursor) -> Result<Parts, Stop>
    ensures { Gives (λ parts. parts) result cursor.new (set_by cursor.old) }
{
    let (name, period) = head(alloc, cursor)?;
    let splits = setting(cursor, b"splits")?;
    let depth = setting(cursor, b"depth")?;
    let items = read_items(alloc, cursor)?;
    cursor.end()?;
    Ok(Parts {
        name,
        period,
        splits,
        depth,
        items: items.into_list(),
    })
}
