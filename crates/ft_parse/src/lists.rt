ghost use Rattle.std.specs.Prelude.{◌≡◌};
ghost use Rattle.ft_parse.specs.parsers.Items.{entries_by, more_entries_by, more_names_by, names_by};
ghost use Rattle.ft_read.specs.parsers.Combinators.{Gives};

use crate::expressions::expression;
use ft_base::List;
use ft_read::{Cursor, LimitWord, Stop, counted_name, name, sign};
use ft_tree::{Expr, Word};
use std::alloc::Global;

/// How many entries a header or a row has at most.
const MOST_ENTRIES: usize = 32;

/// A comma and an entry more.
#[tactic(auto, unfolding(crate::specs::parsers::Items::more_entries_by))]
fn more_entries(alloc: Global, cursor: &mut Cursor, entries: &mut List<Expr>) -> Result<(), Stop>
    ensures { Gives (λ _. entries.new) result cursor.new (more_entries_by entries.old cursor.old) }
{
    sign(cursor, b",")?;
    let entry = expression(alloc, cursor, entries.len() >= MOST_ENTRIES)?;
    entries.push(entry)?;
    Ok(())
}

/// The entries of a header or of a row.
#[tactic(auto, using(crate::proofs::ListLemmas::entries), unfolding(crate::specs::parsers::Items::entries_by))]
pub fn entries(alloc: Global, cursor: &mut Cursor) -> Result<List<Expr>, Stop>
    ensures { Gives (λ entries. entries) result cursor.new (entries_by cursor.old) }
{
    let mut entries = List::new(alloc);
    entries.push(expression(alloc, cursor, false)?)?;
    while cursor.is_sign(b",") {
        more_entries(alloc, cursor, &mut entries)?;
    }
    Ok(entries)
}

/// A comma and a name more, of which there may be so many.
#[tactic(auto, unfolding(crate::specs::parsers::Items::more_names_by))]
fn more_names(
    alloc: Global,
    cursor: &mut Cursor,
    most: usize,
    which: LimitWord,
    names: &mut List<Word>,
) -> Result<(), Stop>
    ensures { Gives (λ _. names.new) result cursor.new (more_names_by most which names.old cursor.old) }
{
    sign(cursor, b",")?;
    let name = counted_name(alloc, cursor, names.len() >= most, which)?;
    names.push(name)?;
    Ok(())
}

/// Names with commas between them, at most so many.
#[tactic(auto, using(crate::proofs::ListLemmas::names), unfolding(crate::specs::parsers::Items::names_by))]
pub fn names(
    alloc: Global,
    cursor: &mut Cursor,
    most: usize,
    which: LimitWord,
) -> Result<List<Word>, Stop>
    ensures { Gives (λ names. names) result cursor.new (names_by most which cursor.old) }
{
    let mut names = List::new(alloc);
    names.push(name(alloc, cursor)?)?;
    while cursor.is_sign(b",") {
        more_names(alloc, cursor, most, which, &mut names)?;
    }
    Ok(names)
}
