ghost use Rattle.std.specs.Prelude.{◌≡◌};
ghost use Rattle.ft_parse.specs.parsers.Items.{held_by, hyst_by};
ghost use Rattle.ft_read.specs.parsers.Combinators.{Gives};
ghost use Rattle.ft_parse.specs.parsers.Steps.{close_by, condition_by, limits_by};

use crate::counts::{Items, Sort, declared};
use crate::expressions::expression;
use ft_read::{Cursor, LimitWord, Stop, bound, plain_bound, read_start, sign, word};
use ft_tree::{Bound, Expr, Item, SectionWord, Word};
use std::alloc::Global;

/// A memory's name and its condition or term, with the comma after it.
fn condition(alloc: Global, cursor: &mut Cursor, before: &Items) -> Result<(Word, Expr), Stop>
    ensures { Gives (λ read. read) result cursor.new (condition_by before.now cursor.old) }
{
    let name = declared(alloc, cursor, before, Sort::Memories, LimitWord::Memories)?;
    sign(cursor, b"(")?;
    let of = expression(alloc, cursor, false)?;
    sign(cursor, b",")?;
    Ok((name, of))
}

/// The end of a memory.
fn close(cursor: &mut Cursor) -> Result<(), Stop>
    ensures { Gives (λ _. tt) result cursor.new (close_by cursor.old) }
{
    sign(cursor, b")")?;
    sign(cursor, b";")?;
    Ok(())
}

/// A timer after its words.
#[tactic(auto, using(crate::proofs::MemoryLemmas::timers))]
pub fn held(
    alloc: Global,
    cursor: &mut Cursor,
    before: &Items,
    side: SectionWord,
) -> Result<Item, Stop>
    ensures { Gives (λ item. item) result cursor.new (held_by before.now side cursor.old) }
{
    let (name, cond) = condition(alloc, cursor, before)?;
    let hold = plain_bound(alloc, cursor)?;
    word(cursor, b"ms")?;
    close(cursor)?;
    Ok(Item::Held {
        side,
        name,
        cond,
        hold,
    })
}

/// The lower and the upper bound of a band, and its start.
fn band(alloc: Global, cursor: &mut Cursor) -> Result<(Bound, Bound, bool), Stop>
    ensures { Gives (λ read. read) result cursor.new (limits_by cursor.old) }
{
    let lo = bound(alloc, cursor)?;
    sign(cursor, b",")?;
    let hi = bound(alloc, cursor)?;
    sign(cursor, b",")?;
    let start = read_start(cursor)?;
    Ok((lo, hi, start))
}

/// A band after its words.
#[tactic(auto, using(crate::proofs::MemoryLemmas::bands))]
pub fn hyst(
    alloc: Global,
    cursor: &mut Cursor,
    before: &Items,
    side: SectionWord,
) -> Result<Item, Stop>
    ensures { Gives (λ item. item) result cursor.new (hyst_by before.now side cursor.old) }
{
    let (name, term) = condition(alloc, cursor, before)?;
    let (lo, hi, start) = band(alloc, cursor)?;
    close(cursor)?;
    Ok(Item::Hyst {
        side,
        name,
        term,
        lo,
        hi,
        start,
    })
}
