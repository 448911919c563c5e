ghost use Rattle.std.specs.Prelude.{◌≡◌, codes};
ghost use Rattle.ft_parse.specs.parsers.Items.{as_fact_word, block_by, fact_name_by, fact_part_by, listed_by, several_by};
ghost use Rattle.ft_read.specs.parsers.Combinators.{Gives, begins, can};
ghost use Rattle.ft_parse.specs.parsers.Steps.{one_more};

use crate::counts::{Items, Sort, declared};
use crate::expressions::expression;
use crate::lists::names;
use ft_base::List;
use ft_read::{Cursor, LimitWord, Stop, counted_name, sign, word};
use ft_tree::{FactItem, Item, Word};
use std::alloc::Global;

/// How many names stand at most after `takes` or `uses`.
const MOST_LISTED: usize = 300;

/// The names after this word, where it is there.
#[tactic(auto, unfolding(crate::specs::parsers::Items::listed_by))]
fn listed(alloc: Global, cursor: &mut Cursor, first: &[u8]) -> Result<List<Word>, Stop>
    ensures { Gives (λ names. names) result cursor.new (listed_by first.now cursor.old) }
{
    if !cursor.is_word(first) {
        return Ok(List::new(alloc));
    }
    word(cursor, first)?;
    let names = names(alloc, cursor, MOST_LISTED, LimitWord::List)?;
    sign(cursor, b";")?;
    Ok(names)
}

/// The name of a fact, after so many facts of the block.
#[tactic(auto, unfolding(crate::specs::parsers::Items::fact_name_by))]
fn fact_name(alloc: Global, cursor: &mut Cursor, before: &Items, facts: usize) -> Result<Word, Stop>
    ensures { Gives (λ name. name) result cursor.new (fact_name_by before.now facts cursor.old) }
{
    counted_name(
        alloc,
        cursor,
        before.has_no_room_after(facts),
        LimitWord::Facts,
    )
}

/// A fact, after so many facts of the block.
#[tactic(auto, unfolding(crate::specs::parsers::Items::fact_part_by))]
fn fact(alloc: Global, cursor: &mut Cursor, before: &Items, facts: usize) -> Result<FactItem, Stop>
    ensures { Gives (λ fact. fact) result cursor.new (fact_part_by before.now facts cursor.old) }
{
    if cursor.is_word(b"shows") {
        word(cursor, b"shows")?;
        let name = fact_name(alloc, cursor, before, facts)?;
        sign(cursor, b":")?;
        let cond = expression(alloc, cursor, false)?;
        sign(cursor, b";")?;
        return Ok(FactItem::Shows { name, cond });
    }
    word(cursor, b"goal")?;
    let con = fact_name(alloc, cursor, before, facts)?;
    sign(cursor, b";")?;
    Ok(FactItem::Goal { con })
}

/// Whether a fact is next.
#[tactic(auto, using(crate::proofs::BlockLemmas::starts))]
fn is_fact(cursor: &Cursor) -> bool
    ensures { result ≡ begins (can as_fact_word) cursor.now.rest }
{
    cursor.is_word(b"shows") || cursor.is_word(b"goal")
}

/// A fact more.
fn more_facts(
    alloc: Global,
    cursor: &mut Cursor,
    before: &Items,
    facts: &mut List<FactItem>,
) -> Result<(), Stop>
    ensures { Gives (λ _. facts.new) result cursor.new (one_more (fact_part_by before.now) facts.old cursor.old) }
{
    let fact = fact(alloc, cursor, before, facts.len())?;
    facts.push(fact)?;
    Ok(())
}

/// The facts of a block.
#[tactic(auto, using(crate::proofs::BlockLemmas::facts))]
fn facts(alloc: Global, cursor: &mut Cursor, before: &Items) -> Result<List<FactItem>, Stop>
    ensures { Gives (λ facts. facts) result cursor.new (several_by (can as_fact_word) (fact_part_by before.now) cursor.old) }
{
    let mut facts = List::new(alloc);
    more_facts(alloc, cursor, before, &mut facts)?;
    while is_fact(cursor) {
        more_facts(alloc, cursor, before, &mut facts)?;
    }
    Ok(facts)
}

/// A block.
#[tactic(auto, unfolding(crate::specs::parsers::Items::block_by))]
pub fn block(alloc: Global, cursor: &mut Cursor, before: &Items) -> Result<Item, Stop>
    ensures { Gives (λ item. item) result cursor.new (block_by before.now cursor.old) }
{
    word(cursor, b"block")?;
    let name = declared(alloc, cursor, before, Sort::Blocks, LimitWord::Blocks)?;
    sign(cursor, b"{")?;
    let takes = listed(alloc, cursor, b"takes")?;
    let uses = listed(alloc, cursor, b"uses")?;
    let facts = facts(alloc, cursor, before)?;
    sign(cursor, b"}")?;
    Ok(Item::Block {
        name,
        takes,
        uses,
        facts,
    })
}
