ghost use Rattle.std.specs.Prelude.{◌≡◌, codes};
ghost use Rattle.ft_read.specs.meaning.Lexeme.{as_sign};
ghost use Rattle.ft_parse.specs.parsers.Items.{clause_by, constant_by, item_part_by, members_by, range_type_by, sided_by, signed_number_by};
ghost use Rattle.ft_parse.specs.parsers.Items.{type_item_by};
ghost use Rattle.ft_read.specs.parsers.Combinators.{Gives, can, alternative_by};
ghost use Rattle.ft_parse.specs.parsers.Steps.{worded_by};

use crate::blocks::block;
use crate::counts::{Items, Sort, declared};
use crate::expressions::expression;
use crate::lists::names;
use crate::memories::{held, hyst};
use crate::tables::table;
use crate::variables::{inner_words, variable};
use ft_read::{
    Cursor, LimitWord, Limits, SectionAt, Stop, bound, is_map, is_side, is_var_word, number,
    read_map, read_moment, read_side, read_var_word, sign, upper, word,
};
use ft_tree::{Item, Number, Word};
use std::alloc::Global;

/// How many members a type has at most.
const MOST_MEMBERS: usize = 64;

/// A number, and whether a `-` stands before it.
#[tactic(auto, unfolding(crate::specs::parsers::Items::signed_number_by))]
fn signed_number(cursor: &mut Cursor) -> Result<(bool, Number), Stop>
    ensures { Gives (λ read. read) result cursor.new (signed_number_by cursor.old) }
{
    if cursor.is_sign(b"-") {
        sign(cursor, b"-")?;
        let value = number(cursor)?;
        return Ok((true, value));
    }
    let value = number(cursor)?;
    Ok((false, value))
}

/// A constant.
#[tactic(auto, unfolding(crate::specs::parsers::Items::constant_by))]
fn constant(alloc: Global, cursor: &mut Cursor, before: &Items) -> Result<Item, Stop>
    ensures { Gives (λ item. item) result cursor.new (constant_by before.now cursor.old) }
{
    word(cursor, b"const")?;
    let name = declared(alloc, cursor, before, Sort::Constants, LimitWord::Constants)?;
    sign(cursor, b"=")?;
    let (minus, value) = signed_number(cursor)?;
    sign(cursor, b";")?;
    Ok(Item::Constant { name, minus, value })
}

/// The members of a type in braces.
#[tactic(auto, unfolding(crate::specs::parsers::Items::members_by))]
fn members(alloc: Global, cursor: &mut Cursor, name: Word) -> Result<Item, Stop>
    ensures { Gives (λ item. item) result cursor.new (members_by name cursor.old) }
{
    sign(cursor, b"{")?;
    let members = names(alloc, cursor, MOST_MEMBERS, LimitWord::Members)?;
    sign(cursor, b"}")?;
    Ok(Item::EnumType { name, members })
}

/// The range of a type.
#[tactic(auto, unfolding(crate::specs::parsers::Items::range_type_by))]
fn range_type(alloc: Global, cursor: &mut Cursor, name: Word) -> Result<Item, Stop>
    ensures { Gives (λ item. item) result cursor.new (range_type_by name cursor.old) }
{
    let lo = bound(alloc, cursor)?;
    let hi = upper(alloc, cursor)?;
    Ok(Item::RangeType { name, lo, hi })
}

/// What stands after the `=` of a type.
fn type_values(alloc: Global, cursor: &mut Cursor, name: Word) -> Result<Item, Stop>
    ensures { Gives (λ item. item) result cursor.new
        (alternative_by (can (as_sign (codes "{"))) (members_by name) (range_type_by name) cursor.old) }
{
    if cursor.is_sign(b"{") {
        members(alloc, cursor, name)
    } else {
        range_type(alloc, cursor, name)
    }
}

/// A type.
#[tactic(auto, unfolding(crate::specs::parsers::Items::type_item_by))]
fn type_item(alloc: Global, cursor: &mut Cursor, before: &Items) -> Result<Item, Stop>
    ensures { Gives (λ item. item) result cursor.new (type_item_by before.now cursor.old) }
{
    word(cursor, b"type")?;
    let name = declared(alloc, cursor, before, Sort::Types, LimitWord::Types)?;
    sign(cursor, b"=")?;
    let made = type_values(alloc, cursor, name)?;
    sign(cursor, b";")?;
    Ok(made)
}

/// A clause on the environment.
#[tactic(auto, unfolding(crate::specs::parsers::Items::clause_by))]
fn clause(alloc: Global, cursor: &mut Cursor, before: &Items) -> Result<Item, Stop>
    ensures { Gives (λ item. item) result cursor.new (clause_by before.now cursor.old) }
{
    let limits = Limits::Counted {
        is_full: before.is_full(Sort::Clauses),
        which: LimitWord::Nat,
    };
    cursor.word(b"nat", limits)?;
    let moment = read_moment(cursor)?;
    let cond = expression(alloc, cursor, false)?;
    sign(cursor, b";")?;
    Ok(Item::Nat { moment, cond })
}

/// What stands after the word of a side.
#[tactic(auto, unfolding(crate::specs::parsers::Items::sided_by))]
fn sided(alloc: Global, cursor: &mut Cursor, before: &Items, side: SectionAt) -> Result<Item, Stop>
    ensures { Gives (λ item. item) result cursor.new (sided_by before.now side cursor.old) }
{
    if cursor.is_word(b"var") {
        word(cursor, b"var")?;
        return variable(alloc, cursor, before, inner_words(side.word));
    }
    if cursor.is_word(b"held") {
        word(cursor, b"held")?;
        return held(alloc, cursor, before, side.word);
    }
    if cursor.is_word(b"hyst") {
        word(cursor, b"hyst")?;
        return hyst(alloc, cursor, before, side.word);
    }
    table(alloc, cursor, before, side)
}

/// An item that begins with words for a variable, a side or a map, or another one.
fn worded_item(alloc: Global, cursor: &mut Cursor, before: &Items) -> Result<Item, Stop>
    ensures { Gives (λ item. item) result cursor.new (worded_by before.now cursor.old) }
{
    if is_var_word(cursor) {
        let words = read_var_word(cursor)?;
        return variable(alloc, cursor, before, words);
    }
    if is_side(cursor) {
        let side = read_side(cursor)?;
        return sided(alloc, cursor, before, side);
    }
    if is_map(cursor) {
        let section = read_map(cursor)?;
        return table(alloc, cursor, before, section);
    }
    if cursor.is_word(b"nat") {
        return clause(alloc, cursor, before);
    }
    block(alloc, cursor, before)
}

/// An item, after these.
#[tactic(auto, unfolding(crate::specs::parsers::Items::item_part_by))]
pub fn item(alloc: Global, cursor: &mut Cursor, before: &Items) -> Result<Item, Stop>
    ensures { Gives (λ item. item) result cursor.new (item_part_by before.now cursor.old) }
{
    if cursor.is_word(b"const") {
        return constant(alloc, cursor, before);
    }
    if cursor.is_word(b"type") {
        return type_item(alloc, cursor, before);
    }
    worded_item(alloc, cursor, before)
}
