ghost use Rattle.std.specs.Prelude.{◌≡◌, false, codes, Some, None, IfOk};
ghost use Rattle.ft_tree.specs.declared.item.Plain.TheVariants as plain;
ghost use Rattle.ft_read.specs.parsers.Cursor.{ReadsAs, ReadsFirst, read_first};
ghost use Rattle.ft_read.specs.meaning.Choices.{as_plain, as_truth};
ghost use Rattle.ft_read.specs.meaning.Lexeme.{as_sign};
ghost use Rattle.ft_read.specs.parsers.Parts.{bound_by, kind_of_name_by, kind_part_by, minus_bound_by, number_bound_by, plain_bound_by};
ghost use Rattle.ft_read.specs.parsers.Parts.{range_after_by, upper_by, value_by};
ghost use Rattle.ft_read.specs.parsers.Combinators.{Gives, begins, can, alternative_by, read_token};

use crate::cursor::Cursor;
use crate::lexeme::Lexeme;
use crate::limits::Limits;
use crate::stop::Stop;
use crate::words::{name, number, sign, word};
use ft_base::{NoMemory, Place};
use ft_tree::{Bound, Kind, Plain, Word};
use std::alloc::Global;

/// The number or name that a token is.
#[tactic(auto, using(crate::proofs::BoundLemmas::plains))]
fn plain(alloc: Global, lexeme: &Lexeme) -> Result<Option<Bound>, NoMemory>
    ensures { IfOk result (ReadsAs as_plain lexeme.now) }
{
    if let Some(number) = lexeme.number() {
        return Ok(Some(Bound {
            minus: false,
            value: Plain::Number(number.value),
            place: number.place,
        }));
    }
    match lexeme.name(alloc)? {
        Some(word) => Ok(Some(Bound {
            minus: false,
            value: Plain::Name(word.text),
            place: word.place,
        })),
        None => Ok(None),
    }
}

/// The number or name that the next token is.
fn first_plain(alloc: Global, cursor: &Cursor) -> Result<Option<Bound>, NoMemory>
    ensures { IfOk result (ReadsFirst as_plain cursor.now.rest) }
{
    match cursor.first() {
        Some(lexeme) => plain(alloc, &lexeme),
        None => Ok(None),
    }
}

/// A number or a name.
#[tactic(auto, unfolding(crate::specs::parsers::Parts::plain_bound_by))]
pub fn plain_bound(alloc: Global, cursor: &mut Cursor) -> Result<Bound, Stop>
    ensures { Gives (λ bound. bound) result cursor.new (plain_bound_by cursor.old) }
{
    let read = first_plain(alloc, cursor)?;
    cursor.accept(read, Limits::Lexical)
}

/// A `-` and a number or a name.
#[tactic(auto, unfolding(crate::specs::parsers::Parts::minus_bound_by))]
fn minus_bound(alloc: Global, cursor: &mut Cursor) -> Result<Bound, Stop>
    ensures { Gives (λ bound. bound) result cursor.new (minus_bound_by cursor.old) }
{
    let place = sign(cursor, b"-")?;
    let bound = plain_bound(alloc, cursor)?;
    Ok(Bound {
        minus: true,
        value: bound.value,
        place,
    })
}

/// A number or a name, with a `-` before it or not.
#[tactic(auto, unfolding(crate::specs::parsers::Parts::bound_by))]
pub fn bound(alloc: Global, cursor: &mut Cursor) -> Result<Bound, Stop>
    ensures { Gives (λ bound. bound) result cursor.new (bound_by cursor.old) }
{
    if cursor.is_sign(b"-") {
        minus_bound(alloc, cursor)
    } else {
        plain_bound(alloc, cursor)
    }
}

/// A truth at a place, where there is one.
fn truth_at(value: bool, place: Option<Place>) -> Option<Bound>
    ensures { result ≡ elim place [ None ↦ None | Some p ↦ Some (record { minus = false; value = plain.Truth value; place = p }) ] }
{
    Some(Bound {
        minus: false,
        value: Plain::Truth(value),
        place: place?,
    })
}

/// The truth that a token is.
fn truth(lexeme: &Lexeme) -> Option<Bound>
    ensures { result ≡ as_truth lexeme.now }
{
    truth_at(true, lexeme.word(b"true")).or(truth_at(false, lexeme.word(b"false")))
}

/// The truth that the next token is.
fn first_truth(cursor: &Cursor) -> Option<Bound>
    ensures { result ≡ read_first as_truth cursor.now.rest }
{
    truth(&cursor.first()?)
}

/// An `init` value: a truth, or a number or a name with a `-` before it or not.
#[tactic(auto, using(crate::proofs::CursorLemmas::reads, crate::proofs::CursorLemmas::tests), unfolding(crate::specs::parsers::Parts::value_by))]
pub fn value(alloc: Global, cursor: &mut Cursor) -> Result<Bound, Stop>
    ensures { Gives (λ value. value) result cursor.new (value_by cursor.old) }
{
    let read = first_truth(cursor);
    if read.is_some() {
        cursor.accept(read, Limits::Free)
    } else {
        bound(alloc, cursor)
    }
}

/// What stands after the lower bound of a range.
#[tactic(auto, unfolding(crate::specs::parsers::Parts::upper_by))]
pub fn upper(alloc: Global, cursor: &mut Cursor) -> Result<Bound, Stop>
    ensures { Gives (λ bound. bound) result cursor.new (upper_by cursor.old) }
{
    sign(cursor, b"..")?;
    bound(alloc, cursor)
}

/// The rest of a range after its lower bound.
#[tactic(auto, unfolding(crate::specs::parsers::Parts::range_after_by))]
fn range_after(alloc: Global, cursor: &mut Cursor, lo: Bound) -> Result<Kind, Stop>
    ensures { Gives (λ kind. kind) result cursor.new (range_after_by lo cursor.old) }
{
    let hi = upper(alloc, cursor)?;
    Ok(Kind::Range(lo, hi))
}

/// A name as a bound.
fn named(name: Word) -> Bound
    ensures { result ≡ record { minus = false; value = plain.Name name.text; place = name.place } }
{
    Bound {
        minus: false,
        value: Plain::Name(name.text),
        place: name.place,
    }
}

/// A kind that begins with this name: a range from it, or the type of that name.
#[tactic(auto, unfolding(crate::specs::parsers::Parts::kind_of_name_by, crate::specs::parsers::Parts::range_after_by))]
fn kind_of_name(alloc: Global, cursor: &mut Cursor, name: Word) -> Result<Kind, Stop>
    ensures { Gives (λ kind. kind) result cursor.new (kind_of_name_by name cursor.old) }
{
    if cursor.is_sign(b"..") {
        range_after(alloc, cursor, named(name))
    } else {
        Ok(Kind::Named(name))
    }
}

/// A number as the lower bound of a range.
#[tactic(auto, unfolding(crate::specs::parsers::Parts::number_bound_by))]
fn number_bound(cursor: &mut Cursor) -> Result<Bound, Stop>
    ensures { Gives (λ bound. bound) result cursor.new (number_bound_by cursor.old) }
{
    let number = number(cursor)?;
    Ok(Bound {
        minus: false,
        value: Plain::Number(number.value),
        place: number.place,
    })
}

/// The lower bound of a range that doesn't begin with a name.
fn lower_bound(alloc: Global, cursor: &mut Cursor) -> Result<Bound, Stop>
    ensures { Gives (λ bound. bound) result cursor.new
        (alternative_by (can (as_sign (codes "-"))) minus_bound_by number_bound_by cursor.old) }
{
    if cursor.is_sign(b"-") {
        minus_bound(alloc, cursor)
    } else {
        number_bound(cursor)
    }
}

/// What values a variable has: those of a range, of a type, or the truths.
#[tactic(auto, unfolding(crate::specs::parsers::Parts::kind_part_by))]
pub fn kind(alloc: Global, cursor: &mut Cursor) -> Result<Kind, Stop>
    ensures { Gives (λ kind. kind) result cursor.new (kind_part_by cursor.old) }
{
    if cursor.is_word(b"bool") {
        word(cursor, b"bool")?;
        return Ok(Kind::Bool);
    }
    if cursor.is_name() {
        let name = name(alloc, cursor)?;
        return kind_of_name(alloc, cursor, name);
    }
    let lo = lower_bound(alloc, cursor)?;
    range_after(alloc, cursor, lo)
}
