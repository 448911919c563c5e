//! The parts of the items for a number.
ghost use Rattle.std.specs.Prelude.{◌≡◌, ◌∷◌, [], ◌++◌, true, decimal, IfOk};
ghost use Rattle.ft_tree.specs.meaning.Bare.{start};
ghost use Rattle.ft_tree.specs.declared.expr.Expr.TheVariants.{Age, Name, Neg, Not, Num, Prev, Truth, Two};
ghost use Rattle.ft_tree.specs.declared.item.Kind.TheVariants as kind;
ghost use Rattle.ft_tree.specs.declared.item.Plain.TheVariants as plain;
ghost use Rattle.ft_gen.specs.building.Drafts.{bound_of, number_bound, word_of};
ghost use Rattle.ft_gen.specs.building.Items.{numbered};

use ft_base::{Boxed, List, NoMemory, Place, Text};
use ft_tree::{Bound, Expr, Op, Plain, Row, Word};
use std::alloc::Global;

/// The place of each part: a tree that isn't read has none in a text.
pub const START: Place = Place { line: 1, column: 1 };

/// A word, and a number after it.
pub fn numbered(alloc: Global, prefix: &[u8], number: u32) -> Result<Text, NoMemory>
    ensures { IfOk result (λ text. text ≡ numbered prefix.now number) }
{
    let mut text = Text::copy_of(alloc, prefix)?;
    let digits = number.to_string(alloc)?;
    text.extend(digits.as_bytes())?;
    Ok(text)
}

/// The list of one item.
pub fn only<T: Drop>(alloc: Global, item: T) -> Result<List<T>, NoMemory>
    ensures { IfOk result (λ list. list ≡ item ∷ []) }
{
    let mut list = List::new(alloc);
    list.push(item)?;
    Ok(list)
}

/// The list of two items.
pub fn pair<T: Drop>(alloc: Global, first: T, second: T) -> Result<List<T>, NoMemory>
    ensures { IfOk result (λ list. list ≡ first ∷ second ∷ []) }
{
    let mut list = List::new(alloc);
    list.push(first)?;
    list.push(second)?;
    Ok(list)
}

/// The list of three items.
pub fn triple<T: Drop>(alloc: Global, first: T, second: T, third: T) -> Result<List<T>, NoMemory>
    ensures { IfOk result (λ list. list ≡ first ∷ second ∷ third ∷ []) }
{
    let mut list = List::new(alloc);
    list.push(first)?;
    list.push(second)?;
    list.push(third)?;
    Ok(list)
}

/// A name that has no number.
pub fn word(alloc: Global, text: &[u8]) -> Result<Word, NoMemory>
    ensures { IfOk result (λ word. word ≡ word_of text.now) }
{
    Ok(Word {
        text: Text::copy_of(alloc, text)?,
        place: START,
    })
}

/// A bound with no minus.
pub fn bound(value: Plain) -> Bound
    ensures { result ≡ bound_of value }
{
    Bound {
        minus: false,
        value,
        place: START,
    }
}

/// A number as a bound.
pub fn number_bound(value: u64) -> Bound
    ensures { result ≡ number_bound value }
{
    bound(Plain::Number(value))
}

/// A number as an expression.
pub fn number(value: u64) -> Expr
    ensures { result ≡ Num value start }
{
    Expr::Num {
        value,
        place: START,
    }
}

/// `true`.
pub fn always() -> Expr
    ensures { result ≡ Truth true start }
{
    Expr::Truth {
        value: true,
        place: START,
    }
}

/// A name that has no number, as an expression.
pub fn name(alloc: Global, text: &[u8]) -> Result<Expr, NoMemory>
    ensures { IfOk result (λ expr. expr ≡ Name text.now start) }
{
    Ok(Expr::Name {
        name: Text::copy_of(alloc, text)?,
        place: START,
    })
}

/// Two expressions, joined by an operator.
pub fn joined(alloc: Global, op: Op, left: Expr, right: Expr) -> Result<Expr, NoMemory>
    ensures { IfOk result (λ expr. expr ≡ Two op left right start) }
{
    Ok(Expr::Two {
        op,
        left: Boxed::new(alloc, left)?,
        right: Boxed::new(alloc, right)?,
        place: START,
    })
}

/// The opposite of a condition.
pub fn denied(alloc: Global, of: Expr) -> Result<Expr, NoMemory>
    ensures { IfOk result (λ expr. expr ≡ Not of start) }
{
    Ok(Expr::Not {
        of: Boxed::new(alloc, of)?,
        place: START,
    })
}

/// An expression with a minus.
pub fn negated(alloc: Global, of: Expr) -> Result<Expr, NoMemory>
    ensures { IfOk result (λ expr. expr ≡ Neg of start) }
{
    Ok(Expr::Neg {
        of: Boxed::new(alloc, of)?,
        place: START,
    })
}

/// A row of one entry.
pub fn row(alloc: Global, head: Expr, entry: Expr) -> Result<Row, NoMemory>
    ensures { IfOk result (λ row. row ≡ record { place = start; head = head; entries = entry ∷ [] }) }
{
    Ok(Row {
        place: START,
        head,
        entries: only(alloc, entry)?,
    })
}
