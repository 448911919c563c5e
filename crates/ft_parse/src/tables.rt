ghost use Rattle.std.specs.Prelude.{◌≡◌, List, codes};
ghost use Rattle.ft_tree.specs.declared.expr.Expr.{Expr};
ghost use Rattle.ft_tree.specs.declared.item.Item.{Item};
ghost use Rattle.ft_tree.specs.declared.item.Item.TheVariants as item;
ghost use Rattle.ft_tree.specs.declared.item.Row.{Row};
ghost use Rattle.ft_tree.specs.declared.item.Word.{Word};
ghost use Rattle.ft_read.specs.meaning.Lexeme.{as_word};
ghost use Rattle.ft_parse.specs.parsers.Items.{grid_by, header_by, row_by, row_word_by, several_by, table_by, vector_grid_by, vrow_by};
ghost use Rattle.ft_read.specs.parsers.Combinators.{Gives, can};
ghost use Rattle.ft_parse.specs.parsers.Steps.{one_more, vector_by};

use crate::counts::{Items, Sort, declared};
use crate::expressions::expression;
use crate::lists::entries;
use ft_base::{List, Place};
use ft_read::{Cursor, LimitWord, Limits, SectionAt, Stop, name, sign, word};
use ft_tree::{Expr, Item, Row, SectionWord, VRow, Word};
use std::alloc::Global;

/// How many rows a table has at most.
const MOST_ROWS: usize = 32;

/// The word of a row, after so many rows.
#[tactic(auto, unfolding(crate::specs::parsers::Items::row_word_by))]
fn row_word(cursor: &mut Cursor, before: usize) -> Result<Place, Stop>
    ensures { Gives (λ place. place) result cursor.new (row_word_by before cursor.old) }
{
    let limits = Limits::Counted {
        is_full: before >= MOST_ROWS,
        which: LimitWord::Rows,
    };
    cursor.word(b"row", limits)
}

/// A row of a table that defines one variable.
#[tactic(auto, unfolding(crate::specs::parsers::Items::row_by))]
fn row(alloc: Global, cursor: &mut Cursor, before: usize) -> Result<Row, Stop>
    ensures { Gives (λ row. row) result cursor.new (row_by before cursor.old) }
{
    let place = row_word(cursor, before)?;
    let head = expression(alloc, cursor, false)?;
    sign(cursor, b":")?;
    let entries = entries(alloc, cursor)?;
    sign(cursor, b";")?;
    Ok(Row {
        place,
        head,
        entries,
    })
}

/// A row more.
fn more_rows(alloc: Global, cursor: &mut Cursor, rows: &mut List<Row>) -> Result<(), Stop>
    ensures { Gives (λ _. rows.new) result cursor.new (one_more row_by rows.old cursor.old) }
{
    let row = row(alloc, cursor, rows.len())?;
    rows.push(row)?;
    Ok(())
}

/// The rows of a table that defines one variable.
#[tactic(auto, using(crate::proofs::TableLemmas::rows))]
fn rows(alloc: Global, cursor: &mut Cursor) -> Result<List<Row>, Stop>
    ensures { Gives (λ rows. rows) result cursor.new (several_by (can (as_word (codes "row"))) row_by cursor.old) }
{
    let mut rows = List::new(alloc);
    more_rows(alloc, cursor, &mut rows)?;
    while cursor.is_word(b"row") {
        more_rows(alloc, cursor, &mut rows)?;
    }
    Ok(rows)
}

/// A row of a vector table.
#[tactic(auto, unfolding(crate::specs::parsers::Items::vrow_by))]
fn vector_row(alloc: Global, cursor: &mut Cursor, before: usize) -> Result<VRow, Stop>
    ensures { Gives (λ row. row) result cursor.new (vrow_by before cursor.old) }
{
    let place = row_word(cursor, before)?;
    let target = name(alloc, cursor)?;
    sign(cursor, b":")?;
    let entries = entries(alloc, cursor)?;
    sign(cursor, b";")?;
    Ok(VRow {
        place,
        target,
        entries,
    })
}

/// A row more of a vector table.
fn more_vector_rows(alloc: Global, cursor: &mut Cursor, rows: &mut List<VRow>) -> Result<(), Stop>
    ensures { Gives (λ _. rows.new) result cursor.new (one_more vrow_by rows.old cursor.old) }
{
    let row = vector_row(alloc, cursor, rows.len())?;
    rows.push(row)?;
    Ok(())
}

/// The rows of a vector table.
#[tactic(auto, using(crate::proofs::TableLemmas::vector_rows))]
fn vector_rows(alloc: Global, cursor: &mut Cursor) -> Result<List<VRow>, Stop>
    ensures { Gives (λ rows. rows) result cursor.new (several_by (can (as_word (codes "row"))) vrow_by cursor.old) }
{
    let mut rows = List::new(alloc);
    more_vector_rows(alloc, cursor, &mut rows)?;
    while cursor.is_word(b"row") {
        more_vector_rows(alloc, cursor, &mut rows)?;
    }
    Ok(rows)
}

/// The header of a table, which begins with this word.
#[tactic(auto, unfolding(crate::specs::parsers::Items::header_by))]
fn header(alloc: Global, cursor: &mut Cursor, first: &[u8]) -> Result<List<Expr>, Stop>
    ensures { Gives (λ entries. entries) result cursor.new (header_by first.now cursor.old) }
{
    word(cursor, first)?;
    let entries = entries(alloc, cursor)?;
    sign(cursor, b";")?;
    Ok(entries)
}

/// A table that defines one variable, without its section and kind.
#[derive(Drop)]
struct GridParts {
    target: Word,
    header: List<Expr>,
    rows: List<Row>,
}

/// The rest of a table that defines one variable, whose header begins with this word.
#[tactic(auto, unfolding(crate::specs::parsers::Items::grid_by))]
fn grid(alloc: Global, cursor: &mut Cursor, before: &Items, first: &[u8]) -> Result<GridParts, Stop>
    ensures { (make : Word → List Expr → List Row → Item)
        → Gives (λ grid. make grid.target grid.header grid.rows) result cursor.new (grid_by before.now first.now make cursor.old) }
{
    let target = declared(alloc, cursor, before, Sort::Tables, LimitWord::Tables)?;
    sign(cursor, b"{")?;
    let header = header(alloc, cursor, first)?;
    let rows = rows(alloc, cursor)?;
    sign(cursor, b"}")?;
    Ok(GridParts {
        target,
        header,
        rows,
    })
}

/// A normal table of a section.
fn normal(section: SectionWord, grid: GridParts) -> Item
    ensures { result ≡ item.Normal section grid.target grid.header grid.rows }
{
    Item::Normal {
        section,
        target: grid.target,
        columns: grid.header,
        rows: grid.rows,
    }
}

/// An inverted table of a section.
fn inverted(section: SectionWord, grid: GridParts) -> Item
    ensures { result ≡ item.Inverted section grid.target grid.header grid.rows }
{
    Item::Inverted {
        section,
        target: grid.target,
        terms: grid.header,
        rows: grid.rows,
    }
}

/// The rest of a vector table.
#[tactic(auto, unfolding(crate::specs::parsers::Items::vector_grid_by))]
fn vector_grid(alloc: Global, cursor: &mut Cursor, section: SectionWord) -> Result<Item, Stop>
    ensures { Gives (λ item. item) result cursor.new (vector_grid_by section cursor.old) }
{
    sign(cursor, b"{")?;
    let columns = header(alloc, cursor, b"columns")?;
    let rows = vector_rows(alloc, cursor)?;
    sign(cursor, b"}")?;
    Ok(Item::Vector {
        section,
        columns,
        rows,
    })
}

/// A vector table after its section.
fn vector(
    alloc: Global,
    cursor: &mut Cursor,
    before: &Items,
    section: SectionAt,
) -> Result<Item, Stop>
    ensures { Gives (λ item. item) result cursor.new (vector_by before.now section cursor.old) }
{
    let limits = Limits::CountedAt {
        is_full: before.is_full(Sort::Tables),
        which: LimitWord::Tables,
        place: section.place,
    };
    cursor.word(b"vector", limits)?;
    vector_grid(alloc, cursor, section.word)
}

/// A table after its section.
#[tactic(auto, unfolding(crate::specs::parsers::Items::table_by))]
pub fn table(
    alloc: Global,
    cursor: &mut Cursor,
    before: &Items,
    section: SectionAt,
) -> Result<Item, Stop>
    ensures { Gives (λ item. item) result cursor.new (table_by before.now section cursor.old) }
{
    if cursor.is_word(b"normal") {
        word(cursor, b"normal")?;
        let grid = grid(alloc, cursor, before, b"columns")?;
        return Ok(normal(section.word, grid));
    }
    if cursor.is_word(b"inverted") {
        word(cursor, b"inverted")?;
        let grid = grid(alloc, cursor, before, b"terms")?;
        return Ok(inverted(section.word, grid));
    }
    vector(alloc, cursor, before, section)
}
