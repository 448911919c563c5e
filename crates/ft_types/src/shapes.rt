ghost use Rattle.std.specs.Prelude.{◌≡◌, IfOk, length};
ghost use Rattle.ft_names.specs.meaning.First.{Answers, first_of};
ghost use Rattle.ft_types.specs.meaning.Shapes.{entries_fault, first_target, item_shape, row_fault, section_name, title, vector_row_fault};

use crate::examine::Examine;
use crate::fault::ItemFault;
use ft_base::{List, NoMemory, Place, Text};
use ft_names::Stop;
use ft_tree::{Item, Row, SectionWord, VRow};
use std::alloc::Global;

fn section_name(section: SectionWord) -> &'static [u8]
    ensures { result.now ≡ section_name section }
{
    match section {
        SectionWord::In => b"in",
        SectionWord::Req => b"req",
        SectionWord::Sof => b"sof",
        SectionWord::Out => b"out",
    }
}

/// A table's title.
pub fn title(alloc: Global, section: SectionWord, name: &[u8]) -> Result<Text, NoMemory>
    ensures { IfOk result (λ text. text ≡ title section name.now) }
{
    let mut text = List::copy_of(alloc, section_name(section))?;
    text.push(b' ')?;
    text.extend(name)?;
    Ok(text)
}

// A row of so many entries where the header has so many columns.
fn entries_fault(
    alloc: Global,
    section: SectionWord,
    name: &[u8],
    columns: usize,
    entries: usize,
    place: Place,
) -> Result<(), Stop<ItemFault>>
    ensures { Answers result (entries_fault section name.now columns entries place) }
{
    if entries == columns {
        Ok(())
    } else {
        let title = title(alloc, section, name)?;
        Err(Stop::Fault(ItemFault::Shape { title, place }))
    }
}

fn rows_fault(
    alloc: Global,
    section: SectionWord,
    name: &[u8],
    columns: usize,
    rows: &[Row],
) -> Result<(), Stop<ItemFault>>
    ensures { Answers result (first_of (row_fault section name.now columns) rows.now) }
{
    for row in rows {
        entries_fault(alloc, section, name, columns, row.entries.len(), row.place)?;
    }
    Ok(())
}

fn vector_rows_fault(
    alloc: Global,
    section: SectionWord,
    name: &[u8],
    columns: usize,
    rows: &[VRow],
) -> Result<(), Stop<ItemFault>>
    ensures { Answers result (first_of (vector_row_fault section name.now columns) rows.now) }
{
    for row in rows {
        entries_fault(alloc, section, name, columns, row.entries.len(), row.place)?;
    }
    Ok(())
}

// The rows of a vector table, whose title has the name of its first row.
fn vector_fault(
    alloc: Global,
    section: SectionWord,
    columns: usize,
    rows: &[VRow],
) -> Result<(), Stop<ItemFault>>
    ensures { Answers result (first_of (vector_row_fault section (first_target rows.now) columns) rows.now) }
{
    match rows.first() {
        Some(first) => {
            vector_rows_fault(alloc, section, first.target.text.as_slice(), columns, rows)
        }
        None => Ok(()),
    }
}

/// The test for rows that have not as many entries as the header.
#[derive(Drop)]
pub struct Shapes {
    pub alloc: Global,
}

impl Examine for Shapes {
    ghost use Rattle.ft_types.specs.meaning.Shapes.{item_shape};

    ghost test = { λ s. item_shape };

    ghost ready = { λ s. Unit {0} };

    fn item(&self, item: &Item) -> Result<(), Stop<ItemFault>> {
        match item {
            Item::Normal {
                section,
                target,
                columns,
                rows,
            } => rows_fault(
                self.alloc,
                *section,
                target.text.as_slice(),
                columns.len(),
                rows.as_slice(),
            ),
            Item::Inverted {
                section,
                target,
                terms,
                rows,
            } => rows_fault(
                self.alloc,
                *section,
                target.text.as_slice(),
                terms.len(),
                rows.as_slice(),
            ),
            Item::Vector {
                section,
                columns,
                rows,
            } => vector_fault(self.alloc, *section, columns.len(), rows.as_slice()),
            _ => Ok(()),
        }
    }
}
