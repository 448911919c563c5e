ghost use Rattle.std.specs.Prelude.{◌≡◌, ◌∷◌, ◌++◌, [], OnOk, codes, map};
ghost use Rattle.ft_tree.specs.meaning.Line.{token};
ghost use Rattle.ft_tree.specs.meaning.Lines.{block_lines, brace_line, exprs_line, head_line, row_line, table_head, table_lines};
ghost use Rattle.ft_tree.specs.meaning.Lines.{vector_head, vrow_line};
ghost use Rattle.ft_tree.specs.writing.Writer.{closed, put, with_line, with_lines};

use crate::expr::Expr;
use crate::item::{FactItem, Row, SectionWord, VRow, Word};
use crate::lines::{Lined, section, write_exprs_line, write_lines, write_part};
use crate::writer::Writer;
use ft_base::NoMemory;

// Ends the first line of a table or block.
#[tactic(auto, using(crate::proofs::WritingLemmas::steps))]
fn open_body(writer: &mut Writer) -> Result<(), NoMemory>
    ensures { OnOk result (writer.new ≡ closed (put writer.old (token (codes "{")))) }
{
    writer.put(b"{")?;
    writer.close()
}

#[tactic(auto, using(crate::proofs::WritingLemmas::steps))]
fn close_body(writer: &mut Writer) -> Result<(), NoMemory>
    ensures { OnOk result (writer.new ≡ with_line writer.old brace_line) }
{
    writer.put(b"}")?;
    writer.close()
}

// The inner lines of a table and its last.
#[tactic(auto, using(crate::proofs::WritingLemmas::steps))]
fn write_rows<T: Lined>(
    writer: &mut Writer,
    word: &[u8],
    header: &[Expr],
    rows: &[T],
) -> Result<(), NoMemory>
    ensures { OnOk result (writer.new
        ≡ with_lines writer.old ((exprs_line word.now header.now ∷ map T.line rows.now) ++ brace_line ∷ [])) }
{
    write_exprs_line(writer, word, header)?;
    write_lines(writer, rows)?;
    close_body(writer)
}

// The first line of a normal or inverted table.
#[tactic(auto, using(crate::proofs::WritingLemmas::steps))]
fn write_table_head(
    writer: &mut Writer,
    side: SectionWord,
    word: &[u8],
    target: &Word,
) -> Result<(), NoMemory>
    ensures { OnOk result (writer.new ≡ with_line writer.old (head_line (table_head side word.now target.now))) }
{
    writer.put(section(side))?;
    writer.put(word)?;
    writer.put(target.text.as_slice())?;
    open_body(writer)
}

// The first line of a vector table.
#[tactic(auto, using(crate::proofs::WritingLemmas::steps))]
fn write_vector_head(writer: &mut Writer, side: SectionWord) -> Result<(), NoMemory>
    ensures { OnOk result (writer.new ≡ with_line writer.old (head_line (vector_head side))) }
{
    writer.put(section(side))?;
    writer.put(b"vector")?;
    open_body(writer)
}

/// A normal or inverted table.
#[tactic(auto, using(crate::proofs::WritingLemmas::steps))]
pub fn write_table(
    writer: &mut Writer,
    side: SectionWord,
    word: &[u8],
    target: &Word,
    header_word: &[u8],
    header: &[Expr],
    rows: &[Row],
) -> Result<(), NoMemory>
    ensures { OnOk result (writer.new
        ≡ with_lines writer.old (table_lines row_line (table_head side word.now target.now) header_word.now header.now rows.now)) }
{
    write_table_head(writer, side, word, target)?;
    write_rows(writer, header_word, header, rows)
}

/// A vector table.
#[tactic(auto, using(crate::proofs::WritingLemmas::steps))]
pub fn write_vector(
    writer: &mut Writer,
    side: SectionWord,
    header: &[Expr],
    rows: &[VRow],
) -> Result<(), NoMemory>
    ensures { OnOk result (writer.new
        ≡ with_lines writer.old (table_lines vrow_line (vector_head side) (codes "columns") header.now rows.now)) }
{
    write_vector_head(writer, side)?;
    write_rows(writer, b"columns", header, rows)
}

/// A block.
#[tactic(auto, using(crate::proofs::WritingLemmas::steps))]
pub fn write_block(
    writer: &mut Writer,
    name: &Word,
    takes: &[Word],
    uses: &[Word],
    facts: &[FactItem],
) -> Result<(), NoMemory>
    ensures { OnOk result (writer.new ≡ with_lines writer.old (block_lines name.now takes.now uses.now facts.now)) }
{
    writer.put(b"block")?;
    writer.put(name.text.as_slice())?;
    open_body(writer)?;
    write_part(writer, b"takes", takes)?;
    write_part(writer, b"uses", uses)?;
    write_lines(writer, facts)?;
    close_body(writer)
}
