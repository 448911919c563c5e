ghost use Rattle.std.specs.Prelude.{◌≡◌, OnOk, map};
ghost use Rattle.ft_tree.specs.meaning.Line.{Line};
ghost use Rattle.ft_tree.specs.meaning.Lines.{exprs_line, fact_line, goal_line, moment_text, part_lines, row_line, section_text};
ghost use Rattle.ft_tree.specs.meaning.Lines.{shows_line, var_pieces, vrow_line};
ghost use Rattle.ft_tree.specs.writing.Writer.{put_all, with_line, with_lines};

use crate::expr::Expr;
use crate::expression::write_expr;
use crate::item::{FactItem, NatWord, Row, SectionWord, VRow, VarWord, Word};
use crate::phrases::{Phrase, write_listed};
use crate::writer::Writer;
use ft_base::NoMemory;

/// What stands on an inner line of a table or block.
pub trait Lined {
    ghost line: { Self → Line };

    /// Writes its line.
    fn write_line(&self, writer: &mut Writer) -> Result<(), NoMemory>
        ensures { OnOk result (writer.new ≡ with_line writer.old (line self.now)) };
}

/// A line for each part, in order.
#[tactic(auto, using(crate::proofs::WritingLemmas::steps))]
pub fn write_lines<T: Lined>(writer: &mut Writer, parts: &[T]) -> Result<(), NoMemory>
    ensures { OnOk result (writer.new ≡ with_lines writer.old (map T.line parts.now)) }
{
    for part in parts {
        part.write_line(writer)?;
    }
    Ok(())
}

/// A word, and the expressions after it.
#[tactic(auto, using(crate::proofs::WritingLemmas::steps))]
pub fn write_exprs_line(writer: &mut Writer, word: &[u8], exprs: &[Expr]) -> Result<(), NoMemory>
    ensures { OnOk result (writer.new ≡ with_line writer.old (exprs_line word.now exprs.now)) }
{
    writer.indent()?;
    writer.put(word)?;
    write_listed(writer, exprs)?;
    writer.end()
}

impl Lined for Row {
    ghost line = { row_line };

    #[tactic(auto, using(crate::proofs::WritingLemmas::steps))]
    fn write_line(&self, writer: &mut Writer) -> Result<(), NoMemory> {
        writer.indent()?;
        writer.put(b"row")?;
        write_expr(writer, &self.head)?;
        writer.put(b":")?;
        write_listed(writer, self.entries.as_slice())?;
        writer.end()
    }
}

impl Lined for VRow {
    ghost line = { vrow_line };

    #[tactic(auto, using(crate::proofs::WritingLemmas::steps))]
    fn write_line(&self, writer: &mut Writer) -> Result<(), NoMemory> {
        writer.indent()?;
        writer.put(b"row")?;
        writer.put(self.target.text.as_slice())?;
        writer.put(b":")?;
        write_listed(writer, self.entries.as_slice())?;
        writer.end()
    }
}

#[tactic(auto, using(crate::proofs::WritingLemmas::steps))]
fn write_shows(writer: &mut Writer, name: &Word, cond: &Expr) -> Result<(), NoMemory>
    ensures { OnOk result (writer.new ≡ with_line writer.old (shows_line name.now cond.now)) }
{
    writer.indent()?;
    writer.put(b"shows")?;
    writer.put(name.text.as_slice())?;
    writer.put(b":")?;
    write_expr(writer, cond)?;
    writer.end()
}

#[tactic(auto, using(crate::proofs::WritingLemmas::steps))]
fn write_goal(writer: &mut Writer, con: &Word) -> Result<(), NoMemory>
    ensures { OnOk result (writer.new ≡ with_line writer.old (goal_line con.now)) }
{
    writer.indent()?;
    writer.put(b"goal")?;
    writer.put(con.text.as_slice())?;
    writer.end()
}

impl Lined for FactItem {
    ghost line = { fact_line };

    #[tactic(auto, using(crate::proofs::WritingLemmas::steps))]
    fn write_line(&self, writer: &mut Writer) -> Result<(), NoMemory> {
        match self {
            FactItem::Shows { name, cond } => write_shows(writer, name, cond),
            FactItem::Goal { con } => write_goal(writer, con),
        }
    }
}

/// A word and the names after it, where there are some.
#[tactic(auto, using(crate::proofs::WritingLemmas::steps))]
pub fn write_part(writer: &mut Writer, word: &[u8], names: &[Word]) -> Result<(), NoMemory>
    ensures { OnOk result (writer.new ≡ with_lines writer.old (part_lines word.now names.now)) }
{
    if names.is_empty() {
        return Ok(());
    }
    writer.indent()?;
    writer.put(word)?;
    write_listed(writer, names)?;
    writer.end()
}

/// The words before a variable's name.
#[tactic(auto, using(crate::proofs::WritingLemmas::steps))]
pub fn write_var(writer: &mut Writer, kind: VarWord) -> Result<(), NoMemory>
    ensures { OnOk result (writer.new ≡ put_all writer.old (var_pieces kind)) }
{
    match kind {
        VarWord::Mon => writer.put(b"mon"),
        VarWord::Con => writer.put(b"con"),
        VarWord::Input => writer.put(b"input"),
        VarWord::Output => writer.put(b"output"),
        VarWord::ReqVar => {
            writer.put(b"req")?;
            writer.put(b"var")
        }
        VarWord::SofVar => {
            writer.put(b"sof")?;
            writer.put(b"var")
        }
    }
}

/// The word of a section.
pub fn section(word: SectionWord) -> &'static [u8]
    ensures { result.now ≡ section_text word }
{
    match word {
        SectionWord::In => b"in",
        SectionWord::Req => b"req",
        SectionWord::Sof => b"sof",
        SectionWord::Out => b"out",
    }
}

/// The word of a moment.
pub fn moment(word: NatWord) -> &'static [u8]
    ensures { result.now ≡ moment_text word }
{
    match word {
        NatWord::First => b"first",
        NatWord::Always => b"always",
        NatWord::Step => b"step",
    }
}
