ghost use Rattle.std.specs.Prelude.{◌≡◌, OnOk};
ghost use Rattle.ft_tree.specs.meaning.Line.{outer};
ghost use Rattle.ft_tree.specs.meaning.Lines.{band_pieces, constant_pieces, terminated, enum_type_pieces, held_pieces, hold_pieces};
ghost use Rattle.ft_tree.specs.meaning.Lines.{hyst_pieces, item_lines, memory_head, nat_pieces, range_type_pieces, variable_pieces};
ghost use Rattle.ft_tree.specs.writing.Writer.{put_all, with_line, with_lines};

use crate::expr::Expr;
use crate::expression::{truth, write_expr};
use crate::item::{Bound, Item, Kind, NatWord, Number, SectionWord, VarWord, Word};
use crate::lines::{moment, section, write_var};
use crate::phrases::{Phrase, write_listed, write_range, write_sign};
use crate::tables::{write_block, write_table, write_vector};
use crate::writer::Writer;
use ft_base::NoMemory;

#[tactic(auto, using(crate::proofs::WritingLemmas::steps))]
fn write_constant(
    writer: &mut Writer,
    name: &Word,
    minus: bool,
    value: &Number,
) -> Result<(), NoMemory>
    ensures { OnOk result (writer.new ≡ with_line writer.old (outer (terminated (constant_pieces name.now minus value.now)))) }
{
    writer.put(b"const")?;
    writer.put(name.text.as_slice())?;
    writer.put(b"=")?;
    write_sign(writer, minus)?;
    writer.put_number(value.value)?;
    writer.end()
}

#[tactic(auto, using(crate::proofs::WritingLemmas::steps))]
fn write_range_type(
    writer: &mut Writer,
    name: &Word,
    lo: &Bound,
    hi: &Bound,
) -> Result<(), NoMemory>
    ensures { OnOk result (writer.new ≡ with_line writer.old (outer (terminated (range_type_pieces name.now lo.now hi.now)))) }
{
    writer.put(b"type")?;
    writer.put(name.text.as_slice())?;
    writer.put(b"=")?;
    write_range(writer, lo, hi)?;
    writer.end()
}

#[tactic(auto, using(crate::proofs::WritingLemmas::steps))]
fn write_enum_type(writer: &mut Writer, name: &Word, members: &[Word]) -> Result<(), NoMemory>
    ensures { OnOk result (writer.new ≡ with_line writer.old (outer (terminated (enum_type_pieces name.now members.now)))) }
{
    writer.put(b"type")?;
    writer.put(name.text.as_slice())?;
    writer.put(b"=")?;
    writer.put(b"{")?;
    write_listed(writer, members)?;
    writer.put(b"}")?;
    writer.end()
}

#[tactic(auto, using(crate::proofs::WritingLemmas::steps))]
fn write_variable(
    writer: &mut Writer,
    kind: VarWord,
    name: &Word,
    of: &Kind,
    init: &Bound,
) -> Result<(), NoMemory>
    ensures { OnOk result (writer.new ≡ with_line writer.old (outer (terminated (variable_pieces kind name.now of.now init.now)))) }
{
    write_var(writer, kind)?;
    writer.put(name.text.as_slice())?;
    writer.put(b":")?;
    of.write(writer)?;
    writer.put(b"init")?;
    init.write(writer)?;
    writer.end()
}

#[tactic(auto, using(crate::proofs::WritingLemmas::steps))]
fn write_memory_head(
    writer: &mut Writer,
    side: SectionWord,
    word: &[u8],
    name: &Word,
) -> Result<(), NoMemory>
    ensures { OnOk result (writer.new ≡ put_all writer.old (memory_head side word.now name.now)) }
{
    writer.put(section(side))?;
    writer.put(word)?;
    writer.put(name.text.as_slice())?;
    writer.put(b"(")
}

#[tactic(auto, using(crate::proofs::WritingLemmas::steps))]
fn write_hold(writer: &mut Writer, hold: &Bound) -> Result<(), NoMemory>
    ensures { OnOk result (writer.new ≡ put_all writer.old (hold_pieces hold.now)) }
{
    hold.write(writer)?;
    writer.put(b"ms")?;
    writer.put(b")")
}

#[tactic(auto, using(crate::proofs::WritingLemmas::steps))]
fn write_held(
    writer: &mut Writer,
    side: SectionWord,
    name: &Word,
    cond: &Expr,
    hold: &Bound,
) -> Result<(), NoMemory>
    ensures { OnOk result (writer.new ≡ with_line writer.old (outer (terminated (held_pieces side name.now cond.now hold.now)))) }
{
    write_memory_head(writer, side, b"held", name)?;
    write_expr(writer, cond)?;
    writer.put(b",")?;
    write_hold(writer, hold)?;
    writer.end()
}

#[tactic(auto, using(crate::proofs::WritingLemmas::steps))]
fn write_band(writer: &mut Writer, lo: &Bound, hi: &Bound, start: bool) -> Result<(), NoMemory>
    ensures { OnOk result (writer.new ≡ put_all writer.old (band_pieces lo.now hi.now start)) }
{
    lo.write(writer)?;
    writer.put(b",")?;
    hi.write(writer)?;
    writer.put(b",")?;
    writer.put(truth(start))?;
    writer.put(b")")
}

#[tactic(auto, using(crate::proofs::WritingLemmas::steps))]
fn write_hyst(
    writer: &mut Writer,
    side: SectionWord,
    name: &Word,
    term: &Expr,
    lo: &Bound,
    hi: &Bound,
    start: bool,
) -> Result<(), NoMemory>
    ensures { OnOk result (writer.new ≡ with_line writer.old (outer (terminated (hyst_pieces side name.now term.now lo.now hi.now start)))) }
{
    write_memory_head(writer, side, b"hyst", name)?;
    write_expr(writer, term)?;
    writer.put(b",")?;
    write_band(writer, lo, hi, start)?;
    writer.end()
}

#[tactic(auto, using(crate::proofs::WritingLemmas::steps))]
fn write_nat(writer: &mut Writer, word: NatWord, cond: &Expr) -> Result<(), NoMemory>
    ensures { OnOk result (writer.new ≡ with_line writer.old (outer (terminated (nat_pieces word cond.now)))) }
{
    writer.put(b"nat")?;
    writer.put(moment(word))?;
    write_expr(writer, cond)?;
    writer.end()
}

/// The lines of an item.
#[tactic(auto, using(crate::proofs::WritingLemmas::steps))]
pub fn write_item(writer: &mut Writer, item: &Item) -> Result<(), NoMemory>
    ensures { OnOk result (writer.new ≡ with_lines writer.old (item_lines item.now)) }
{
    match item {
        Item::Constant { name, minus, value } => write_constant(writer, name, *minus, value),
        Item::RangeType { name, lo, hi } => write_range_type(writer, name, lo, hi),
        Item::EnumType { name, members } => write_enum_type(writer, name, members.as_slice()),
        Item::Variable {
            kind,
            name,
            of,
            init,
        } => write_variable(writer, *kind, name, of, init),
        Item::Held {
            side,
            name,
            cond,
            hold,
        } => write_held(writer, *side, name, cond, hold),
        Item::Hyst {
            side,
            name,
            term,
            lo,
            hi,
            start,
        } => write_hyst(writer, *side, name, term, lo, hi, *start),
        Item::Normal {
            section,
            target,
            columns,
            rows,
        } => {
            write_table(
                writer,
                *section,
                b"normal",
                target,
                b"columns",
                columns.as_slice(),
                rows.as_slice(),
            )
        }
        Item::Inverted {
            section,
            target,
            terms,
            rows,
        } => {
            write_table(
                writer,
                *section,
                b"inverted",
                target,
                b"terms",
                terms.as_slice(),
                rows.as_slice(),
            )
        }
        Item::Vector {
            section,
            columns,
            rows,
        } => write_vector(writer, *section, columns.as_slice(), rows.as_slice()),
        Item::Nat { moment, cond } => write_nat(writer, *moment, cond),
        Item::Block {
            name,
            takes,
            uses,
            facts,
        } => {
            write_block(
                writer,
                name,
                takes.as_slice(),
                uses.as_slice(),
                facts.as_slice(),
            )
        }
    }
}
