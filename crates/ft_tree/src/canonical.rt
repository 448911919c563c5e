ghost use Rattle.std.specs.Prelude.{◌≡◌, IfOk, Option, OnOk};
ghost use Rattle.std.specs.List.{flat_map};
ghost use Rattle.ft_tree.specs.meaning.Canonical.{canonical};
ghost use Rattle.ft_tree.specs.meaning.Line.{line_bytes};
ghost use Rattle.ft_tree.specs.meaning.Lines.{item_lines, one_line, option_lines, period_pieces, set_lines, set_pieces};
ghost use Rattle.ft_tree.specs.writing.Writer.{with_lines};

use crate::item::{Item, Number};
use crate::items::write_item;
use crate::tree::Tree;
use crate::writer::Writer;
use ft_base::{NoMemory, Text};
use std::alloc::Global;

#[tactic(auto, using(crate::proofs::WritingLemmas::steps))]
fn write_set(writer: &mut Writer, name: &Text) -> Result<(), NoMemory>
    ensures { OnOk result (writer.new ≡ with_lines writer.old (one_line (set_pieces name.now))) }
{
    writer.put(b"set")?;
    writer.put(name.as_slice())?;
    writer.end()
}

#[tactic(auto, using(crate::proofs::WritingLemmas::steps))]
fn write_period(writer: &mut Writer, period: &Number) -> Result<(), NoMemory>
    ensures { OnOk result (writer.new ≡ with_lines writer.old (one_line (period_pieces period.now))) }
{
    writer.put(b"period")?;
    writer.put_number(period.value)?;
    writer.put(b"ms")?;
    writer.end()
}

// A word and its number, where there is one.
#[tactic(auto, using(crate::proofs::WritingLemmas::steps))]
fn write_option(writer: &mut Writer, word: &[u8], number: &Option<Number>) -> Result<(), NoMemory>
    ensures { OnOk result (writer.new ≡ with_lines writer.old (option_lines word.now number.now)) }
{
    let Some(number) = number else {
        return Ok(());
    };
    writer.put(word)?;
    writer.put_number(number.value)?;
    writer.end()
}

#[tactic(auto, using(crate::proofs::WritingLemmas::steps))]
fn write_items(writer: &mut Writer, items: &[Item]) -> Result<(), NoMemory>
    ensures { OnOk result (writer.new ≡ with_lines writer.old (flat_map item_lines items.now)) }
{
    for item in items {
        write_item(writer, item)?;
    }
    Ok(())
}

// The canonical text of a set of these parts.
fn write_parts(
    alloc: Global,
    name: &Text,
    period: &Number,
    splits: &Option<Number>,
    depth: &Option<Number>,
    items: &[Item],
) -> Result<Text, NoMemory>
    ensures { IfOk result (λ text. text
        ≡ flat_map line_bytes (set_lines name.now period.now splits.now depth.now items.now)) }
{
    let mut writer = Writer::new(alloc);
    write_set(&mut writer, name)?;
    write_period(&mut writer, period)?;
    write_option(&mut writer, b"splits", splits)?;
    write_option(&mut writer, b"depth", depth)?;
    write_items(&mut writer, items)?;
    Ok(writer.text)
}

/// The one canonical text of a tree: each item in the tree's order, with parentheses only where they are needed.
pub fn write_tree(alloc: Global, tree: &Tree) -> Result<Text, NoMemory>
    ensures { IfOk result (λ text. text ≡ canonical tree.now) }
{
    write_parts(
        alloc,
        &tree.name,
        &tree.period,
        &tree.splits,
        &tree.depth,
        tree.items.as_slice(),
    )
}
