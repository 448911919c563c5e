//! Ends of lines, numbers, and words with something after them.
ghost use Rattle.std.specs.Prelude.{◌≡◌, ◌++◌, codes, IfOk, OnOk};
ghost use Rattle.std.specs.Fmt.{decimal, signed_decimal};
ghost use Rattle.ft_report.specs.meaning.Words.{at_scan, line, named, section_word};

use ft_base::{List, NoMemory, Text};
use ft_core::Section;
use std::alloc::Global;

/// A text with the end of its line.
pub(crate) fn ended(mut text: Text) -> Result<Text, NoMemory>
    ensures { IfOk result (λ whole. whole ≡ line text) }
{
    text.push(b'\n')?;
    Ok(text)
}

/// The first lines of what is refused, with the fault.
pub(crate) fn refused(alloc: Global, fault: Text) -> Result<Text, NoMemory>
    ensures { IfOk result (λ text. text ≡ line (codes "refused") ++ line fault) }
{
    let mut text = List::copy_of(alloc, b"refused\n")?;
    text.extend(ended(fault)?.as_slice())?;
    Ok(text)
}

pub(crate) fn add_number(alloc: Global, text: &mut Text, number: usize) -> Result<(), NoMemory>
    ensures { OnOk result (text.new ≡ text.old ++ decimal number) }
{
    let digits = number.to_string(alloc)?;
    text.extend(digits.as_bytes())
}

pub(crate) fn add_value(alloc: Global, text: &mut Text, value: i64) -> Result<(), NoMemory>
    ensures { OnOk result (text.new ≡ text.old ++ signed_decimal value) }
{
    let digits = value.to_string(alloc)?;
    text.extend(digits.as_bytes())
}

/// Words with a name after them.
pub(crate) fn named(alloc: Global, words: &[u8], name: &[u8]) -> Result<Text, NoMemory>
    ensures { IfOk result (λ text. text ≡ named words.now name.now) }
{
    let mut text = List::copy_of(alloc, words)?;
    text.push(b' ')?;
    text.extend(name)?;
    Ok(text)
}

/// Words with a scan after them.
pub(crate) fn at_scan(alloc: Global, words: &[u8], scan: usize) -> Result<Text, NoMemory>
    ensures { IfOk result (λ text. text ≡ at_scan words.now scan) }
{
    let mut text = List::copy_of(alloc, words)?;
    text.extend(b" at scan ")?;
    add_number(alloc, &mut text, scan)?;
    Ok(text)
}

pub(crate) fn section_word(section: Section) -> &'static [u8]
    ensures { result.now ≡ section_word section }
{
    match section {
        Section::In => b"in",
        Section::Req => b"req",
        Section::Sof => b"sof",
        Section::Out => b"out",
    }
}
