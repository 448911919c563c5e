ghost use Rattle.std.specs.Prelude.{◌≡◌};
ghost use Rattle.ft_parse.specs.meaning.Items.{inner_variable};
ghost use Rattle.ft_parse.specs.parsers.Items.{variable_by};
ghost use Rattle.ft_read.specs.parsers.Combinators.{Gives};

use crate::counts::{Items, Sort, declared};
use ft_read::{Cursor, LimitWord, Stop, kind, sign, value, word};
use ft_tree::{Item, SectionWord, VarWord};
use std::alloc::Global;

/// The words of a variable of the required system or of the software.
pub fn inner_words(side: SectionWord) -> VarWord
    ensures { result ≡ inner_variable side }
{
    match side {
        SectionWord::Req | SectionWord::In => VarWord::ReqVar,
        SectionWord::Sof | SectionWord::Out => VarWord::SofVar,
    }
}

/// A variable after its words.
#[tactic(auto, unfolding(crate::specs::parsers::Items::variable_by))]
pub fn variable(
    alloc: Global,
    cursor: &mut Cursor,
    before: &Items,
    words: VarWord,
) -> Result<Item, Stop>
    ensures { Gives (λ item. item) result cursor.new (variable_by before.now words cursor.old) }
{
    let name = declared(alloc, cursor, before, Sort::Variables, LimitWord::Variables)?;
    sign(cursor, b":")?;
    let of = kind(alloc, cursor)?;
    word(cursor, b"init")?;
    let init = value(alloc, cursor)?;
    sign(cursor, b";")?;
    Ok(Item::Variable {
        kind: words,
        name,
        of,
        init,
    })
}
