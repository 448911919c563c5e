ghost use Rattle.std.specs.Prelude.{◌≡◌, ◌<◌, ◌-◌, ◌^◌, List, length, IfOk, IfErr};
ghost use Rattle.std.specs.List.{All};
ghost use Rattle.ft_lex.specs.meaning.Tokens.{IsTokens, LiesIn};
ghost use Rattle.ft_tree.specs.declared.tree.Tree.{Tree};
ghost use Rattle.ft_tree.specs.meaning.Canonical.{canonical};
ghost use Rattle.ft_tree.specs.meaning.Limits.{IsSet};
ghost use Rattle.ft_lex.specs.declared.token.Token.{Token};
ghost use Rattle.ft_parse.specs.parsers.Faults.{IsAhead, IsFaultOf};
ghost use Rattle.ft_parse.specs.meaning.Parse.{IsFault, Reads, ReadsSame, Spells, parts_of};

use crate::fault::ParseFault;
use crate::parts::Parts;
use crate::sets::set;
use ft_lex::{Token, tokens};
use ft_read::{Cursor, Stop};
use ft_tree::{Tree, canonical_tokens};
use std::alloc::Global;

/// The tree of parts that meet the limits.
fn tree(parts: Parts) -> Tree
    requires { IsSet parts.name parts.period parts.splits parts.depth parts.items }
    ensures { parts_of result ≡ parts }
{
    Tree {
        name: parts.name,
        period: parts.period,
        splits: parts.splits,
        depth: parts.depth,
        items: parts.items,
    }
}

/// The fault of a reading that stopped here. The last token is the text's end, or a byte that begins none.
fn fault(cursor: &Cursor, stop: Stop) -> ParseFault
    requires { IsAhead stop cursor.now.rest }
    ensures { IsFaultOf stop cursor.now.rest result }
{
    match stop {
        Stop::Syntax => match cursor.first() {
            Some(lexeme) => ParseFault::Syntax {
                place: lexeme.place,
            },
            None => unreachable!(),
        },
        Stop::Limit(pass) => ParseFault::Limit {
            which: pass.which,
            place: pass.place,
        },
        Stop::NoMemory => ParseFault::NoMemory,
    }
}

/// The tree that a text with these tokens spells.
fn from_tokens(alloc: Global, text: &[u8], tokens: &[Token]) -> Result<Tree, ParseFault>
    requires lie { All (LiesIn text.now) tokens.now }
    requires tokens { IsTokens text.now tokens.now }
    requires sole { (others : List Token) → IsTokens text.now others → others ≡ tokens.now }
    ensures spelled { IfOk result (Spells text.now) }
    ensures only { (tree : Tree) → Spells text.now tree → Reads result tree }
    ensures same { (tree : Tree) → text.now ≡ canonical tree → ReadsSame result tree }
    ensures fault { IfErr result (IsFault text.now) }
{
    canonical_tokens();
    let mut cursor = Cursor::new(text, tokens);
    match set(alloc, &mut cursor) {
        Ok(parts) => Ok(tree(parts)),
        Err(stop) => Err(fault(&cursor, stop)),
    }
}

/// The tree that a text spells, within the limits of sets. The text is shorter than 2^32 - 1 bytes.
///
/// Syntax stands at the first token with which the tokens so far begin no set's text; the text's end and a byte that begins no
/// token count as tokens. Limit comes where a token passes a limit, with the place that is told for it: that of the token, but
/// for an expression that of its first token, and for a vector table that of its section. The earlier token decides; at one
/// token Syntax comes first, and of several limits the first in their order.
pub fn parse(alloc: Global, text: &[u8]) -> Result<Tree, ParseFault>
    requires { length text.now < 2 ^ 32 - 1 }
    ensures spelled { IfOk result (Spells text.now) }
    ensures only { (tree : Tree) → Spells text.now tree → Reads result tree }
    ensures same { (tree : Tree) → text.now ≡ canonical tree → ReadsSame result tree }
    ensures fault { IfErr result (IsFault text.now) }
{
    let tokens = tokens(alloc, text)?;
    from_tokens(alloc, text, tokens.as_slice())
}
