ghost use Rattle.ft_tree.specs.laws.Tokens.{CanonicalTokens};

use ft_lex::signs_longest;

/// The tokens of a tree's canonical text are the pieces that the tree was written with, in order, and End: none is joined
/// with the next, cut in two or left out, and each is of the kind that its bytes say. A text has no other tokens, as
/// `ft_lex::tokens` says.
pub fn canonical_tokens()
    ensures { CanonicalTokens }
{
    signs_longest();
}
