ghost use Rattle.ft_lex.specs.lexing.Lexing.{SignsLongest};
ghost use Rattle.ft_lex.specs.meaning.Tokens.{OneTokens};

/// A text has one list of tokens.
pub fn one_tokens()
    ensures { OneTokens }
{}

/// The sign that is read is the longest that the bytes begin with.
pub fn signs_longest()
    ensures { SignsLongest }
{}
