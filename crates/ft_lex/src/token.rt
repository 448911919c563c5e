use ft_base::Place;

/// What a token is.
#[derive(Clone, Copy, PartialEq, Eq, Drop)]
pub enum TokenKind {
    /// A letter with the letters, digits and `_` after it, that is no reserved word.
    Name,
    /// One digit or more.
    Number,
    /// A reserved word.
    Word,
    /// The longest sign that begins here.
    Sign,
    /// The text's end. It has no bytes.
    End,
    /// One byte that begins no token. No token follows it.
    Bad,
}

/// A token of a text: its kind, the bytes from `start` to before `end`, and the place of the first.
#[derive(Clone, Copy, PartialEq, Eq, Drop)]
pub struct Token {
    pub kind: TokenKind,
    /// Where its bytes begin, from 0.
    pub start: usize,
    /// Where they end: the number of bytes before and in it.
    pub end: usize,
    /// The place of its first byte, and of End the place after the text's last byte.
    pub place: Place,
}

impl TokenKind {
    ghost use Rattle.std.specs.Prelude.{◌≡◌};
    ghost use Rattle.ft_lex.specs.meaning.Tokens.{is_last};

    /// Whether no token follows one of this kind.
    pub fn is_last(self) -> bool
        ensures { result ≡ is_last self }
    {
        match self {
            TokenKind::End | TokenKind::Bad => true,
            TokenKind::Name | TokenKind::Number | TokenKind::Word | TokenKind::Sign => false,
        }
    }
}

impl Token {
    ghost use Rattle.std.specs.Prelude.{◌≡◌};
    ghost use Rattle.ft_lex.specs.meaning.Tokens.{LiesIn, is_sign, is_word, token_text};

    /// The bytes of the token.
    pub fn text<'t>(&self, text: &'t [u8]) -> &'t [u8]
        requires { LiesIn text.now self.now }
        ensures { result.now ≡ token_text text.now self.now }
    {
        &text[self.start..self.end]
    }

    /// Whether it is this reserved word.
    pub fn is_word(&self, text: &[u8], word: &[u8]) -> bool
        requires { LiesIn text.now self.now }
        ensures { result ≡ is_word text.now self.now word.now }
    {
        match self.kind {
            TokenKind::Word => self.text(text) == word,
            _ => false,
        }
    }

    /// Whether it is this sign.
    pub fn is_sign(&self, text: &[u8], sign: &[u8]) -> bool
        requires { LiesIn text.now self.now }
        ensures { result ≡ is_sign text.now self.now sign.now }
    {
        match self.kind {
            TokenKind::Sign => self.text(text) == sign,
            _ => false,
        }
    }
}
