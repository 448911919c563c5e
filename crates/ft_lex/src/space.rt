ghost use Rattle.std.specs.Prelude.{◌≡◌, ◌≤◌, length};
ghost use Rattle.ft_lex.specs.meaning.Bytes.{begins_space};
ghost use Rattle.ft_lex.specs.lexing.Lexing.{after_byte, goes_on, space_len};

/// What a byte of space stands in.
#[derive(Clone, Copy, Drop)]
pub enum Within {
    Blanks,
    Comment,
}

fn is_space(byte: u8) -> bool
    ensures { result ≡ begins_space byte }
{
    byte == b' ' || byte == b'\t' || byte == b'\r' || byte == b'\n' || byte == b'#'
}

impl Within {
    // Whether the byte belongs to the space.
    fn takes(self, byte: u8) -> bool
        ensures { result ≡ goes_on self byte }
    {
        match self {
            Within::Comment => true,
            Within::Blanks => is_space(byte),
        }
    }

    // What the bytes after this one stand in.
    fn after(self, byte: u8) -> Within
        ensures { result ≡ after_byte self byte }
    {
        match self {
            Within::Comment if byte == b'\n' => Within::Blanks,
            Within::Blanks if byte == b'#' => Within::Comment,
            Within::Comment | Within::Blanks => self,
        }
    }
}

/// How many bytes of space the bytes begin with: blanks, and comments from `#` to their line's end.
#[tactic(auto, unfolding(crate::specs::lexing::Lexing::space_from))]
pub fn space(bytes: &[u8]) -> usize
    ensures length { result ≡ space_len bytes.now }
    ensures within { result ≤ length bytes.now }
{
    let mut within = Within::Blanks;
    for (i, byte) in bytes.iter().enumerate() {
        if !within.takes(*byte) {
            return i;
        }
        within = within.after(*byte);
    }
    bytes.len()
}
