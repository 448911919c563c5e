ghost use Rattle.std.specs.Prelude.{◌≡◌};
ghost use Rattle.std.specs.List.{list_any};
ghost use Rattle.std.specs.Str.{bytes_eq};
ghost use Rattle.ft_base.specs.Names.{is_reserved_word};
ghost use Rattle.ft_lex.specs.lexing.Lexing.{first_len, sign_len};

const RESERVED: [&[u8]; 43] = [
    b"set",
    b"period",
    b"splits",
    b"depth",
    b"ms",
    b"const",
    b"type",
    b"bool",
    b"true",
    b"false",
    b"mon",
    b"con",
    b"input",
    b"output",
    b"init",
    b"req",
    b"sof",
    b"in",
    b"out",
    b"var",
    b"held",
    b"hyst",
    b"normal",
    b"inverted",
    b"vector",
    b"columns",
    b"terms",
    b"row",
    b"nat",
    b"first",
    b"always",
    b"step",
    b"block",
    b"takes",
    b"uses",
    b"shows",
    b"goal",
    b"and",
    b"or",
    b"not",
    b"div",
    b"prev",
    b"age",
];

// The longer signs stand first.
const SIGNS: [&[u8]; 17] = [
    b"<>", b"<=", b">=", b"..", b"{", b"}", b"(", b")", b",", b":", b";", b"=", b"<", b">", b"+",
    b"-", b"*",
];

fn is_one_of(word: &[u8], words: &[&[u8]]) -> bool
    ensures { result ≡ list_any (λ other. bytes_eq word.now other.now) words.now }
{
    for other in words {
        if word == *other {
            return true;
        }
    }
    false
}

/// Whether the bytes are a reserved word, which no name may be.
#[tactic(auto, unfolding(ft_base::specs::Names::is_reserved_word, ft_base::specs::Names::reserved_words))]
pub fn is_reserved(word: &[u8]) -> bool
    ensures { result ≡ is_reserved_word word.now }
{
    is_one_of(word, &RESERVED)
}

// The length of the first of the texts that the bytes begin with, or 0.
#[tactic(auto, unfolding(crate::specs::lexing::Lexing::first_len))]
fn first_match(bytes: &[u8], texts: &[&[u8]]) -> usize
    ensures { result ≡ first_len (λ text. text.now) texts.now bytes.now }
{
    for text in texts {
        if bytes.starts_with(text) {
            return text.len();
        }
    }
    0
}

/// The length of the longest sign that the bytes begin with, or 0.
#[tactic(auto, unfolding(crate::specs::lexing::Lexing::first_len, crate::specs::meaning::Signs::signs))]
pub fn longest_sign(bytes: &[u8]) -> usize
    ensures { result ≡ sign_len bytes.now }
{
    first_match(bytes, &SIGNS)
}
