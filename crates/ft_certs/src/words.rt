//! Fixed words at the front of a text, and names.
ghost use Rattle.std.specs.Prelude.{◌≡◌, ◌≤◌, ◌<◌, ◌++◌, ◌∷◌, [], true, length, take, IfOk, IfErr};
ghost use Rattle.std.specs.List.{prefix_len};
ghost use Rattle.ft_base.specs.Names.{begins_by_letter, is_name, is_name_byte};
ghost use Rattle.ft_certs.specs.meaning.Text.{end_line};
ghost use Rattle.ft_certs.specs.building.Pieces.{Ends, NameLines, Word, can_end, is_one_of, name_len};
ghost use Rattle.ft_certs.specs.building.Stuck.{Stopped};

use crate::stop::Stop;
use ft_lex::is_reserved;

/// Whether a byte is one of these.
pub(crate) fn is_end(byte: u8, ends: &[u8]) -> bool
    ensures { result ≡ is_one_of ends.now byte }
{
    ends.iter().any(|end| *end == byte)
}

/// The bytes after a word.
pub(crate) fn word<'t>(bytes: &'t [u8], word: &[u8]) -> Result<&'t [u8], Stop>
    ensures read { IfOk result (λ rest. bytes.now ≡ word.now ++ rest.now) }
    ensures stopped { IfErr result (Stopped (Word word.now) bytes.now) }
{
    let mut rest = bytes;
    'word: for byte in word {
        let Some((first, more)) = rest.split_first() else {
            return Err(Stop::Stuck(0));
        };
        if first != byte {
            return Err(Stop::Stuck(rest.len()));
        }
        rest = more;
    }
    Ok(rest)
}

/// One of these bytes, and the bytes after it.
pub(crate) fn end<'t>(bytes: &'t [u8], ends: &[u8]) -> Result<(u8, &'t [u8]), Stop>
    requires { 0 < length ends.now }
    ensures read { IfOk result (λ r. (is_one_of ends.now r.0 ≡ true) × (bytes.now ≡ r.0 ∷ r.1.now)) }
    ensures stopped { IfErr result (Stopped (Ends ends.now) bytes.now) }
{
    let Some((first, rest)) = bytes.split_first() else {
        return Err(Stop::Stuck(0));
    };
    if !is_end(*first, ends) {
        return Err(Stop::Stuck(bytes.len()));
    }
    Ok((*first, rest))
}

fn is_name_byte(byte: u8) -> bool
    ensures { result ≡ is_name_byte byte }
{
    byte.is_ascii_alphabetic() || byte.is_ascii_digit() || byte == b'_'
}

fn begins_by_letter(bytes: &[u8]) -> bool
    ensures { result ≡ begins_by_letter bytes.now }
{
    match bytes {
        [] => false,
        [first, ..] => first.is_ascii_alphabetic(),
    }
}

// The bytes, up to so many.
fn front(bytes: &[u8], most: usize) -> &[u8]
    ensures { result.now ≡ take most bytes.now }
{
    if bytes.len() <= most {
        return bytes;
    }
    &bytes[..most]
}

fn name_bytes(bytes: &[u8]) -> usize
    ensures { result ≡ prefix_len is_name_byte bytes.now }
{
    bytes.iter().take_while(|b| is_name_byte(**b)).count()
}

// How many of the bytes a name may have, from the front on.
fn name_len(bytes: &[u8]) -> usize
    ensures value { result ≡ name_len bytes.now }
    ensures within { result ≤ length bytes.now }
{
    if !begins_by_letter(bytes) {
        return 0;
    }
    name_bytes(front(bytes, 40))
}

// Whether a name may end so.
fn can_end(front: &[u8]) -> bool
    ensures { result ≡ can_end front.now }
{
    !front.is_empty() && !is_reserved(front)
}

/// A name, and the bytes after it and LF.
pub(crate) fn name_line<'t>(bytes: &'t [u8]) -> Result<(&'t [u8], &'t [u8]), Stop>
    ensures read { IfOk result (λ r. (is_name r.0.now ≡ true) × (bytes.now ≡ r.0.now ++ end_line ++ r.1.now)) }
    ensures stopped { IfErr result (Stopped NameLines bytes.now) }
{
    let (name, after) = bytes.split_at(name_len(bytes));
    let Some((first, rest)) = after.split_first() else {
        return Err(Stop::Stuck(0));
    };
    if *first != b'\n' || !can_end(name) {
        return Err(Stop::Stuck(after.len()));
    }
    Ok((name, rest))
}
