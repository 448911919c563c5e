//! A trace that stands in a longer text.
ghost use Rattle.std.specs.Prelude.{◌≡◌};
ghost use Rattle.ft_stream.specs.meaning.Mark.{after_mark};

use memchr::memmem;

/// What follows the first line of the bytes that is exactly `trace:` and ended by LF, and all bytes where there is none: so a saved
/// report of a refutation can be given as a trace. It takes time in proportion to the bytes.
pub fn after_mark(bytes: &[u8]) -> &[u8]
    ensures { result.now ≡ after_mark bytes.now }
{
    if let Some(after) = bytes.strip_prefix(b"trace:\n") {
        return after;
    }
    match memmem::find(bytes, b"\ntrace:\n") {
        Some(at) => &bytes[at + 8..],
        None => bytes,
    }
}
