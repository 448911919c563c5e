use ft_base::{NoMemory, Place};
use ft_read::LimitWord;

/// Why a text isn't read.
#[derive(Clone, Copy, PartialEq, Eq, Drop)]
pub enum ParseFault {
    /// The tokens before the place begin some set's text, and with the token at the place, or the end, they don't.
    Syntax { place: Place },
    /// A token passes this limit.
    Limit { which: LimitWord, place: Place },
    /// There was no memory.
    NoMemory,
}

impl From<NoMemory> for ParseFault {
    ghost use Rattle.std.specs.Prelude.{◌≡◌};
    ghost use Rattle.ft_parse.specs.declared.fault.ParseFault.TheVariants as fault;

    ghost from_gives = { λ _ e. e ≡ fault.NoMemory };

    fn from(_refused: NoMemory) -> ParseFault {
        ParseFault::NoMemory
    }
}
