use ft_base::{NoMemory, Place};

/// Why a text is no text of certificates.
#[derive(Clone, Copy, Debug, PartialEq, Eq, Drop)]
pub enum CertText {
    /// The first byte with which no such text goes on, or the end of a text that isn't whole.
    Text {
        /// Where it stands.
        place: Place,
    },
    /// Memory was refused.
    NoMemory,
}

impl From<NoMemory> for CertText {
    ghost use Rattle.std.specs.Prelude.{◌≡◌};
    ghost use Rattle.ft_certs.specs.declared.fault.CertText.TheVariants as fault;

    ghost from_gives = { λ _ result. result ≡ fault.NoMemory };

    fn from(_refused: NoMemory) -> CertText {
        CertText::NoMemory
    }
}
