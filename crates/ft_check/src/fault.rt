use ft_base::NoMemory;

/// Why a certificate isn't accepted.
#[derive(Clone, Copy, PartialEq, Eq, Drop)]
pub enum CertFault {
    /// The first node in prefix order that doesn't hold for its own part.
    Node {
        /// Its number, from 1.
        node: u32,
    },
    /// Memory was refused.
    NoMemory,
}

impl From<NoMemory> for CertFault {
    ghost use Rattle.std.specs.Prelude.{◌≡◌};
    ghost use Rattle.ft_check.specs.declared.fault.CertFault.{CertFault};

    ghost from_gives = { λ _ f. f ≡ CertFault.NoMemory };

    fn from(_refused: NoMemory) -> CertFault {
        CertFault::NoMemory
    }
}
