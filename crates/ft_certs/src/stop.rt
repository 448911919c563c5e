use ft_base::NoMemory;

/// Why a reader stops.
#[derive(Clone, Copy, Drop)]
pub(crate) enum Stop {
    /// No text of its kind goes on, with so many bytes left.
    Stuck(usize),
    /// Memory was refused.
    NoMemory,
}

impl From<NoMemory> for Stop {
    ghost use Rattle.std.specs.Prelude.{◌≡◌};
    ghost use Rattle.ft_certs.specs.declared.stop.Stop.TheVariants as stop;

    ghost from_gives = { λ _ result. result ≡ stop.NoMemory };

    fn from(_refused: NoMemory) -> Stop {
        Stop::NoMemory
    }
}
