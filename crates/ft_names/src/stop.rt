use ft_base::NoMemory;

/// Why a search for the first fault of a tree ended early: a fault was found, or memory was refused.
#[derive(Drop)]
pub enum Stop<F> {
    Fault(F),
    NoMemory,
}

impl<F: Drop> From<NoMemory> for Stop<F> {
    ghost use Rattle.std.specs.Prelude.{◌≡◌};
    ghost use Rattle.ft_names.specs.declared.stop.Stop.TheVariants.{NoMemory};

    ghost from_gives = { λ _ stop. stop ≡ NoMemory };

    fn from(_refused: NoMemory) -> Stop<F> {
        Stop::NoMemory
    }
}
