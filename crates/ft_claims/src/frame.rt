use std::marker::Model;

/// Where the names of a scan and of the scan before it begin.
#[derive(Drop)]
pub struct Frame {
    /// The number of the first name of the scan.
    pub this: u32,
    /// That of the scan before.
    pub prior: u32,
    /// Whether the scan begins, so that there is none before.
    pub anew: bool,
    /// Whether each memory stands for its truth alone.
    pub bits: bool,
}

impl Model for Frame {
    ghost use Rattle.ft_claims.specs.meaning.Names as names;

    ghost Value = { names.Frame };

    ghost view = { λ frame. record { this = frame.this; prior = frame.prior; anew = frame.anew; bits = frame.bits } };
}
