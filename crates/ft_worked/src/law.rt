ghost use Rattle.ft_worked.specs.Laws.{Laws};
ghost use Rattle.ft_worked.specs.Worked.{MixerIsWorked, MixerIsProper, RelayRefines, LateRelayDiffers, TripIsWorked};

use ft_mean::{memory_laws, one_image, one_trace, past_laws, time_laws, whole_laws};

/// What the proofs of worked sets need of the definitions of the crates below.
fn laws()
    ensures { Laws }
{
    one_trace();
    one_image();
    whole_laws();
    memory_laws();
    past_laws();
    time_laws();
}

/// The traces and images of the mixer are those that were worked out by hand.
pub fn mixer_is_worked()
    ensures { MixerIsWorked }
{}

/// The tables of the mixer are proper, and a table two of whose cells hold isn't.
pub fn mixer_is_proper()
    ensures { MixerIsProper }
{}

/// The relay with one timer on both sides refines its requirement.
pub fn relay_refines()
    ensures { RelayRefines }
{
    laws();
}

/// The relay with a longer timer in the design differs one scan late.
pub fn late_relay_differs()
    ensures { LateRelayDiffers }
{
    laws();
}

/// Of the valve's traces two fit and two don't, as was worked out by hand.
pub fn trip_is_worked()
    ensures { TripIsWorked }
{}
