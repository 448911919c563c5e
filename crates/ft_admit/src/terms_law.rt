ghost use Rattle.ft_admit.specs.laws.TermFacts.{TermsAreLawful};

use ft_measure::{linear_is_small, values_bounded};

/// The terms and conditions of the set that a tree without a fault spells read only what they may, and are sized and short.
pub fn lawful_terms()
    ensures { TermsAreLawful }
{
    linear_is_small();
    values_bounded();
}
