ghost use Rattle.ft_cert.specs.laws.Certificates.{AllArePlaced, NoneWhereHolds, PlacedInOrder};

use ft_linear::{part_laws, sum_laws};

/// Where a certificate holds for a part, no point of the part satisfies the formula. The nodes of a tree in prefix order tell the
/// part of each of them.
pub fn cert_laws()
    ensures none { NoneWhereHolds }
    ensures in_order { PlacedInOrder }
    ensures all { AllArePlaced }
{
    part_laws();
    sum_laws();
}
