ghost use Rattle.ft_settle.specs.laws.Settling.{SettledIsTrue};

use ft_linear::form_laws;

/// Where no form of a formula begins with a factor of 0, the same points satisfy it once it is settled.
pub fn settling_law()
    ensures { SettledIsTrue }
{
    form_laws();
}
