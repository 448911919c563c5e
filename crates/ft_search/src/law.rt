ghost use Rattle.ft_search.specs.laws.Budget.{SpendsLess};

use ft_linear::part_laws;

/// A spent tree has fewer splits than its area has points, times two for each atom, less one.
pub fn search_laws()
    ensures budget { SpendsLess }
{
    part_laws();
}
