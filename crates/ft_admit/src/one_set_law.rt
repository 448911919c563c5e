ghost use Rattle.ft_admit.specs.laws.OneSet.{OneSet};

use ft_parse::one_tree;

/// A text spells one set.
pub fn one_set()
    ensures { OneSet }
{
    one_tree();
}
