ghost use Rattle.ft_names.specs.laws.Names.{FewItems, NamesDiffer};

/// Where no name of a set stands a second time, no two of its declarations have the same name. So the place that
/// `Names::find` gives is the only place of a name.
pub fn names_differ()
    ensures { NamesDiffer }
{}

/// A tree within the limits of sets has at most 1,800 items.
pub fn few_items()
    ensures { FewItems }
{}
