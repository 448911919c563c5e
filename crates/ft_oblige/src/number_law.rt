ghost use Rattle.ft_oblige.specs.laws.NumberLaws.{SubjectsCounted, TablesHaveNumbers, FactsHaveNumbers, OneObligation};

/// Which obligation has which number, and that it is one: what no point satisfies for one formula of a number holds for each.
pub fn number_laws()
    ensures count { SubjectsCounted }
    ensures tables { TablesHaveNumbers }
    ensures facts { FactsHaveNumbers }
    ensures one { OneObligation }
{}
