ghost use Rattle.ft_linear.specs.laws.Forms.{FactorsAreSmall, LiteralsHold, DividedHolds, QuotientIsExact};
ghost use Rattle.ft_linear.specs.laws.Parts.{AllWhereYes, DifferencesAreMet, ForcedHold, NoWhereBothWays, NoneWhereNo, SettledAtOnePoint};
ghost use Rattle.ft_linear.specs.laws.Parts.{WithinSpans};
ghost use Rattle.ft_linear.specs.laws.Sums.{AllWithinTightened, NoneWhereContradicted, SinglesTighten};

/// The factors of a form are small. The form of a literal says what the literal does, and a form divided by a number, with
/// its constant rounded up, what the form does.
pub fn form_laws()
    ensures small { FactorsAreSmall }
    ensures literal { LiteralsHold }
    ensures divided { DividedHolds }
    ensures quotient { QuotientIsExact }
{}

/// What the truth and the forced literals of a part say of its points, and which parts are never Maybe.
pub fn part_laws()
    ensures none { NoneWhereNo }
    ensures all { AllWhereYes }
    ensures forced { ForcedHold }
    ensures differences { DifferencesAreMet }
    ensures both_ways { NoWhereBothWays }
    ensures one_point { SettledAtOnePoint }
    ensures spans { WithinSpans }
{}

/// What sums of lines say of the points at which each forced literal is true. The sum of a single literal and the bounds that cancel
/// its other unknowns is made by one pass over its form.
pub fn sum_laws()
    ensures contradicted { NoneWhereContradicted }
    ensures tightened { AllWithinTightened }
    ensures single { SinglesTighten }
{}
