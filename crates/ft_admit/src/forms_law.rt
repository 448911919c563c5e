ghost use Rattle.ft_admit.specs.laws.FormFacts.{FormIsLawful};

use ft_names::names_differ;

/// A tree without a fault spells a set of lawful form: its counts are within the limits, each place, range and `init` is
/// right, names differ, each variable has its tables, and each block takes and shows what it may.
pub fn lawful_form()
    ensures { FormIsLawful }
{
    names_differ();
}
