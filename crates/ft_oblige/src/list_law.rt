ghost use Rattle.ft_oblige.specs.laws.ListPartLaws.{ListsAreGood, DifferencesAreGood, ListsAreNames, ListsHaveSome, ListsAreSpans};

use crate::part_law::goods;

/// The parts of the formulas of lists have names of their scans, each of which has a span with some number in it, and positive
/// divisors. Numbers are in their spans name by name exactly where they are in the area of all names.
pub fn list_part_laws()
    ensures lists { ListsAreGood }
    ensures differences { DifferencesAreGood }
    ensures names { ListsAreNames }
    ensures some { ListsHaveSome }
    ensures spans { ListsAreSpans }
{
    goods();
}
