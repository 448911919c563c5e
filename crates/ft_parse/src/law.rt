ghost use Rattle.ft_parse.specs.laws.Uniqueness.{FaultOrTree, OneFault, OneTree};

use ft_lex::one_tokens;

/// A text spells one tree, places included.
pub fn one_tree()
    ensures { OneTree }
{
    one_tokens();
}

/// A text has one fault, but for want of memory: its kind, the limit and the place are determined.
pub fn one_fault()
    ensures { OneFault }
{
    one_tokens();
}

/// A text that spells a tree has no fault but want of memory.
pub fn fault_or_tree()
    ensures { FaultOrTree }
{
    one_tokens();
}
