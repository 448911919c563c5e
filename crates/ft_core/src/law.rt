//! Laws over the definitions alone: public functions with empty bodies.
ghost use Rattle.ft_core.specs.laws.CheckedTests.{CheckedByTests};

/// A set that passes tests which compute is checked. So a set that is written out is checked by computing.
pub fn checked_by_tests()
    ensures { CheckedByTests }
{}
