//! Which variables a list of scans has values of, and what it tells of each variable of the set.
ghost use Rattle.std.specs.Prelude.{◌≡◌};
ghost use Rattle.ft_core.specs.meaning.Kinds.{count_of, place_of, is_of};
ghost use Rattle.ft_mean.specs.judge.Scope.{kinds_of};
ghost use Rattle.ft_mean.specs.meaning.Reading.{reading_of, before};

use crate::seen::number_at;
use crate::time::{Known, begins};
use ft_core::{History, Side, Tables, Var};

/// The variables of one side of which a list of scans has values.
#[derive(Clone, Copy, Drop)]
pub enum Scope {
    /// Those that the side is given.
    Given(Side),
    /// Those that its tables define.
    Defined(Side),
    /// All of them.
    Whole(Side),
}

impl Scope {
    /// Whether the variable at a place of the set belongs to it.
    pub fn has(self, place: usize, var: &Var) -> bool
        ensures { result ≡ kinds_of self place var.now }
    {
        match self {
            Scope::Given(side) => side.is_given(place, var),
            Scope::Defined(side) => side.section().defines(place, var),
            Scope::Whole(side) => side.has(place, var),
        }
    }
}

/// The place of a variable in a scan over a scope.
fn place_of(scope: Scope, vars: &[Var], variable: usize) -> usize
    ensures { result ≡ place_of (kinds_of scope) vars.now variable }
{
    let mut count = 0;
    for place in 0..variable.min(vars.len()) {
        if scope.has(place, &vars[place]) {
            count += 1;
        }
    }
    count
}

/// How many variables are of a scope.
pub(crate) fn count_of(scope: Scope, vars: &[Var]) -> usize
    ensures { result ≡ count_of (kinds_of scope) vars.now }
{
    place_of(scope, vars, vars.len())
}

/// Whether the variable at a place of the set is of a scope.
pub(crate) fn is_of(tables: &Tables, scope: Scope, variable: usize) -> bool
    ensures { result ≡ is_of tables.now.vars (kinds_of scope) variable }
{
    match tables.vars.as_slice().get(variable) {
        Some(var) => scope.has(variable, var),
        None => false,
    }
}

/// What the scans tell of a variable: one of another scope is at its `init`.
pub(crate) fn recorded(
    tables: &Tables,
    scope: Scope,
    scans: &History,
    scan: usize,
    variable: usize,
) -> i64
    ensures { result ≡ reading_of tables.now (kinds_of scope) scans.now scan variable }
{
    if is_of(tables, scope, variable) {
        number_at(
            scans,
            scan,
            place_of(scope, tables.vars.as_slice(), variable),
        )
    } else {
        tables.init_of(variable)
    }
}

/// The same one scan before.
pub(crate) fn recorded_before(
    tables: &Tables,
    scope: Scope,
    scans: &History,
    scan: usize,
    variable: usize,
) -> i64
    ensures { result ≡ before tables.now (reading_of tables.now (kinds_of scope) scans.now) scan variable }
{
    let known = Known {
        tables,
        scope,
        scans,
    };
    if begins(&known, scan) {
        tables.init_of(variable)
    } else {
        recorded(tables, scope, scans, scan - 1, variable)
    }
}
