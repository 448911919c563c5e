ghost use Rattle.std.specs.Prelude.{◌≡◌, length, IfOk};
ghost use Rattle.ft_mean.specs.judge.Scope.{kinds_of};
ghost use Rattle.ft_scan.specs.steps.Put.{ArePut, ArePlacesIn, AreOnce, AreTold};
ghost use Rattle.ft_scan.specs.steps.Stands.{ArePlaces};

use ft_base::{List, NoMemory};
use ft_core::Tables;
use ft_mean::Scope;
use std::alloc::Global;

/// The places in the set of the variables of a part of one side, in order of declaration.
pub(crate) fn scope_places(
    alloc: Global,
    tables: &Tables,
    part: Scope,
) -> Result<List<u32>, NoMemory>
    ensures { IfOk result (ArePlaces tables.now (kinds_of part)) }
{
    let mut places = List::new(alloc);
    for (place, var) in tables.vars.as_slice().iter().enumerate() {
        if part.has(place, var) {
            places.push(place as u32)?;
        }
    }
    Ok(places)
}

/// Puts values at their places of a row.
pub(crate) fn put_values(places: &[u32], values: &[i64], row: &mut List<i64>)
    requires count { length values.now ≡ length places.now }
    requires inside { ArePlacesIn places.now (length row.old) }
    requires once { AreOnce places.now }
    ensures { ArePut places.now values.now (length places.now) row.old row.new }
{
    for (at, place) in places.iter().enumerate() {
        row.set(*place as usize, values[at]);
    }
}

/// Tells the values at some places of a row.
pub(crate) fn tell_values(places: &[u32], row: &[i64], values: &mut [i64])
    requires count { length values.old ≡ length places.now }
    requires inside { ArePlacesIn places.now (length row.now) }
    ensures count { length values.new ≡ length values.old }
    ensures told { AreTold places.now row.now (length places.now) values.new }
{
    for (at, place) in places.iter().enumerate() {
        values[at] = row[*place as usize];
    }
}
