//! The places that are marked.
ghost use Rattle.std.specs.Prelude.{◌≡◌, ◌++◌, [], ◌∷◌, IfOk, OnOk, if◌then◌else◌};
ghost use Rattle.ft_claims.specs.building.Marking.{ArePlaces, first_marks, marked_places};

use ft_base::{List, NoMemory};
use std::alloc::Global;

/// Marks for so many names, none of which is marked, and behind them for so many unknowns, each of which is.
pub(crate) fn first_marks(alloc: Global, names: usize, pairs: usize) -> Result<List<bool>, NoMemory>
    ensures { IfOk result (λ marks. marks ≡ first_marks names pairs) }
{
    let mut marks = List::from_vec(Vec::from_elem(alloc, false, names)?);
    let more = Vec::from_elem(alloc, true, pairs)?;
    marks.extend(more.as_slice())?;
    Ok(marks)
}

// A place as the number of a name. One past 2^32 is refused as want of memory.
fn number_of(place: usize) -> Result<u32, NoMemory>
    ensures { IfOk result (λ number. number ≡ place) }
{
    match u32::try_from(place) {
        Ok(number) => Ok(number),
        Err(_) => Err(NoMemory),
    }
}

fn add_place(places: &mut List<u32>, place: usize, mark: bool) -> Result<(), NoMemory>
    ensures { OnOk result (places.new ≡ if mark then places.old ++ place ∷ [] else places.old) }
{
    if !mark {
        return Ok(());
    }
    let number = number_of(place)?;
    places.push(number)
}

/// The places that are marked, in order.
pub fn marked_places(alloc: Global, marks: &[bool]) -> Result<List<u32>, NoMemory>
    ensures value { IfOk result (λ places. places ≡ marked_places marks.now) }
    ensures places { IfOk result (ArePlaces marks.now) }
{
    let mut places = List::new(alloc);
    for (at, mark) in marks.iter().enumerate() {
        add_place(&mut places, at, *mark)?;
    }
    Ok(places)
}
