ghost use Rattle.std.specs.Prelude.{◌≡◌, ◌∷◌};
ghost use Rattle.std.specs.List.{Contains, position};
ghost use Rattle.ft_port.specs.Causes.{HasCause};
ghost use Rattle.ft_port.specs.Counts.{is_of, names_of, reach_by, faults_by, reads_by};
ghost use Rattle.ft_port.specs.Reads.{read_of};
ghost use Rattle.ft_port.specs.Shelf.{Reaches, OthersStay};

use crate::entry::Entry;
use crate::shelf::Failed;

/// The place of the first entry of this name.
fn place_of(counts: &[Entry], name: &[u8]) -> Option<usize>
    ensures { result ≡ position (is_of name.now) counts.now }
{
    counts
        .iter()
        .position(|entry| entry.name.as_slice() == name)
}

/// Notes what a read of this name from `place` on gave, and how it left the bytes it was to fill. The first entry of the name counts.
pub fn note_read(
    counts: &mut [Entry],
    name: &[u8],
    place: u64,
    given: Result<usize, Failed>,
    into: &[u8],
)
    requires { Contains (names_of counts.old) name.now }
    ensures names { names_of counts.new ≡ names_of counts.old }
    ensures reach { Reaches (reach_by counts.old name.now) (reach_by counts.new name.now) place given }
    ensures cause { HasCause (faults_by counts.old name.now) (faults_by counts.new name.now) given }
    ensures reads { reads_by counts.new name.now ≡ read_of place given into.now ∷ reads_by counts.old name.now }
    ensures others { OthersStay name.now (reach_by counts.old) (reach_by counts.new) (faults_by counts.old) (faults_by counts.new)
        (reads_by counts.old) (reads_by counts.new) }
{
    match place_of(counts, name) {
        Some(at) => counts[at].count_read(place, given, into),
        None => unreachable!(),
    }
}
