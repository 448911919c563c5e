ghost use Rattle.std.specs.Prelude.{◌≡◌, ◌<◌, ◌≤◌, List, ℕ, Some, length, vec_len, IfOk, IfErr, IsErr, OnOk};
ghost use Rattle.std.specs.List.{Contains};
ghost use Rattle.ft_port.specs.Fetching.{IsFile, HasFetchCause};
ghost use Rattle.ft_port.specs.Shelf.{OthersStay};

use crate::shelf::{Failed, Shelf};
use ft_base::{List, NoMemory, Text};
use std::alloc::Global;
use thiserror::Error;

/// Why a file wasn't fetched.
#[derive(Clone, Copy, Debug, PartialEq, Eq, Drop, Error)]
pub enum FetchError {
    #[error("the file could not be read")]
    Failed,
    #[error("the file is too long")]
    TooLong,
    #[error("no memory")]
    NoMemory,
}

/// How many bytes a fetch asks for at a time.
const CHUNK: usize = 65_536;

/// Room for as many bytes.
fn buffer(alloc: Global, size: usize) -> Result<Vec<u8>, NoMemory>
    requires { 0 < size }
    ensures { IfOk result (λ bytes. 0 < vec_len bytes) }
{
    Ok(Vec::from_elem(alloc, 0u8, size)?)
}

/// The whole file of this name, where it has at most `limit` bytes. After a read that fails there is no other.
pub fn fetch<S: Shelf>(
    alloc: Global,
    shelf: &mut S,
    name: &str,
    limit: u64,
) -> Result<Text, FetchError>
    requires { Contains (S.names shelf.old) name.now }
    ensures file { IfOk result (IsFile (S.content shelf.old name.now) (S.reads shelf.new name.now) limit) }
    ensures cause { IfErr result (HasFetchCause (S.content shelf.old name.now) (S.reads shelf.new name.now) limit
        (S.faults shelf.old name.now) (S.faults shelf.new name.now) (S.reach shelf.new name.now)) }
    ensures longer { (file : List ℕ) → S.content shelf.old name.now ≡ Some file → limit < length file → IsErr result }
    ensures faults { OnOk result (S.faults shelf.new name.now ≡ S.faults shelf.old name.now) }
    ensures reach { S.reach shelf.old name.now ≤ S.reach shelf.new name.now }
    ensures others { OthersStay name.now (S.reach shelf.old) (S.reach shelf.new) (S.faults shelf.old) (S.faults shelf.new)
        (S.reads shelf.old) (S.reads shelf.new) }
    ensures names { S.names shelf.new ≡ S.names shelf.old }
    ensures content { S.content shelf.new ≡ S.content shelf.old }
{
    let mut text: Text = List::new(alloc);
    let Ok(mut room) = buffer(alloc, CHUNK) else {
        return Err(FetchError::NoMemory);
    };
    let chunk = room.as_mut_slice();
    for _turn in 0..u64::MAX {
        let place = text.len() as u64;
        let count = match shelf.read(name, place, chunk) {
            Ok(count) => count,
            Err(Failed) => return Err(FetchError::Failed),
        };
        if count == 0 {
            return Ok(text);
        }
        // No memory holds more bytes than a `u64` counts.
        let Some(end) = place.checked_add(count as u64) else {
            return Err(FetchError::NoMemory);
        };
        if end > limit {
            return Err(FetchError::TooLong);
        }
        match text.extend(&chunk[..count]) {
            Ok(()) => {}
            Err(NoMemory) => return Err(FetchError::NoMemory),
        }
    }
    // Each turn added a byte, and no memory holds so many.
    Err(FetchError::NoMemory)
}
