ghost use Rattle.std.specs.Prelude.{◌≡◌, ◌<◌, ◌+◌, ◌*◌, ◌++◌, ◌∷◌, [], length, IfOk, OnOk, if◌then◌else◌};
ghost use Rattle.ft_mean.specs.meaning.Proper.{AllProper};
ghost use Rattle.ft_cover.specs.meaning.Covered.{IsCover, IsFaultless};
ghost use Rattle.ft_cover.specs.meaning.Attempted.{AreClosed, IsStep};

use crate::answer::Cover;
use crate::law::laws;
use crate::trying::{Attempt, try_number};
use ft_base::{List, NoMemory};
use ft_cert::Cert;
use ft_core::Tables;
use std::alloc::Global;

/// Adds a certificate where they are kept, and drops it where they aren't.
pub fn add_cert(keep: bool, cert: Cert, certs: &mut List<Cert>) -> Result<(), NoMemory>
    ensures { OnOk result (certs.new ≡ if keep then certs.old ++ cert ∷ [] else certs.old) }
{
    if keep { certs.push(cert) } else { Ok(()) }
}

// Tries the next obligation, where those before it are closed: it is closed too, or the answer.
fn go_on(
    alloc: Global,
    tables: &Tables,
    keep: bool,
    before: u32,
    certs: &mut List<Cert>,
) -> Result<Option<Cover>, NoMemory>
    requires last { before < 3 * length tables.now.tables }
    requires closed { AreClosed tables.now keep before certs.old }
    ensures { IfOk result (IsStep tables.now keep (before + 1) certs.new) }
{
    let tried = try_number(alloc, tables, before + 1)?;
    match tried {
        Attempt::Closed(cert) => {
            add_cert(keep, cert, certs)?;
            Ok(None)
        }
        Attempt::Stopped(found) => Ok(Some(found)),
    }
}

// Tries the obligations of each table in order.
fn first_open(alloc: Global, tables: &Tables, keep: bool) -> Result<Cover, NoMemory>
    ensures { IfOk result (IsCover tables.now keep) }
{
    laws();
    let mut certs = List::new(alloc);
    let last = 3 * tables.tables.len() as u32;
    for before in 0..last {
        let found = go_on(alloc, tables, keep, before, &mut certs)?;
        if let Some(cover) = found {
            return Ok(cover);
        }
    }
    Ok(Cover::Proper { certs })
}

/// Tries the obligations of each table in order, and answers the first that isn't closed. Each is made, tried and dropped. With
/// `keep` the certificates of all of them are kept. `NoMemory` is want of memory, or a row or a column past 2^32.
pub fn cover(alloc: Global, tables: &Tables, keep: bool) -> Result<Cover, NoMemory>
    ensures answer { IfOk result (IsCover tables.now keep) }
    ensures complete { AllProper tables.now → IfOk result IsFaultless }
{
    laws();
    let found = first_open(alloc, tables, keep)?;
    Ok(found)
}
