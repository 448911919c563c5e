//! Allowed lists of a set, from the shortest on.
ghost use Rattle.std.specs.Prelude.{◌≤◌, IfOk};
ghost use Rattle.ft_oblige.specs.meaning.Lists.{list_parts};
ghost use Rattle.ft_unroll.specs.building.Telling.{IsSought};
ghost use Rattle.ft_unroll.specs.meaning.Found.{AreLists};

use crate::forming::list_formula;
use crate::law::list_laws;
use crate::listing::Lists;
use crate::seeking::seek;
use crate::sought::Sought;
use ft_base::NoMemory;
use ft_core::{History, Tables};
use std::alloc::Global;

// What a search finds of the allowed lists of so many scans.
fn allowed_of(alloc: Global, tables: &Tables, scans: u32) -> Result<Sought, NoMemory>
    requires some { 1 ≤ scans }
    requires few { scans ≤ 8 }
    ensures { IfOk result (IsSought tables.now scans (list_parts tables.now scans) tables.now.splits) }
{
    let form = list_formula(alloc, tables, scans)?;
    let sought = seek(alloc, tables, scans, &form)?;
    Ok(sought)
}

/// An allowed list of as many scans as a short list may have, or the least length of which there is none. It tries the lengths in
/// order, each with the splits of the set, and stops at the first that it can't settle.
pub fn allowed_list(alloc: Global, tables: &Tables) -> Result<Lists, NoMemory>
    ensures { IfOk result (AreLists tables.now) }
{
    list_laws();
    let mut longest = History::new(alloc);
    for before in 0..tables.depth {
        let length = before + 1;
        let sought = allowed_of(alloc, tables, length)?;
        match sought {
            Sought::NoList => return Ok(Lists::Stops { length }),
            Sought::List(history) => longest = history,
            Sought::Spent(tree) => return Ok(Lists::SpentAt { length, tree }),
        }
    }
    Ok(Lists::List { history: longest })
}
