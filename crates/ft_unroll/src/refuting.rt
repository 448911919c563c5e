//! A shortest list on which the design and the requirement differ.
ghost use Rattle.std.specs.Prelude.{◌≤◌, IfOk};
ghost use Rattle.ft_mean.specs.meaning.Proper.{AllProper};
ghost use Rattle.ft_oblige.specs.meaning.Lists.{difference_parts};
ghost use Rattle.ft_unroll.specs.building.Telling.{IsSought};
ghost use Rattle.ft_unroll.specs.meaning.Found.{IsRefute};

use crate::forming::difference_formula;
use crate::law::{list_laws, short_laws};
use crate::refutation::Refute;
use crate::seeking::seek;
use crate::sought::Sought;
use ft_base::NoMemory;
use ft_core::Tables;
use std::alloc::Global;

// What a search finds of the lists of so many scans at whose last scan the sides first differ.
fn difference_of(alloc: Global, tables: &Tables, scans: u32) -> Result<Sought, NoMemory>
    requires some { 1 ≤ scans }
    requires few { scans ≤ 8 }
    ensures { IfOk result (IsSought tables.now scans (difference_parts tables.now scans) tables.now.splits) }
{
    let form = difference_formula(alloc, tables, scans)?;
    let sought = seek(alloc, tables, scans, &form)?;
    Ok(sought)
}

/// A list on which the design and the requirement differ, or that no list of as many scans as a short list may have shows that. It
/// tries the lengths in order, each with the splits of the set, and stops at the first that it can't settle.
pub fn refute(alloc: Global, tables: &Tables) -> Result<Refute, NoMemory>
    requires proper { AllProper tables.now }
    ensures { IfOk result (IsRefute tables.now) }
{
    list_laws();
    short_laws();
    for before in 0..tables.depth {
        let length = before + 1;
        let sought = difference_of(alloc, tables, length)?;
        match sought {
            Sought::NoList => {}
            Sought::List(history) => {
                let scan = before as usize;
                return Ok(Refute::List { history, scan });
            }
            Sought::Spent(tree) => return Ok(Refute::SpentAt { length, tree }),
        }
    }
    Ok(Refute::Safe)
}
