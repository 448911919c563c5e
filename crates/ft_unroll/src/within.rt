//! What the environment keeps over the scans of a short list.
ghost use Rattle.std.specs.Prelude.{◌≡◌, ◌≤◌, ◌<◌, ◌++◌, map, OnOk};
ghost use Rattle.ft_claims.specs.meaning.Names.{claim_of};
ghost use Rattle.ft_oblige.specs.meaning.Lists.{list_parts, nat_claims};

use crate::framing::list_frame;
use ft_base::{List, NoMemory};
use ft_claims::{Claim, Frame};
use ft_core::{Cond, Tables};
use ft_oblige::add_claims;
use std::alloc::Global;

// Adds the claims of two lists of conditions.
fn add_both(
    alloc: Global,
    tables: &Tables,
    frame: &Frame,
    first: &[Cond],
    second: &[Cond],
    parts: &mut List<Claim>,
) -> Result<(), NoMemory>
    ensures { OnOk result (parts.new ≡ parts.old
        ++ (map (claim_of tables.now frame.now) first.now ++ map (claim_of tables.now frame.now) second.now)) }
{
    add_claims(alloc, tables, frame, first, parts)?;
    add_claims(alloc, tables, frame, second, parts)
}

// Adds the environment's clauses at a scan.
fn add_nat(
    alloc: Global,
    tables: &Tables,
    scan: u32,
    parts: &mut List<Claim>,
) -> Result<(), NoMemory>
    requires { scan < 8 }
    ensures { OnOk result (parts.new ≡ parts.old ++ nat_claims tables.now scan) }
{
    let frame = list_frame(tables, scan);
    let always = tables.always.as_slice();
    if frame.anew {
        add_both(
            alloc,
            tables,
            &frame,
            tables.first.as_slice(),
            always,
            parts,
        )
    } else {
        add_both(alloc, tables, &frame, always, tables.step.as_slice(), parts)
    }
}

/// Adds the parts of the formula of an allowed list of so many scans.
pub(crate) fn add_list(
    alloc: Global,
    tables: &Tables,
    scans: u32,
    parts: &mut List<Claim>,
) -> Result<(), NoMemory>
    requires { scans ≤ 8 }
    ensures { OnOk result (parts.new ≡ parts.old ++ list_parts tables.now scans) }
{
    for scan in 0..scans {
        add_nat(alloc, tables, scan, parts)?;
    }
    Ok(())
}
