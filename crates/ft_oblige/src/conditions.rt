//! The claims of conditions.
ghost use Rattle.std.specs.Prelude.{◌≡◌, ◌++◌, map, OnOk};
ghost use Rattle.ft_claims.specs.meaning.Names.{claim_of};

use ft_base::{List, NoMemory};
use ft_claims::{Claim, Frame, claim_of};
use ft_core::{Cond, Tables};
use std::alloc::Global;

/// Adds the claims of these conditions.
pub fn add_claims(
    alloc: Global,
    tables: &Tables,
    frame: &Frame,
    conds: &[Cond],
    parts: &mut List<Claim>,
) -> Result<(), NoMemory>
    ensures { OnOk result (parts.new ≡ parts.old ++ map (claim_of tables.now frame.now) conds.now) }
{
    for cond in conds {
        parts.push(claim_of(alloc, tables, frame, cond)?)?;
    }
    Ok(())
}
