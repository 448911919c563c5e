//! The search for a list of scans that has the values of a point of a formula.
ghost use Rattle.std.specs.Prelude.{◌≤◌, ◌<◌, List, length, IfOk};
ghost use Rattle.ft_claims.specs.declared.claim.Claim.{Claim};
ghost use Rattle.ft_claims.specs.meaning.Areas.{finished};
ghost use Rattle.ft_linear.specs.meaning.Formula.{IsOver};
ghost use Rattle.ft_oblige.specs.meaning.Lists.{list_spans};
ghost use Rattle.ft_unroll.specs.building.Telling.{IsSought};
ghost use Rattle.ft_unroll.specs.meaning.Found.{IsListForm};

use crate::forming::ListForm;
use crate::law::laws;
use crate::sought::Sought;
use crate::telling::history_of;
use ft_base::NoMemory;
use ft_core::Tables;
use ft_oblige::{Tried, try_formula};
use std::alloc::Global;

/// Seeks a point of a formula over so many scans with the splits of the set, and gives the list that it tells.
pub(crate) fn seek(
    alloc: Global,
    tables: &Tables,
    scans: u32,
    form: &ListForm,
) -> Result<Sought, NoMemory>
    requires some { 1 ≤ scans }
    requires few { scans ≤ 8 }
    requires over { IsOver (length form.now.area.spans) form.now.formula }
    ensures { (parts : List Claim) → IsListForm (finished (list_spans tables.now scans) parts) form.now
        → IfOk result (IsSought tables.now scans parts tables.now.splits) }
{
    laws();
    let tried = try_formula(alloc, &form.formula, &form.area, tables.splits)?;
    match tried {
        Tried::Closed(_cert) => Ok(Sought::NoList),
        Tried::Point(values) => {
            let history = history_of(
                alloc,
                tables,
                scans,
                form.names.as_slice(),
                values.as_slice(),
            )?;
            Ok(Sought::List(history))
        }
        Tried::Spent(tree) => Ok(Sought::Spent(tree)),
    }
}
