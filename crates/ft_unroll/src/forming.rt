//! The formulas of short lists.
ghost use Rattle.std.specs.Prelude.{◌≤◌, IfOk};
ghost use Rattle.ft_claims.specs.laws.FormulaLaws.{AreGood};
ghost use Rattle.ft_claims.specs.meaning.Areas.{finished};
ghost use Rattle.ft_oblige.specs.meaning.Lists.{difference_obliged, list_obliged};
ghost use Rattle.ft_unroll.specs.meaning.Found.{IsListForm};

use crate::differing::difference_parts;
use crate::framing::list_spans;
use crate::law::laws;
use crate::within::add_list;
use ft_base::{List, NoMemory, Span};
use ft_claims::{Claim, Obliged, oblige};
use ft_core::Tables;
use ft_linear::{Area, Formula};
use std::alloc::Global;

/// A formula over the names of the scans of a short list. The names of scan t come after those of all scans before it, in each
/// scan first those of the variables and then those of the memories, in order of declaration.
#[derive(Drop)]
pub struct ListForm {
    pub formula: Formula,
    /// The span of each unknown.
    pub area: Area,
    /// The names that the first unknowns stand for, in rising order. Those of quotients come after them.
    pub names: List<u32>,
}

// The formula of some claims.
fn form_of(alloc: Global, spans: &[Span], parts: &[Claim]) -> Result<ListForm, NoMemory>
    requires { AreGood spans.now parts.now }
    ensures { IfOk result (IsListForm (finished spans.now parts.now)) }
{
    let Obliged {
        formula,
        area,
        names,
    } = oblige(alloc, spans, parts)?;
    Ok(ListForm {
        formula,
        area,
        names,
    })
}

/// The formula that a list of so many scans is allowed: it has a point exactly where some list of so many scans is. A list has 1 to
/// 8 scans.
pub fn list_formula(alloc: Global, tables: &Tables, scans: u32) -> Result<ListForm, NoMemory>
    requires some { 1 ≤ scans }
    requires few { scans ≤ 8 }
    ensures { IfOk result (IsListForm (list_obliged tables.now scans)) }
{
    laws();
    let spans = list_spans(alloc, tables, scans)?;
    let mut parts = List::new(alloc);
    add_list(alloc, tables, scans, &mut parts)?;
    let form = form_of(alloc, spans.as_slice(), parts.as_slice())?;
    Ok(form)
}

/// The formula that a list of so many scans is allowed and that the design and the requirement first differ at its last scan. A list
/// has 1 to 8 scans.
pub fn difference_formula(alloc: Global, tables: &Tables, scans: u32) -> Result<ListForm, NoMemory>
    requires some { 1 ≤ scans }
    requires few { scans ≤ 8 }
    ensures { IfOk result (IsListForm (difference_obliged tables.now scans)) }
{
    laws();
    let spans = list_spans(alloc, tables, scans)?;
    let parts = difference_parts(alloc, tables, scans)?;
    let form = form_of(alloc, spans.as_slice(), parts.as_slice())?;
    Ok(form)
}
