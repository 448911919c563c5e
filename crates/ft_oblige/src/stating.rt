//! What is claimed of one cell of a table.
ghost use Rattle.std.specs.Prelude.{◌≡◌, ◌+◌, slice_get, IfOk};
ghost use Rattle.std.specs.Option.{option_map};
ghost use Rattle.ft_claims.specs.declared.claim.Sym.TheVariants as sym;
ghost use Rattle.ft_claims.specs.meaning.Names.{claim_of};
ghost use Rattle.ft_oblige.specs.building.Stating.{beyond, has_value, out_of, pair_claim, said, wanted};

use crate::joining::{both, either};
use ft_base::{List, NoMemory, Range};
use ft_claims::{Claim, Frame, Sym, claim_of, denied, equal, sym_of, variable_name};
use ft_core::{Cond, Tables, Term, Var};
use std::alloc::Global;

/// What is claimed of a cell.
#[derive(Clone, Copy, Drop)]
pub enum About {
    /// That it holds.
    Holds,
    /// That it holds and its term is out of the range of its variable.
    Outside,
    /// That it holds and this variable has the value of its term. Only cells for the variable count.
    Defines(u32),
}

/// What is claimed of the cells for a variable.
#[derive(Clone, Copy, Drop)]
pub struct Aim {
    pub about: About,
    pub target: u32,
}

/// Whether the cells for the variable count.
pub(crate) fn wanted(aim: Aim) -> bool
    ensures { result ≡ wanted aim.about aim.target }
{
    match aim.about {
        About::Holds => true,
        About::Outside => true,
        About::Defines(variable) => aim.target == variable,
    }
}

// That two conditions hold.
fn both_hold(
    alloc: Global,
    tables: &Tables,
    frame: &Frame,
    row: &Cond,
    column: &Cond,
) -> Result<Claim, NoMemory>
    ensures { IfOk result (λ whole. whole ≡ pair_claim tables.now frame.now row.now column.now) }
{
    let first = claim_of(alloc, tables, frame, row)?;
    let second = claim_of(alloc, tables, frame, column)?;
    both(alloc, first, second)
}

// The range of a variable, where there is one at this place.
fn range_of(vars: &[Var], variable: u32) -> Option<Range>
    ensures { result ≡ option_map (λ v. v.range) (slice_get vars.now variable) }
{
    match vars.get(variable as usize) {
        Some(var) => Some(var.range),
        None => None,
    }
}

// That a term is out of a range.
fn out_of(
    alloc: Global,
    tables: &Tables,
    frame: &Frame,
    range: Range,
    term: &Term,
) -> Result<Claim, NoMemory>
    ensures { IfOk result (λ whole. whole ≡ out_of tables.now frame.now range term.now) }
{
    let low = Claim::Lt(sym_of(alloc, tables, frame, term)?, Sym::Num(range.lo()));
    let inside = Claim::Le(sym_of(alloc, tables, frame, term)?, Sym::Num(range.hi()));
    let high = denied(alloc, inside)?;
    let whole = either(alloc, low, high)?;
    Ok(whole)
}

// That a condition holds and a term is out of a range, where there is one.
fn beyond(
    alloc: Global,
    tables: &Tables,
    frame: &Frame,
    range: Option<Range>,
    condition: Claim,
    term: &Term,
) -> Result<Claim, NoMemory>
    ensures { IfOk result (λ whole. whole ≡ beyond tables.now frame.now range condition term.now) }
{
    match range {
        Some(range) => {
            let outside = out_of(alloc, tables, frame, range, term)?;
            let whole = both(alloc, condition, outside)?;
            Ok(whole)
        }
        None => Ok(Claim::Or(List::new(alloc))),
    }
}

// The name of a variable of this scan.
fn own_name(frame: &Frame, variable: u32) -> Result<Sym, NoMemory>
    ensures { IfOk result (λ name. name ≡ sym.Slot (frame.now.this + variable)) }
{
    variable_name(frame.this, variable)
}

// That a condition holds and a variable has the value of a term.
fn defined(
    alloc: Global,
    tables: &Tables,
    frame: &Frame,
    variable: u32,
    condition: Claim,
    term: &Term,
) -> Result<Claim, NoMemory>
    ensures { IfOk result (λ whole. whole ≡ has_value tables.now frame.now variable condition term.now) }
{
    let name = own_name(frame, variable)?;
    let value = sym_of(alloc, tables, frame, term)?;
    let same = equal(alloc, name, value)?;
    let whole = both(alloc, condition, same)?;
    Ok(whole)
}

// What is claimed of a cell whose condition and term these are.
fn said(
    alloc: Global,
    tables: &Tables,
    frame: &Frame,
    aim: Aim,
    condition: Claim,
    term: &Term,
) -> Result<Claim, NoMemory>
    ensures { IfOk result (λ whole. whole ≡ said tables.now frame.now aim.about aim.target condition term.now) }
{
    match aim.about {
        About::Holds => Ok(condition),
        About::Outside => {
            let range = range_of(tables.vars.as_slice(), aim.target);
            let whole = beyond(alloc, tables, frame, range, condition, term)?;
            Ok(whole)
        }
        About::Defines(variable) => {
            let whole = defined(alloc, tables, frame, variable, condition, term)?;
            Ok(whole)
        }
    }
}

/// What is claimed of a cell with two conditions.
pub(crate) fn headed_cell(
    alloc: Global,
    tables: &Tables,
    frame: &Frame,
    aim: Aim,
    row: &Cond,
    column: &Cond,
    term: &Term,
) -> Result<Claim, NoMemory>
    ensures { IfOk result (λ whole. whole ≡ said tables.now frame.now aim.about aim.target
        (pair_claim tables.now frame.now row.now column.now) term.now) }
{
    let condition = both_hold(alloc, tables, frame, row, column)?;
    let whole = said(alloc, tables, frame, aim, condition, term)?;
    Ok(whole)
}

/// What is claimed of a cell with one condition.
pub(crate) fn plain_cell(
    alloc: Global,
    tables: &Tables,
    frame: &Frame,
    aim: Aim,
    column: &Cond,
    term: &Term,
) -> Result<Claim, NoMemory>
    ensures { IfOk result (λ whole. whole ≡ said tables.now frame.now aim.about aim.target
        (claim_of tables.now frame.now column.now) term.now) }
{
    let condition = claim_of(alloc, tables, frame, column)?;
    let whole = said(alloc, tables, frame, aim, condition, term)?;
    Ok(whole)
}
