//! A search for a point of an obligation, with what it found in hand.
ghost use Rattle.std.specs.Prelude.{◌≤◌, ◌≤ℤ◌, length, IfOk};
ghost use Rattle.ft_linear.specs.meaning.Formula.{IsOver};
ghost use Rattle.ft_search.specs.laws.Budget.{AreNonempty};
ghost use Rattle.ft_oblige.specs.meaning.Tried.{IsTried};

use ft_base::{List, NoMemory, Span};
use ft_cert::{Cert, cert_laws};
use ft_linear::{Area, Formula};
use ft_search::{Found, Room, SpentTree, search, search_laws};
use std::alloc::Global;

/// What was found of a formula in an area.
#[derive(Drop)]
pub enum Tried {
    /// A certificate that holds: no point of the area satisfies the formula.
    Closed(Cert),
    /// A point of the area that satisfies the formula, as a value for each unknown.
    Point(List<i64>),
    /// The tree of a search whose splits are used up.
    Spent(SpentTree),
}

// A span has a value, as each that there is.
fn has_value(span: Span)
    ensures { span.0 ≤ℤ span.1 }
{}

// So has each of an area.
fn have_values(spans: &[Span])
    ensures { AreNonempty spans.now }
{
    for span in spans {
        has_value(*span);
    }
}

/// Searches the area for a point of the formula with so many splits.
pub fn try_formula(
    alloc: Global,
    formula: &Formula,
    area: &Area,
    splits: u32,
) -> Result<Tried, NoMemory>
    requires over { IsOver (length area.now.spans) formula.now }
    requires splits { splits ≤ 200000 }
    ensures { IfOk result (IsTried formula.now area.now.spans splits) }
{
    cert_laws();
    search_laws();
    have_values(area.spans.as_slice());
    let _root = formula.root();
    let mut room = Room::open(alloc, formula, area, splits)?;
    match search(formula, area, &mut room) {
        Found::Closed => {
            let cert = room.cert(alloc, formula, area)?;
            Ok(Tried::Closed(cert))
        }
        Found::Point => {
            let point = room.point(alloc)?;
            Ok(Tried::Point(point))
        }
        Found::Spent => {
            let tree = room.tree(alloc, formula)?;
            Ok(Tried::Spent(tree))
        }
    }
}
