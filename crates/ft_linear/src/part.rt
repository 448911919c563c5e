ghost use Rattle.std.specs.Prelude.{◌≡◌, ◌<◌, length, map, slice_get, slice_set, IfOk};
ghost use Rattle.ft_linear.specs.meaning.Part.{PartView};

use crate::area::Area;
use crate::formula::Formula;
use crate::lin::Lin;
use ft_base::{List, NoMemory, Span};
use std::alloc::Global;
use std::marker::Model;

/// A part of an area: spans for the unknowns of a formula, and a decision for some of its atoms.
#[derive(Drop)]
pub struct Part {
    area: Area,
    decided: List<Option<bool>>,
}

impl Model for Part {
    ghost use Rattle.ft_linear.specs.meaning.Part.{PartView};

    ghost Value = { PartView };

    ghost view = { λ part. record { spans = part.area.spans; decided = part.decided } };
}

/// A decision for each atom, none of which is made.
fn none_decided(alloc: Global, atoms: &[Lin]) -> Result<List<Option<bool>>, NoMemory>
    ensures { IfOk result (λ decided. decided ≡ map (λ atom. None) atoms.now) }
{
    let mut decided = List::new(alloc);
    for atom in atoms {
        decided.push(None)?;
    }
    Ok(decided)
}

impl Part {
    /// The whole area, with no atom of the formula decided.
    pub fn open(alloc: Global, formula: &Formula, area: &Area) -> Result<Part, NoMemory>
        ensures spans { IfOk result (λ part. part.spans ≡ area.now.spans) }
        ensures decided { IfOk result (λ part. part.decided ≡ map (λ atom. None) formula.now.atoms) }
    {
        Ok(Part {
            area: Area {
                spans: List::copy_of(alloc, area.spans.as_slice())?,
            },
            decided: none_decided(alloc, formula.atoms())?,
        })
    }

    /// Gives an unknown of the area another span.
    pub fn cut(&mut self, unknown: u32, span: Span)
        requires { unknown < length self.old.spans }
        ensures spans { self.new.spans ≡ slice_set self.old.spans unknown span }
        ensures decided { self.new.decided ≡ self.old.decided }
    {
        self.area.spans.set(unknown as usize, span);
    }

    /// Decides an atom of the formula, or takes its decision back.
    pub fn decide(&mut self, atom: u32, value: Option<bool>)
        requires { atom < length self.old.decided }
        ensures spans { self.new.spans ≡ self.old.spans }
        ensures decided { self.new.decided ≡ slice_set self.old.decided atom value }
    {
        self.decided.set(atom as usize, value);
    }

    /// The present area.
    pub fn area(&self) -> &Area
        ensures { result.now.spans ≡ self.now.spans }
    {
        &self.area
    }

    /// The decision of an atom of the formula.
    pub fn decided(&self, atom: u32) -> Option<bool>
        requires { atom < length self.now.decided }
        ensures { slice_get self.now.decided atom ≡ Some result }
    {
        *self.decided.get(atom as usize)
    }

    /// The decisions of all atoms, by number.
    pub(crate) fn decisions(&self) -> &[Option<bool>]
        ensures { result.now ≡ self.now.decided }
    {
        self.decided.as_slice()
    }
}
