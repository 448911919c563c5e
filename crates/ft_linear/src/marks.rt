ghost use Rattle.std.specs.Prelude.{◌≡◌, ◌+◌, ◌<◌, length, map, sum, slice_get, IfOk, OnOk};
ghost use Rattle.std.specs.Option.{option_map};
ghost use Rattle.ft_linear.specs.meaning.Marks.{MarksView, size_of, literal_of, sign_of};

use crate::forcing::{Signs, Slot};
use crate::formula::Formula;
use crate::lin::Lin;
use crate::node::Node;
use ft_base::{NoMemory, Three};
use std::alloc::Global;
use std::marker::Model;

/// What is known of a formula's atoms in a part: their values, and which literals are forced. It is the room
/// in which a part is judged, and is taken once for a formula.
#[derive(Drop)]
pub struct Marks {
    pub(crate) values: Vec<Three>,
    pub(crate) signs: Vec<Signs>,
    pub(crate) slots: Vec<Slot>,
}

impl Model for Marks {
    ghost use Rattle.std.specs.Prelude.{length};
    ghost use Rattle.ft_linear.specs.meaning.Marks.{MarksView};

    ghost Value = { MarksView };

    ghost view = { λ marks. record { values = marks.values.items; signs = marks.signs.items; room = length marks.slots.items } };
}

/// Slots for each node of some trees.
#[cycle(take_slots)]
fn take_all(parts: &[Node], slots: &mut Vec<Slot>) -> Result<(), NoMemory>
    ensures { OnOk result (length slots.new.items ≡ length slots.old.items + sum (map size_of parts.now)) }
{
    for part in parts {
        take_slots(part, slots)?;
    }
    Ok(())
}

/// A slot for each node of a tree.
#[cycle(take_slots)]
fn take_slots(node: &Node, slots: &mut Vec<Slot>) -> Result<(), NoMemory>
    ensures { OnOk result (length slots.new.items ≡ length slots.old.items + size_of node.now) }
{
    slots.push(Slot::BLANK)?;
    match node {
        Node::At(_) => Ok(()),
        Node::Not(inner) => take_slots(inner.get(), slots),
        Node::And(parts) => take_all(parts.as_slice(), slots),
        Node::Or(parts) => take_all(parts.as_slice(), slots),
    }
}

/// A value for each atom.
fn open_values(alloc: Global, atoms: &[Lin]) -> Result<Vec<Three>, NoMemory>
    ensures { IfOk result (λ values. length values.items ≡ length atoms.now) }
{
    let mut values = Vec::new(alloc);
    for atom in atoms {
        values.push(Three::Maybe)?;
    }
    Ok(values)
}

/// Signs for each atom.
fn open_signs(alloc: Global, atoms: &[Lin]) -> Result<Vec<Signs>, NoMemory>
    ensures { IfOk result (λ signs. length signs.items ≡ length atoms.now) }
{
    let mut signs = Vec::new(alloc);
    for atom in atoms {
        signs.push(Signs::NONE)?;
    }
    Ok(signs)
}

impl Marks {
    /// Room to judge parts of this formula.
    pub fn open(alloc: Global, formula: &Formula) -> Result<Marks, NoMemory>
        ensures values { IfOk result (λ marks. length marks.values ≡ length formula.now.atoms) }
        ensures signs { IfOk result (λ marks. length marks.signs ≡ length formula.now.atoms) }
        ensures room { IfOk result (λ marks. marks.room ≡ size_of formula.now.root) }
    {
        let mut slots = Vec::new(alloc);
        take_slots(formula.root(), &mut slots)?;
        Ok(Marks {
            values: open_values(alloc, formula.atoms())?,
            signs: open_signs(alloc, formula.atoms())?,
            slots,
        })
    }

    /// Which literal of an atom is forced. Of an atom that is forced both ways, which makes the truth No, it is the atom
    /// itself; `is_forced` tells both.
    pub fn forced(&self, atom: u32) -> Option<bool>
        requires { atom < length self.now.signs }
        ensures { option_map literal_of (slice_get self.now.signs atom) ≡ Some result }
    {
        let signs = self.signs[atom as usize];
        if signs.yes {
            Some(true)
        } else if signs.no {
            Some(false)
        } else {
            None
        }
    }

    /// The value of an atom.
    pub fn value(&self, atom: u32) -> Three
        requires { atom < length self.now.values }
        ensures { slice_get self.now.values atom ≡ Some result }
    {
        self.values[atom as usize]
    }

    /// Whether the literal of an atom with this truth is forced.
    pub fn is_forced(&self, atom: usize, value: bool) -> bool
        requires { atom < length self.now.signs }
        ensures { option_map (sign_of value) (slice_get self.now.signs atom) ≡ Some result }
    {
        let signs = self.signs[atom];
        if value { signs.yes } else { signs.no }
    }
}
