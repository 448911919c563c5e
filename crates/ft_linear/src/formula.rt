ghost use Rattle.std.specs.Prelude.{◌≡◌, ◌↔◌, IsTrue, ◌≤◌, ◌+ℤ◌, ◌*ℤ◌, ℤ, true, length, All, unsigned_abs, slice_get, int_le};
ghost use Rattle.std.specs.Option.{SomeIff};
ghost use Rattle.std.specs.List.{list_all, list_any};
ghost use Rattle.ft_linear.specs.meaning.Form.{LinView, IsSmall, HasUnknowns, values_at, form_at, sum_at};
ghost use Rattle.ft_linear.specs.meaning.Truth.{truth};
ghost use Rattle.ft_linear.specs.meaning.Formula.{atom_at, atoms_below, form_truth, IsOver, truth_at};
ghost use Rattle.ft_linear.specs.judging.Evaluation.{CanEvaluate};

use crate::lin::Lin;
use crate::node::Node;
use ft_base::List;
use std::marker::Model;

/// A formula: a tree over atoms, each of which says that a form is at most 0.
#[derive(Drop)]
pub struct Formula {
    atoms: List<Lin>,
    root: Node,
}

impl Model for Formula {
    ghost use Rattle.std.specs.Prelude.{◌≡◌, true, length};
    ghost use Rattle.std.specs.Coded.{codes};
    ghost use Rattle.ft_linear.specs.contracts.node.Node as node;
    ghost use Rattle.ft_linear.specs.meaning.Formula.{FormulaView, atoms_below};

    ghost Value = { FormulaView };

    ghost coded = { Prim.hlevel (codes, node.the_row.coded) };

    ghost view = { λ formula. record { atoms = formula.atoms; root = formula.root } };

    ghost invariant = { λ formula. atoms_below (length formula.atoms) formula.root ≡ true };
}

/// Whether each atom of some trees is below this number.
#[cycle(has_atoms_below)]
fn have_atoms_below(parts: &[Node], count: usize) -> bool
    ensures { result ≡ list_all (atoms_below count) parts.now }
{
    for part in parts {
        if !has_atoms_below(part, count) {
            return false;
        }
    }
    true
}

/// Whether each atom of a tree is below this number.
#[cycle(has_atoms_below)]
fn has_atoms_below(node: &Node, count: usize) -> bool
    ensures { result ≡ atoms_below count node.now }
{
    match node {
        Node::At(atom) => (*atom as usize) < count,
        Node::Not(inner) => has_atoms_below(inner.get(), count),
        Node::And(parts) => have_atoms_below(parts.as_slice(), count),
        Node::Or(parts) => have_atoms_below(parts.as_slice(), count),
    }
}

/// Whether each unknown of some forms is below this number.
fn are_over(atoms: &[Lin], count: usize) -> bool
    ensures { IsTrue result ↔ All (λ l. HasUnknowns count l.factors) atoms.now }
{
    for form in atoms {
        if !form.is_over(count) {
            return false;
        }
    }
    true
}

impl Formula {
    /// The formula with these atoms, numbered from 0, and this tree. None exactly where the tree has an atom
    /// that isn't there. It takes no memory.
    pub fn new(atoms: List<Lin>, root: Node) -> Option<Formula>
        ensures { SomeIff result (atoms_below (length atoms) root ≡ true) (record { atoms = atoms; root = root }) }
    {
        if has_atoms_below(&root, atoms.len()) {
            Some(Formula { atoms, root })
        } else {
            None
        }
    }

    /// Whether each unknown of the atoms is below this number.
    pub fn is_over(&self, count: usize) -> bool
        ensures { IsTrue result ↔ IsOver count self.now }
    {
        are_over(self.atoms(), count)
    }

    /// The formula with these atoms and this tree, of which the caller knows that it has no others.
    pub fn of_parts(atoms: List<Lin>, root: Node) -> Formula
        requires { atoms_below (length atoms) root ≡ true }
        ensures { result ≡ record { atoms = atoms; root = root } }
    {
        Formula { atoms, root }
    }

    /// The forms of the atoms, by number.
    pub fn atoms(&self) -> &[Lin]
        ensures { result.now ≡ self.now.atoms }
    {
        self.atoms.as_slice()
    }

    /// The tree.
    pub fn root(&self) -> &Node
        ensures value { result.now ≡ self.now.root }
        ensures below { atoms_below (length self.now.atoms) self.now.root ≡ true }
    {
        &self.root
    }
}

/// Whether each of some trees is true where the unknowns have these values.
#[cycle(evaluate)]
fn all_true(parts: &[Node], atoms: &[Lin], values: &[i64]) -> bool
    requires { CanEvaluate atoms.now values.now }
    ensures { result ≡ list_all (truth (atom_at atoms.now (values_at values.now))) parts.now }
{
    for part in parts {
        if !node_true(part, atoms, values) {
            return false;
        }
    }
    true
}

/// Whether some tree of these is true there.
#[cycle(evaluate)]
fn any_true(parts: &[Node], atoms: &[Lin], values: &[i64]) -> bool
    requires { CanEvaluate atoms.now values.now }
    ensures { result ≡ list_any (truth (atom_at atoms.now (values_at values.now))) parts.now }
{
    for part in parts {
        if node_true(part, atoms, values) {
            return true;
        }
    }
    false
}

/// Whether a tree is true there.
#[cycle(evaluate)]
fn node_true(node: &Node, atoms: &[Lin], values: &[i64]) -> bool
    requires { CanEvaluate atoms.now values.now }
    ensures { result ≡ truth (atom_at atoms.now (values_at values.now)) node.now }
{
    match node {
        Node::At(atom) => atom_true(atoms, *atom as usize, values),
        Node::Not(inner) => !node_true(inner.get(), atoms, values),
        Node::And(parts) => all_true(parts.as_slice(), atoms, values),
        Node::Or(parts) => any_true(parts.as_slice(), atoms, values),
    }
}

/// Whether an atom's form is at most 0.
fn atom_true(atoms: &[Lin], atom: usize, values: &[i64]) -> bool
    requires { CanEvaluate atoms.now values.now }
    ensures { result ≡ atom_at atoms.now (values_at values.now) atom }
{
    match atoms.get(atom) {
        Some(form) => form.value(values) <= 0,
        None => false,
    }
}

/// Whether the formula is true where each unknown has its value.
pub fn evaluate(formula: &Formula, values: &[i64]) -> bool
    requires over { IsOver (length values.now) formula.now }
    requires small { All IsSmall values.now }
    ensures { result ≡ truth_at formula.now (values_at values.now) }
{
    node_true(formula.root(), formula.atoms(), values)
}
