// Settling a formula: its atoms made canonical, each once, and numbered by their first occurrence.

ghost use Rattle.std.specs.Prelude.{◌≡◌, ◌≤◌, ◌<◌, IfOk, OnOk, ℕ, ℤ, pos, int_le, [], true, length, map, nat_le, unsigned_abs, All};
ghost use Rattle.std.specs.Prelude.{if◌then◌else◌};
ghost use Rattle.std.specs.List.{IsDistinct, list_all, flat_map};
ghost use Rattle.ft_linear.specs.meaning.Form.{values_at};
ghost use Rattle.ft_linear.specs.meaning.Formula.{truth_at};
ghost use Rattle.ft_settle.specs.meaning.Raw.{is_moderate, moderate_most, raw_truth};
ghost use Rattle.ft_settle.specs.meaning.Canonical.{IsCanonical, canonical};
ghost use Rattle.ft_settle.specs.meaning.Settled.{AreFirstOccurrences, atoms_in, forms_of, placed, placed_form, same_form};
ghost use Rattle.ft_settle.specs.meaning.Settled.{settled, with_forms};
ghost use Rattle.ft_settle.specs.meaning.Raw.{all_begin_well, begins_well};

use crate::atoms::Atoms;
use crate::canonical::{canonical, is_positive};
use crate::raw::Raw;
use ft_base::{Boxed, List, NoMemory};
use ft_linear::{Formula, Lin, Node, form_laws};
use std::alloc::Global;

/// Adds the canonical atom of a form. One without unknowns has none.
fn add_atom(alloc: Global, form: &Lin, forms: &mut Atoms) -> Result<(), NoMemory>
    requires { nat_le (unsigned_abs form.now.constant) moderate_most ≡ true }
    ensures forms { OnOk result (forms.new ≡ with_forms forms.old (atoms_in form.now form.now.factors)) }
    ensures begins { OnOk result (begins_well form.now.factors ≡ true) }
{
    if form.factors().is_empty() {
        return Ok(());
    }
    forms.insert(canonical(alloc, form)?)
}

/// Adds the canonical atoms of some formulas.
#[cycle(collect)]
fn collect_all(alloc: Global, parts: &[Raw], forms: &mut Atoms) -> Result<(), NoMemory>
    requires { list_all is_moderate parts.now ≡ true }
    ensures forms { OnOk result (forms.new ≡ with_forms forms.old (flat_map forms_of parts.now)) }
    ensures begins { OnOk result (list_all all_begin_well parts.now ≡ true) }
{
    for part in parts {
        collect(alloc, part, forms)?;
    }
    Ok(())
}

/// Adds the canonical atoms of a formula.
#[cycle(collect)]
fn collect(alloc: Global, raw: &Raw, forms: &mut Atoms) -> Result<(), NoMemory>
    requires { is_moderate raw.now ≡ true }
    ensures forms { OnOk result (forms.new ≡ with_forms forms.old (forms_of raw.now)) }
    ensures begins { OnOk result (all_begin_well raw.now ≡ true) }
{
    match raw {
        Raw::Le(form) => add_atom(alloc, form, forms),
        Raw::Not(inner) => collect(alloc, inner.get(), forms),
        Raw::And(parts) => collect_all(alloc, parts.as_slice(), forms),
        Raw::Or(parts) => collect_all(alloc, parts.as_slice(), forms),
    }
}

/// The node of an atom. More than 2^32 atoms are refused as want of memory.
fn atom_at(place: usize) -> Result<Node, NoMemory>
    ensures { IfOk result (λ node. node ≡ Node.At place) }
{
    match u32::try_from(place) {
        Ok(number) => Ok(Node::At(number)),
        Err(_) => Err(NoMemory),
    }
}

/// The tree that is true where this one is false.
fn negation(alloc: Global, node: Node) -> Result<Node, NoMemory>
    ensures { IfOk result (λ whole. whole ≡ Node.Not node) }
{
    Ok(Node::Not(Boxed::new(alloc, node)?))
}

/// The tree of a form without unknowns, which is true or false everywhere.
fn without_unknowns(alloc: Global, constant: i64) -> Node
    ensures { result ≡ if int_le constant (pos 0) then Node.And [] else Node.Or [] }
{
    if constant <= 0 {
        Node::And(List::new(alloc))
    } else {
        Node::Or(List::new(alloc))
    }
}

/// The tree of a form's atom, over these canonical atoms.
fn place_form(alloc: Global, form: &Lin, forms: &Atoms) -> Result<Node, NoMemory>
    requires { nat_le (unsigned_abs form.now.constant) moderate_most ≡ true }
    ensures { IfOk result (λ node. node ≡ placed_form forms.now form.now form.now.factors) }
{
    if form.factors().is_empty() {
        return Ok(without_unknowns(alloc, form.constant()));
    }
    let atom = atom_at(forms.place_of(canonical(alloc, form)?))?;
    if is_positive(form.factors()) {
        Ok(atom)
    } else {
        negation(alloc, atom)
    }
}

/// The trees of some formulas over these canonical atoms.
#[cycle(place)]
fn place_all(alloc: Global, parts: &[Raw], forms: &Atoms) -> Result<List<Node>, NoMemory>
    requires { list_all is_moderate parts.now ≡ true }
    ensures { IfOk result (λ nodes. nodes ≡ map (placed forms.now) parts.now) }
{
    let mut nodes = List::new(alloc);
    for part in parts {
        nodes.push(place(alloc, part, forms)?)?;
    }
    Ok(nodes)
}

/// The tree of a formula over these canonical atoms.
#[cycle(place)]
fn place(alloc: Global, raw: &Raw, forms: &Atoms) -> Result<Node, NoMemory>
    requires { is_moderate raw.now ≡ true }
    ensures { IfOk result (λ node. node ≡ placed forms.now raw.now) }
{
    match raw {
        Raw::Le(form) => place_form(alloc, form, forms),
        Raw::Not(inner) => negation(alloc, place(alloc, inner.get(), forms)?),
        Raw::And(parts) => Ok(Node::And(place_all(alloc, parts.as_slice(), forms)?)),
        Raw::Or(parts) => Ok(Node::Or(place_all(alloc, parts.as_slice(), forms)?)),
    }
}

/// Whether the constant of a form is at most 3,000,000,000,000,000 either way.
fn has_moderate_constant(form: &Lin) -> bool
    ensures { result ≡ nat_le (unsigned_abs form.now.constant) moderate_most }
{
    form.constant().unsigned_abs() <= 3_000_000_000_000_000
}

/// Whether each constant of some formulas is moderate.
#[cycle(is_moderate)]
fn all_moderate(parts: &[Raw]) -> bool
    ensures { result ≡ list_all is_moderate parts.now }
{
    for part in parts {
        if !is_moderate(part) {
            return false;
        }
    }
    true
}

/// Whether each constant of the formula is at most 3,000,000,000,000,000 either way, as `settle` asks.
#[cycle(is_moderate)]
pub fn is_moderate(raw: &Raw) -> bool
    ensures { result ≡ is_moderate raw.now }
{
    match raw {
        Raw::Le(form) => has_moderate_constant(form),
        Raw::Not(inner) => is_moderate(inner.get()),
        Raw::And(parts) => all_moderate(parts.as_slice()),
        Raw::Or(parts) => all_moderate(parts.as_slice()),
    }
}

/// The formula with canonical atoms. The factors of each are divided by their greatest common divisor, its constant is
/// rounded up, and its first factor is positive. A form without unknowns becomes an empty And or an empty Or. Equal
/// atoms are one atom, and atoms are numbered from 0 by their first occurrence, read from left to right. The same points
/// satisfy it.
pub fn settle(alloc: Global, raw: &Raw) -> Result<Formula, NoMemory>
    requires { is_moderate raw.now ≡ true }
    ensures value { IfOk result (λ formula. formula ≡ settled raw.now) }
    ensures canonical { IfOk result (λ formula. All IsCanonical formula.atoms) }
    ensures different { IfOk result (λ formula. IsDistinct same_form formula.atoms) }
    ensures numbered { IfOk result (λ formula. AreFirstOccurrences (forms_of raw.now) formula.atoms) }
    ensures same { IfOk result (λ formula. (x : ℕ → ℤ) → truth_at formula x ≡ raw_truth x raw.now) }
{
    form_laws();
    let mut forms = Atoms::new(alloc);
    collect(alloc, raw, &mut forms)?;
    let root = place(alloc, raw, &forms)?;
    let atoms = forms.into_list(alloc)?;
    Ok(Formula::of_parts(atoms, root))
}
