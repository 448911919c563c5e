// One pass up a formula's tree for the values of its nodes, and one pass down for its forced literals.
ghost use Rattle.std.specs.Prelude.{◌≡◌, ◌≤◌, ◌+◌, ℕ, Bool, true, length, drop, take, List, nat_eq, ◌&&◌, ◌++◌, map, count_by, slice_get};
ghost use Rattle.std.specs.Prelude.{option_map, ◌||◌, not, cond, slice_set, ◌-◌, Some};
ghost use Rattle.std.specs.List.{flat_map, list_any};
ghost use Rattle.ft_base.specs.Three.{is_no, is_yes, can_be, three_all, three_any};
ghost use Rattle.ft_linear.specs.meaning.Forced.{forces, value_of, parts_force, same_bool, by_each, by_only, node_view};
ghost use Rattle.ft_linear.specs.judging.Slots.{value_at, slots_of, only_of, IsWritten, StartsWith, Adds, with_more};

use crate::node::Node;
use ft_base::Three;

/// What the pass up leaves at a node: its value, whether exactly one part can still be as an open node needs, and the number of slots of
/// its tree.
#[derive(Clone, Copy, Drop)]
pub struct Slot {
    pub value: Three,
    pub only: bool,
    pub size: usize,
}

impl Slot {
    /// A slot before any pass.
    pub const BLANK: Slot = Slot {
        value: Three::Maybe,
        only: false,
        size: 1,
    };
}

/// Whether an atom is forced true, and whether it is forced false.
#[derive(Clone, Copy, Drop)]
pub struct Signs {
    pub yes: bool,
    pub no: bool,
}

impl Signs {
    /// Neither is forced.
    pub const NONE: Signs = Signs {
        yes: false,
        no: false,
    };
}

/// Where a pass up stands after a tree: the next slot, and the tree's value.
#[derive(Clone, Copy, Drop)]
pub struct Evaluated {
    pub next: usize,
    pub value: Three,
}

/// How many parts have the value No, and how many Yes.
#[derive(Clone, Copy, Drop)]
pub struct PartCounts {
    pub next: usize,
    pub no: usize,
    pub yes: usize,
}

/// The value of an atom.
fn value(values: &[Three], atom: usize) -> Three
    ensures { result ≡ value_at values.now atom }
{
    if atom < values.len() {
        values[atom]
    } else {
        Three::Maybe
    }
}

/// Whether one part is left beside those that are settled.
fn one_left(settled: usize, parts: usize) -> bool
    requires { settled ≤ parts }
    ensures { result ≡ nat_eq (settled + 1) parts }
{
    parts - settled == 1
}

/// Writes the slot of a tree whose parts' slots end before `next`.
fn put(slots: &mut [Slot], at: usize, next: usize, value: Three, only: bool) -> Evaluated
    requires within { at + 1 ≤ length slots.old }
    requires up { at + 1 ≤ next }
    ensures next { result.next ≡ next }
    ensures value { result.value ≡ value }
    ensures slots { slots.new ≡ slice_set slots.old at (record { value = value; only = only; size = next - at }) }
{
    slots[at] = Slot {
        value,
        only,
        size: next - at,
    };
    Evaluated { next, value }
}

/// The slots of some trees, from this place on, and how many of the trees have the value No and how many Yes.
#[cycle(evaluate_up)]
fn evaluate_parts(parts: &[Node], values: &[Three], slots: &mut [Slot], at: usize) -> PartCounts
    requires { at + length (flat_map (slots_of (value_at values.now)) parts.now) ≤ length slots.old }
    ensures written { IsWritten (flat_map (slots_of (value_at values.now)) parts.now) at result.next slots.old slots.new }
    ensures no { result.no ≡ count_by is_no (map (value_of (value_at values.now)) parts.now) }
    ensures yes { result.yes ≡ count_by is_yes (map (value_of (value_at values.now)) parts.now) }
{
    let mut next = at;
    let mut no = 0;
    let mut yes = 0;
    for part in parts {
        let evaluated = evaluate_up(part, values, slots, next);
        next = evaluated.next;
        no += usize::from(evaluated.value.is_no());
        yes += usize::from(evaluated.value.is_yes());
    }
    PartCounts { next, no, yes }
}

/// The slots of a tree, from this place on, and its value.
#[cycle(evaluate_up)]
fn evaluate_up(node: &Node, values: &[Three], slots: &mut [Slot], at: usize) -> Evaluated
    requires { at + length (slots_of (value_at values.now) node.now) ≤ length slots.old }
    ensures written { IsWritten (slots_of (value_at values.now) node.now) at result.next slots.old slots.new }
    ensures value { result.value ≡ value_of (value_at values.now) node.now }
{
    match node {
        Node::At(atom) => {
            let value = value(values, *atom as usize);
            put(slots, at, at + 1, value, false)
        }
        Node::Not(inner) => {
            let evaluated = evaluate_up(inner.get(), values, slots, at + 1);
            put(slots, at, evaluated.next, evaluated.value.not(), false)
        }
        Node::And(parts) => {
            let parts = parts.as_slice();
            let counts = evaluate_parts(parts, values, slots, at + 1);
            put(
                slots,
                at,
                counts.next,
                Three::all_of(counts.no, counts.yes, parts.len()),
                one_left(counts.yes, parts.len()),
            )
        }
        Node::Or(parts) => {
            let parts = parts.as_slice();
            let counts = evaluate_parts(parts, values, slots, at + 1);
            put(
                slots,
                at,
                counts.next,
                Three::any_of(counts.no, counts.yes, parts.len()),
                one_left(counts.no, parts.len()),
            )
        }
    }
}

/// These signs with one more.
fn joined(signs: Signs, sign: bool) -> Signs
    ensures { result ≡ with_more sign (not sign) signs }
{
    Signs {
        yes: signs.yes || sign,
        no: signs.no || !sign,
    }
}

/// Notes that a literal of an atom is forced.
fn mark(signs: &mut [Signs], atom: usize, sign: bool)
    ensures { Adds (λ a s. nat_eq a atom && same_bool sign s) signs.old signs.new }
{
    if atom < signs.len() {
        signs[atom] = joined(signs[atom], sign);
    }
}

/// The slot of a tree.
fn root_slot(slots: &[Slot]) -> Slot
    requires { 1 ≤ length slots.now }
    ensures { slice_get slots.now 0 ≡ Some result }
{
    slots[0]
}

/// The slots after the first so many.
fn slots_after(slots: &[Slot], size: usize) -> &[Slot]
    requires { size ≤ length slots.now }
    ensures { result.now ≡ drop size slots.now }
{
    &slots[size..]
}

/// Whether a part is asked for: all are, or it alone can be as wanted.
fn is_asked(first: bool, second: bool) -> bool
    ensures { result ≡ (first || second) }
{
    first || second
}

/// The literals that a tree forces, where it is asked for.
#[cycle(force_down)]
fn force_if(
    asked: bool,
    node: &Node,
    want: bool,
    values: &[Three],
    slots: &[Slot],
    signs: &mut [Signs],
)
    requires { StartsWith slots.now (slots_of (value_at values.now) node.now) }
    ensures { Adds (λ a s. asked && forces (value_at values.now) node.now want a s) signs.old signs.new }
{
    if asked {
        force_down(node, want, values, slots, signs);
    }
}

/// The literals that some trees force: each of them, or those alone that can be as wanted.
#[cycle(force_down)]
fn force_parts(
    parts: &[Node],
    want: bool,
    each: bool,
    values: &[Three],
    slots: &[Slot],
    signs: &mut [Signs],
)
    requires { StartsWith slots.now (flat_map (slots_of (value_at values.now)) parts.now) }
    ensures { Adds (λ a s. list_any (λ p. (each || can_be want p.0) && p.1 want a s) (map (node_view (value_at values.now)) parts.now))
        signs.old signs.new }
{
    let mut rest = slots;
    for part in parts {
        let first = root_slot(rest);
        force_if(
            is_asked(each, first.value.can_be(want)),
            part,
            want,
            values,
            rest,
            signs,
        );
        rest = slots_after(rest, first.size);
    }
}

/// The literals that a tree forces where it has to be as wanted.
#[cycle(force_down)]
fn force_down(node: &Node, want: bool, values: &[Three], slots: &[Slot], signs: &mut [Signs])
    requires { StartsWith slots.now (slots_of (value_at values.now) node.now) }
    ensures { Adds (forces (value_at values.now) node.now want) signs.old signs.new }
{
    match node {
        Node::At(atom) => mark(signs, *atom as usize, want),
        Node::Not(inner) => force_down(inner.get(), !want, values, slots_after(slots, 1), signs),
        Node::And(parts) => {
            let root = root_slot(slots);
            if is_asked(want, root.only) {
                force_parts(
                    parts.as_slice(),
                    want,
                    want,
                    values,
                    slots_after(slots, 1),
                    signs,
                )
            }
        }
        Node::Or(parts) => {
            let root = root_slot(slots);
            if is_asked(!want, root.only) {
                force_parts(
                    parts.as_slice(),
                    want,
                    !want,
                    values,
                    slots_after(slots, 1),
                    signs,
                )
            }
        }
    }
}

/// The value of a tree; its forced literals are added.
pub fn mark_forced(root: &Node, values: &[Three], slots: &mut [Slot], signs: &mut [Signs]) -> Three
    requires { length (slots_of (value_at values.now) root.now) ≤ length slots.old }
    ensures value { result ≡ value_of (value_at values.now) root.now }
    ensures forced { Adds (forces (value_at values.now) root.now true) signs.old signs.new }
{
    let evaluated = evaluate_up(root, values, slots, 0);
    force_down(root, true, values, slots, signs);
    evaluated.value
}
