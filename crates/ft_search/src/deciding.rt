// Which open atom to decide: one of the first required choice that is still undecided. Nothing that is proved rests on which one it
// is, but a case on an atom that doesn't matter splits a part into two that are as open as before.

ghost use Rattle.std.specs.Prelude.{◌≤◌, length};

use ft_base::Three;
use ft_linear::{Marks, Node};

/// What is known of one of the first so many atoms, where forced literals count as decided.
fn atom_value(marks: &Marks, count: usize, atom: u32) -> Three
    requires values { count ≤ length marks.now.values }
    requires signs { count ≤ length marks.now.signs }
{
    if atom as usize >= count {
        return Three::Maybe;
    }
    match marks.forced(atom) {
        Some(true) => Three::Yes,
        Some(false) => Three::No,
        None => marks.value(atom),
    }
}

/// What is known of "each part is true".
#[cycle(value_of)]
fn value_of_all(parts: &[Node], marks: &Marks, count: usize) -> Three
    requires values { count ≤ length marks.now.values }
    requires signs { count ≤ length marks.now.signs }
{
    let mut value = Three::Yes;
    for part in parts {
        match value_of(part, marks, count) {
            Three::No => return Three::No,
            Three::Maybe => value = Three::Maybe,
            Three::Yes => {}
        }
    }
    value
}

/// What is known of "some part is true".
#[cycle(value_of)]
fn value_of_any(parts: &[Node], marks: &Marks, count: usize) -> Three
    requires values { count ≤ length marks.now.values }
    requires signs { count ≤ length marks.now.signs }
{
    let mut value = Three::No;
    for part in parts {
        match value_of(part, marks, count) {
            Three::No => {}
            Three::Maybe => value = Three::Maybe,
            Three::Yes => return Three::Yes,
        }
    }
    value
}

/// What is known of a tree.
#[cycle(value_of)]
fn value_of(node: &Node, marks: &Marks, count: usize) -> Three
    requires values { count ≤ length marks.now.values }
    requires signs { count ≤ length marks.now.signs }
{
    match node {
        Node::At(atom) => atom_value(marks, count, *atom),
        Node::Not(inner) => value_of(inner.get(), marks, count).not(),
        Node::And(parts) => value_of_all(parts.as_slice(), marks, count),
        Node::Or(parts) => value_of_any(parts.as_slice(), marks, count),
    }
}

/// The first open atom of the first of these trees that is undecided.
#[cycle(open_in)]
fn open_in_some(parts: &[Node], marks: &Marks, count: usize) -> Option<u32>
    requires values { count ≤ length marks.now.values }
    requires signs { count ≤ length marks.now.signs }
{
    for part in parts {
        if value_of(part, marks, count) == Three::Maybe {
            return open_in(part, marks, count);
        }
    }
    None
}

/// The first open atom of a tree that is undecided.
#[cycle(open_in)]
fn open_in(node: &Node, marks: &Marks, count: usize) -> Option<u32>
    requires values { count ≤ length marks.now.values }
    requires signs { count ≤ length marks.now.signs }
{
    match node {
        Node::At(atom) => Some(*atom),
        Node::Not(inner) => open_in(inner.get(), marks, count),
        Node::And(parts) => open_in_some(parts.as_slice(), marks, count),
        Node::Or(parts) => open_in_some(parts.as_slice(), marks, count),
    }
}

/// How many of some trees, one of which has to be as wanted, are undecided.
#[derive(Clone, Copy, Drop)]
enum Undecided {
    /// None counts, since one of the trees is as wanted, or none can be.
    None,
    /// One.
    One,
    /// Two or more.
    Several,
}

/// How many of some trees are undecided, where one has to be as wanted.
fn count_undecided(parts: &[Node], want: bool, marks: &Marks, count: usize) -> Undecided
    requires values { count ≤ length marks.now.values }
    requires signs { count ≤ length marks.now.signs }
{
    let mut found = Undecided::None;
    for part in parts {
        let value = value_of(part, marks, count);
        if value != Three::Maybe {
            if value.can_be(want) {
                return Undecided::None;
            }
            continue;
        }
        found = match found {
            Undecided::None => Undecided::One,
            _ => Undecided::Several,
        };
    }
    found
}

/// An atom of trees one of which has to be as wanted: of the first that is undecided. Where it is the only one, it has to be so.
#[cycle(wanted)]
fn wanted_of_one(
    parts: &[Node],
    want: bool,
    several: bool,
    marks: &Marks,
    count: usize,
) -> Option<u32>
    requires values { count ≤ length marks.now.values }
    requires signs { count ≤ length marks.now.signs }
{
    for part in parts {
        if value_of(part, marks, count) == Three::Maybe {
            return if several {
                open_in(part, marks, count)
            } else {
                wanted(part, want, marks, count)
            };
        }
    }
    None
}

/// An atom of trees each of which has to be as wanted: of the first that has one.
#[cycle(wanted)]
fn wanted_of_each(parts: &[Node], want: bool, marks: &Marks, count: usize) -> Option<u32>
    requires values { count ≤ length marks.now.values }
    requires signs { count ≤ length marks.now.signs }
{
    for part in parts {
        let atom = wanted(part, want, marks, count);
        if atom.is_some() {
            return atom;
        }
    }
    None
}

/// The same where one of them has to be as wanted.
#[cycle(wanted)]
fn wanted_of_some(parts: &[Node], want: bool, marks: &Marks, count: usize) -> Option<u32>
    requires values { count ≤ length marks.now.values }
    requires signs { count ≤ length marks.now.signs }
{
    match count_undecided(parts, want, marks, count) {
        Undecided::None => None,
        Undecided::One => wanted_of_one(parts, want, false, marks, count),
        Undecided::Several => wanted_of_one(parts, want, true, marks, count),
    }
}

/// An atom of a tree that has to be as wanted: the first open one of the first choice in it that is undecided.
#[cycle(wanted)]
pub(crate) fn wanted(node: &Node, want: bool, marks: &Marks, count: usize) -> Option<u32>
    requires values { count ≤ length marks.now.values }
    requires signs { count ≤ length marks.now.signs }
{
    match node {
        Node::At(atom) => {
            if atom_value(marks, count, *atom) == Three::Maybe {
                Some(*atom)
            } else {
                None
            }
        }
        Node::Not(inner) => wanted(inner.get(), !want, marks, count),
        Node::And(parts) => {
            if want {
                wanted_of_each(parts.as_slice(), want, marks, count)
            } else {
                wanted_of_some(parts.as_slice(), want, marks, count)
            }
        }
        Node::Or(parts) => {
            if want {
                wanted_of_some(parts.as_slice(), want, marks, count)
            } else {
                wanted_of_each(parts.as_slice(), want, marks, count)
            }
        }
    }
}
