use ft_base::{Boxed, List, NoMemory, Span};
use ft_cert::{Cert, CertNode};
use ft_check::{CertFault, check};
use ft_linear::{Area, Formula, Lin, Line};
use ft_settle::{Raw, is_moderate, settle};
use std::alloc::Global;
use std::test::Fail;

/// A truth, the factors of x and y, and a constant: whether the form is at most 0 is to be so.
type Literal = (bool, i64, i64, i64);

fn form_of(alloc: Global, x: i64, y: i64, constant: i64) -> Result<Lin, NoMemory> {
    let mut factors = List::new(alloc);
    for (unknown, factor) in [(0, x), (1, y)] {
        if factor != 0 {
            factors.push((unknown, factor))?;
        }
    }
    Lin::new(factors, constant).ok_or(NoMemory)
}

fn literal_of(alloc: Global, literal: Literal) -> Result<Raw, NoMemory> {
    let (value, x, y, constant) = literal;
    let atom = Raw::Le(form_of(alloc, x, y, constant)?);
    if value {
        Ok(atom)
    } else {
        Ok(Raw::Not(Boxed::new(alloc, atom)?))
    }
}

fn raw_of(alloc: Global, first: Literal, second: Option<Literal>) -> Result<Raw, NoMemory> {
    let first = literal_of(alloc, first)?;
    let Some(second) = second else {
        return Ok(first);
    };
    let mut parts = List::new(alloc);
    parts.push(first)?;
    parts.push(literal_of(alloc, second)?)?;
    Ok(Raw::And(parts))
}

/// A formula, settled.
fn settled(alloc: Global, raw: &Raw) -> Result<Formula, NoMemory> {
    if is_moderate(raw) {
        settle(alloc, raw)
    } else {
        Err(NoMemory)
    }
}

/// The literals together.
pub(crate) fn formula_of(
    alloc: Global,
    first: Literal,
    second: Option<Literal>,
) -> Result<Formula, NoMemory> {
    let raw = raw_of(alloc, first, second)?;
    settled(alloc, &raw)
}

/// So many unknowns from 0 to a number.
pub(crate) fn area_of(alloc: Global, unknowns: u32, most: i64) -> Result<Area, NoMemory> {
    let mut spans = List::new(alloc);
    if let Some(span) = Span::new(0, most) {
        for _unknown in 0..unknowns {
            spans.push(span)?;
        }
    }
    Ok(Area { spans })
}

/// A line of one digit, its sign and another digit, as it stands in a certificate's text.
fn line_of(word: &[u8]) -> Option<Line> {
    let [times, sign, number] = word else {
        return None;
    };
    if *times < 48 || *number < 48 {
        return None;
    }
    let times = u64::from(*times) - 48;
    let number = u32::from(*number) - 48;
    match *sign {
        b'+' => Some(Line::Atom {
            number,
            value: true,
            times,
        }),
        b'-' => Some(Line::Atom {
            number,
            value: false,
            times,
        }),
        b'<' => Some(Line::Upper {
            unknown: number,
            times,
        }),
        b'>' => Some(Line::Lower {
            unknown: number,
            times,
        }),
        _ => None,
    }
}

fn lines_of(alloc: Global, text: &str) -> Result<List<Line>, NoMemory> {
    let mut lines = List::new(alloc);
    for word in text.split_whitespace() {
        if let Some(line) = line_of(word.as_bytes()) {
            lines.push(line)?;
        }
    }
    Ok(lines)
}

/// A node without parts, as it stands in a certificate's text.
fn leaf_of(alloc: Global, text: &str) -> Result<CertNode, NoMemory> {
    match text.as_bytes().first() {
        Some(b'F') => Ok(CertNode::F),
        Some(b'L') => Ok(CertNode::L),
        _ => Ok(CertNode::S {
            lines: lines_of(alloc, text)?,
        }),
    }
}

/// The first node that is refused, if one is.
pub(crate) fn refused(
    alloc: Global,
    formula: &Formula,
    area: &Area,
    nodes: List<CertNode>,
) -> Result<Option<u32>, NoMemory> {
    let Some(cert) = Cert::of_nodes(alloc, nodes)? else {
        return Err(NoMemory);
    };
    if !formula.is_over(area.spans.len()) || cert.nodes().len() > 1_000_000 {
        return Err(NoMemory);
    }
    match check(alloc, formula, area, &cert) {
        Ok(()) => Ok(None),
        Err(CertFault::Node { node }) => Ok(Some(node)),
        Err(CertFault::NoMemory) => Err(NoMemory),
    }
}

/// The same of a certificate of one leaf.
fn leaf_refused(
    alloc: Global,
    formula: &Formula,
    area: &Area,
    text: &str,
) -> Result<Option<u32>, NoMemory> {
    let mut nodes = List::new(alloc);
    nodes.push(leaf_of(alloc, text)?)?;
    refused(alloc, formula, area, nodes)
}

type Row = (
    (Literal, Option<Literal>),
    (u32, i64),
    &'static str,
    Option<u32>,
);

// The literals of the formula, the unknowns and their greatest number, the leaf, and the node that is refused.
const LEAVES: [Row; 17] = [
    // x <= 4 and not (x <= 4), whose one atom is forced both ways
    (
        ((true, 1, 0, -4), Some((false, 1, 0, -4))),
        (1, 9),
        "F",
        None,
    ),
    (
        ((true, 1, 0, -4), Some((false, 1, 0, -4))),
        (1, 9),
        "S 1+0 1-0",
        None,
    ),
    // the bounds and the difference lines are both its lines: x <= 4 and x >= 5
    (
        ((true, 1, 0, -4), Some((false, 1, 0, -4))),
        (1, 9),
        "L",
        None,
    ),
    (((true, 1, 0, -4), None), (1, 9), "F", Some(1)),
    (((true, 1, 0, -4), None), (1, 9), "L", Some(1)),
    (((true, 1, 0, -4), None), (1, 9), "S 1+0 1>0", Some(1)),
    // x - y <= -1 and y - x <= -1, of which the second is that x - y <= 0 is false
    (
        ((true, 1, -1, 1), Some((true, -1, 1, 1))),
        (2, 9),
        "L",
        None,
    ),
    (
        ((true, 1, -1, 1), Some((true, -1, 1, 1))),
        (2, 9),
        "F",
        Some(1),
    ),
    (
        ((true, 1, -1, 1), Some((true, -1, 1, 1))),
        (2, 9),
        "S 1+0 1-1",
        None,
    ),
    (
        ((true, 1, -1, 1), Some((true, -1, 1, 1))),
        (2, 9),
        "S 1+0 1+1",
        Some(1),
    ),
    (
        ((true, 1, -1, 1), Some((true, -1, 1, 1))),
        (2, 9),
        "S 2+0 1-1",
        Some(1),
    ),
    // 2*x - 3 <= 0 and not (x - 1 <= 0)
    (
        ((true, 2, 0, -3), Some((false, 1, 0, -1))),
        (1, 9),
        "F",
        None,
    ),
    // x - y <= -1 where both are 0
    (((true, 1, -1, 1), None), (2, 0), "S 1+0 1>0 1<1", None),
    (((true, 1, -1, 1), None), (2, 0), "S 1+0 1<0 1<1", Some(1)),
    (((true, 1, -1, 1), None), (2, 0), "S 1+0 1>0", Some(1)),
    (((true, 1, -1, 1), None), (2, 0), "S 1-0 1<0 1>1", Some(1)),
    (((true, 1, -1, 1), None), (2, 0), "S 1+0 1>0 1<2", Some(1)),
];

#[test]
fn checks_leaves(rt: HostRuntime) -> Result<(), Fail> {
    for ((first, second), (unknowns, most), text, wanted) in LEAVES {
        let formula = formula_of(rt.alloc(), first, second)?;
        let area = area_of(rt.alloc(), unknowns, most)?;
        let found = leaf_refused(rt.alloc(), &formula, &area, text)?;
        assert_eq!(rt; found, wanted, "{text}");
    }
    Ok(())
}

/// The number of atoms, and the first factor and the constant of the first.
fn first_atom(formula: &Formula) -> (usize, Option<i64>, Option<i64>) {
    match formula.atoms() {
        [first, ..] => (
            formula.atoms().len(),
            first.factors().first().map(|factor| factor.1),
            Some(first.constant()),
        ),
        [] => (0, None, None),
    }
}

// 2*x - 3 <= 0 is the same atom as x - 1 <= 0.
#[test]
fn a_whole_bound_is_one_atom(rt: HostRuntime) -> Result<(), Fail> {
    let formula = formula_of(rt.alloc(), (true, 2, 0, -3), Some((false, 1, 0, -1)))?;
    assert_eq!(rt; first_atom(&formula), (1, Some(1), Some(-1)));
    Ok(())
}

/// So many cases on the first atom, one in the true part of the other, and a leaf for each of their parts.
fn cases(alloc: Global, count: u32) -> Result<List<CertNode>, NoMemory> {
    let mut nodes = List::new(alloc);
    for _case in 0..count {
        nodes.push(CertNode::C { atom: 0 })?;
    }
    for _leaf in 0..=count {
        nodes.push(CertNode::F)?;
    }
    Ok(nodes)
}

/// So many cuts of the first unknown, each of which leaves the first part one number less.
pub(crate) fn only_cuts(alloc: Global, count: u32) -> Result<List<CertNode>, NoMemory> {
    let mut nodes = List::new(alloc);
    for cut in 0..count {
        nodes.push(CertNode::R {
            unknown: 0,
            value: i64::from(count) - 1 - i64::from(cut),
        })?;
    }
    Ok(nodes)
}

/// The same, and a leaf for each of their parts.
pub(crate) fn cuts(alloc: Global, count: u32) -> Result<List<CertNode>, NoMemory> {
    let mut nodes = only_cuts(alloc, count)?;
    for _leaf in 0..=count {
        nodes.push(CertNode::F)?;
    }
    Ok(nodes)
}

// A formula with no atom, whose root is an Or of no part, refuses the first case. One with an atom refuses the second.
#[test]
fn checks_100000_cases(rt: HostRuntime) -> Result<(), Fail> {
    let alloc = rt.alloc();
    let area = area_of(alloc, 1, 9)?;
    let plain = settled(alloc, &Raw::Or(List::new(alloc)))?;
    assert_eq!(rt; first_atom(&plain), (0, None, None));
    assert_eq!(rt;
        refused(alloc, &plain, &area, cases(alloc, 100_000)?)?,
        Some(1)
    );
    let single = formula_of(alloc, (true, 1, 0, -4), None)?;
    assert_eq!(rt;
        refused(alloc, &single, &area, cases(alloc, 100_000)?)?,
        Some(2)
    );
    Ok(())
}

// As many cuts as an unknown has numbers, but for one, and one more.
#[test]
fn checks_50000_cuts(rt: HostRuntime) -> Result<(), Fail> {
    let alloc = rt.alloc();
    let area = area_of(alloc, 1, 50_000)?;
    let contrary = formula_of(alloc, (true, 1, 0, -4), Some((false, 1, 0, -4)))?;
    assert_eq!(rt;
        refused(alloc, &contrary, &area, cuts(alloc, 50_000)?)?,
        None
    );
    assert_eq!(rt;
        refused(alloc, &contrary, &area, cuts(alloc, 50_001)?)?,
        Some(1)
    );
    let single = formula_of(alloc, (true, 1, 0, -4), None)?;
    assert_eq!(rt;
        refused(alloc, &single, &area, cuts(alloc, 50_000)?)?,
        Some(50_001)
    );
    Ok(())
}

/// Whether nodes are one whole tree: as many cases, and as many leaves after them.
fn is_tree(alloc: Global, cases: u32, leaves: u32) -> Result<bool, NoMemory> {
    let mut nodes = List::new(alloc);
    for _case in 0..cases {
        nodes.push(CertNode::C { atom: 0 })?;
    }
    for _leaf in 0..leaves {
        nodes.push(CertNode::L)?;
    }
    match Cert::of_nodes(alloc, nodes)? {
        Some(cert) => Ok(cert.nodes().len() == cases as usize + leaves as usize),
        None => Ok(false),
    }
}

#[test]
fn tells_trees(rt: HostRuntime) -> Result<(), Fail> {
    for (cases, leaves, wanted) in [
        (0, 0, false),
        (0, 1, true),
        (0, 2, false),
        (1, 1, false),
        (1, 2, true),
        (1, 3, false),
        (100_000, 100_000, false),
        (100_000, 100_001, true),
        (100_000, 100_002, false),
    ] {
        assert_eq!(rt; is_tree(rt.alloc(), cases, leaves)?, wanted);
    }
    Ok(())
}
