//! Searches of formulas: what they find, and with how many splits.
ghost use Rattle.std.specs.Prelude.{◌≤◌, ◌<◌, length, IfOk};
ghost use Rattle.ft_linear.specs.meaning.Formula.{IsOver};
ghost use Rattle.ft_search.specs.searching.Space.{IsFreshFor};

use ft_base::{List, NoMemory, Span};
use ft_cert::CertNode;
use ft_linear::{Area, Formula, Lin, Node};
use ft_search::{Found, Room, search};
use ft_settle::{Raw, is_moderate, settle};
use std::alloc::Global;
use std::test::Fail;

/// A literal: the number of its clause, two unknowns with their factors, and a constant. The sum is at most 0.
type Literal = (u32, (u32, i64), (u32, i64), i64);

/// The factors that aren't 0.
fn factors(alloc: Global, literal: Literal) -> Result<List<(u32, i64)>, NoMemory> {
    let mut factors = List::new(alloc);
    if literal.1.1 != 0 {
        factors.push(literal.1)?;
    }
    if literal.2.1 != 0 {
        factors.push(literal.2)?;
    }
    Ok(factors)
}

fn at_most(alloc: Global, literal: Literal) -> Result<Raw, NoMemory> {
    match Lin::new(factors(alloc, literal)?, literal.3) {
        Some(form) => Ok(Raw::Le(form)),
        None => Err(NoMemory),
    }
}

/// Clauses joined by And, each of literals joined by Or.
fn clauses(alloc: Global, literals: &[Literal]) -> Result<Raw, NoMemory> {
    let mut all = List::new(alloc);
    let mut clause = List::new(alloc);
    let mut number = 0;
    for literal in literals {
        if literal.0 != number {
            all.push(Raw::Or(clause))?;
            clause = List::new(alloc);
            number = literal.0;
        }
        clause.push(at_most(alloc, *literal)?)?;
    }
    all.push(Raw::Or(clause))?;
    Ok(Raw::And(all))
}

fn settled(alloc: Global, raw: &Raw) -> Result<Formula, NoMemory> {
    if is_moderate(raw) {
        settle(alloc, raw)
    } else {
        Err(NoMemory)
    }
}

/// Each unknown from 0 to its greatest value.
fn area_of(alloc: Global, highs: &[i64]) -> Result<Area, NoMemory> {
    let mut spans = List::new(alloc);
    for high in highs {
        if let Some(span) = Span::new(0, *high) {
            spans.push(span)?;
        }
    }
    Ok(Area { spans })
}

/// What a search found: a certificate or the tree of a spent search with so many splits, or the first two values of a point.
#[derive(Clone, Copy, Debug, PartialEq, Eq, Drop)]
enum Answer {
    Closed { splits: usize },
    Point { x: i64, y: i64 },
    Spent { splits: usize },
}

fn is_split(node: &CertNode) -> bool {
    matches!(node, CertNode::R { .. } | CertNode::C { .. })
}

/// Room for a search that is given so many splits.
fn room_of(
    alloc: Global,
    formula: &Formula,
    area: &Area,
    splits: u32,
    strict: bool,
) -> Result<Room, NoMemory>
    requires { splits ≤ 200000 }
    ensures { IfOk result (IsFreshFor formula.now area.now.spans) }
{
    if strict {
        Room::open_strict(alloc, formula, area, splits)
    } else {
        Room::open(alloc, formula, area, splits)
    }
}

/// The first two values of a point.
fn first_two(point: &[i64]) -> Answer {
    match point {
        [x, y, ..] => Answer::Point { x: *x, y: *y },
        [x] => Answer::Point { x: *x, y: 0 },
        [] => Answer::Point { x: 0, y: 0 },
    }
}

/// What a search of a formula over an area finds.
fn make_answer(
    alloc: Global,
    formula: &Formula,
    area: &Area,
    splits: u32,
    strict: bool,
) -> Result<Answer, NoMemory>
    requires splits { splits ≤ 200000 }
    requires over { IsOver (length area.now.spans) formula.now }
{
    let mut room = room_of(alloc, formula, area, splits, strict)?;
    match search(formula, area, &mut room) {
        Found::Closed => {
            let cert = room.cert(alloc, formula, area)?;
            let nodes = cert.nodes();
            Ok(Answer::Closed {
                splits: nodes.iter().filter(|node| is_split(node)).count(),
            })
        }
        Found::Point => Ok(first_two(room.point(alloc)?.as_slice())),
        Found::Spent => {
            let tree = room.tree(alloc, formula)?;
            let nodes = tree.nodes();
            Ok(Answer::Spent {
                splits: nodes.iter().filter(|node| is_split(node)).count(),
            })
        }
    }
}

/// The same of clauses, where all is fit for a search.
fn found(
    alloc: Global,
    raw: &Raw,
    highs: &[i64],
    splits: u32,
    strict: bool,
) -> Result<Answer, NoMemory> {
    let formula = settled(alloc, raw)?;
    let area = area_of(alloc, highs)?;
    if splits > 200_000 || !formula.is_over(area.spans.len()) {
        return Err(NoMemory);
    }
    make_answer(alloc, &formula, &area, splits, strict)
}

const NONE: (u32, i64) = (0, 0);

// x + y <= 9 and x + y >= 9
const SUM: [Literal; 2] = [(0, (0, 1), (1, 1), -9), (1, (0, -1), (1, -1), 9)];

// (x <= 4 or y <= 4) and x >= 5 and y >= 5
const APART: [Literal; 4] = [
    (0, (0, 1), NONE, -4),
    (0, (1, 1), NONE, -4),
    (1, (0, -1), NONE, 5),
    (2, (1, -1), NONE, 5),
];

// x <= 4 or y <= 4
const EITHER: [Literal; 2] = [(0, (0, 1), NONE, -4), (0, (1, 1), NONE, -4)];

// x <= 3 and (x >= 5 or y <= 4)
const FORCED: [Literal; 3] = [
    (0, (0, 1), NONE, -3),
    (1, (0, -1), NONE, 5),
    (1, (1, 1), NONE, -4),
];

/// What a search of so many splits finds that tries no point before it splits, of two unknowns from 0 to 9.
fn strict(alloc: Global, literals: &[Literal], splits: u32) -> Result<Answer, NoMemory> {
    let raw = clauses(alloc, literals)?;
    found(alloc, &raw, &[9, 9], splits, true)
}

#[test]
fn strict_searches(rt: HostRuntime) -> Result<(), Fail> {
    assert_eq!(rt;
        strict(rt.alloc(), &APART, 0)?,
        Answer::Closed { splits: 0 }
    );
    assert_eq!(rt;
        strict(rt.alloc(), &EITHER, 0)?,
        Answer::Spent { splits: 0 }
    );
    Ok(())
}

#[test]
fn strict_points(rt: HostRuntime) -> Result<(), Fail> {
    let sum = strict(rt.alloc(), &SUM, 10)?;
    assert!(rt;
        matches!(sum, Answer::Point { x, y } if x.saturating_add(y) == 9),
        "{sum:?}"
    );
    let one = strict(rt.alloc(), &EITHER, 1)?;
    assert!(rt;
        matches!(one, Answer::Point { x, y } if x <= 4 || y <= 4),
        "{one:?}"
    );
    let most = strict(rt.alloc(), &EITHER, 200_000)?;
    assert!(rt;
        matches!(most, Answer::Point { x, y } if x <= 4 || y <= 4),
        "{most:?}"
    );
    let forced = strict(rt.alloc(), &FORCED, 0)?;
    assert!(rt;
        matches!(forced, Answer::Point { x, y } if x <= 3 && y <= 4),
        "{forced:?}"
    );
    Ok(())
}

// c <> o; c = 1 where a + b >= 50000, and else 0; o = 1 where s + t >= 200000, and else 0; s = 4a and t = 4b. The unknowns are
// a, b, c, s, t and o.
const SCALED: [Literal; 14] = [
    (0, (2, 1), (5, -1), 1),
    (0, (2, -1), (5, 1), 1),
    (1, (0, 1), (1, 1), -49_999),
    (1, (2, -1), NONE, 1),
    (2, (0, -1), (1, -1), 50_000),
    (2, (2, 1), NONE, 0),
    (3, (3, 1), (4, 1), -199_999),
    (3, (5, -1), NONE, 1),
    (4, (3, -1), (4, -1), 200_000),
    (4, (5, 1), NONE, 0),
    (5, (0, -4), (3, 1), 0),
    (6, (0, 4), (3, -1), 0),
    (7, (1, -4), (4, 1), 0),
    (8, (1, 4), (4, -1), 0),
];

const SCALED_HIGHS: [i64; 6] = [100_000, 100_000, 1, 400_000, 400_000, 1];

#[test]
fn a_scaled_map_is_spent(rt: HostRuntime) -> Result<(), Fail> {
    let raw = clauses(rt.alloc(), &SCALED)?;
    let answer = found(rt.alloc(), &raw, &SCALED_HIGHS, 50, false)?;
    assert_eq!(rt; answer, Answer::Spent { splits: 50 });
    Ok(())
}

/// x1 <= x2, .., each at most the next, and the last at most the first less one.
fn circle(alloc: Global, count: u32) -> Result<Raw, NoMemory>
    requires { 0 < count }
{
    let mut literals = List::new(alloc);
    for unknown in 1..count {
        literals.push((unknown, (unknown - 1, 1), (unknown, -1), 0))?;
    }
    literals.push((count, (0, -1), (count - 1, 1), 1))?;
    clauses(alloc, literals.as_slice())
}

/// 40 branches: x >= 100k and y_k <= 4 for the k-th from 0, where the unknowns are x and each y_k; and for y_0 no value of 0 to 4.
fn branches(alloc: Global) -> Result<Raw, NoMemory> {
    let mut some = List::new(alloc);
    for k in 0..40 {
        let mut parts = List::new(alloc);
        let least = 100 * i64::from(k);
        parts.push(at_most(alloc, (0, (0, -1), NONE, least))?)?;
        parts.push(at_most(alloc, (0, (k + 1, 1), NONE, -4))?)?;
        some.push(Raw::And(parts))?;
    }
    let mut all = List::new(alloc);
    all.push(Raw::Or(some))?;
    all.push(at_most(alloc, (0, (1, -1), NONE, 5))?)?;
    Ok(Raw::And(all))
}

#[test]
fn differences_in_a_circle_need_no_split(rt: HostRuntime) -> Result<(), Fail> {
    let raw = circle(rt.alloc(), 8)?;
    let answer = found(rt.alloc(), &raw, &[1000; 8], 200_000, false)?;
    assert_eq!(rt; answer, Answer::Closed { splits: 0 });
    Ok(())
}

#[test]
fn dead_branches_are_not_split(rt: HostRuntime) -> Result<(), Fail> {
    let raw = branches(rt.alloc())?;
    let answer = found(rt.alloc(), &raw, &[50; 41], 10, false)?;
    assert_eq!(rt; answer, Answer::Closed { splits: 0 });
    Ok(())
}

/// x_0 <= 0, and each unknown is at most the one before: so many tightenings, one after another.
fn falling(alloc: Global, count: u32) -> Result<Formula, NoMemory> {
    let mut atoms = List::new(alloc);
    let mut parts = List::new(alloc);
    for unknown in 0..count {
        let before = if unknown == 0 {
            NONE
        } else {
            (unknown - 1, -1)
        };
        let literal = (0, before, (unknown, 1), 0);
        match Lin::new(factors(alloc, literal)?, 0) {
            Some(form) => atoms.push(form)?,
            None => return Err(NoMemory),
        }
        parts.push(Node::At(unknown))?;
    }
    match Formula::new(atoms, Node::And(parts)) {
        Some(formula) => Ok(formula),
        None => Err(NoMemory),
    }
}

/// What a search finds of so many unknowns that are 0 or 1.
fn fallen(alloc: Global, count: u32) -> Result<Answer, NoMemory> {
    let formula = falling(alloc, count)?;
    let mut highs = List::new(alloc);
    for _unknown in 0..count {
        highs.push(1)?;
    }
    let area = area_of(alloc, highs.as_slice())?;
    if !formula.is_over(area.spans.len()) {
        return Err(NoMemory);
    }
    make_answer(alloc, &formula, &area, 2_000, true)
}

#[test]
fn a_path_may_be_long(rt: HostRuntime) -> Result<(), Fail> {
    assert_eq!(rt; fallen(rt.alloc(), 10_000)?, Answer::Point { x: 0, y: 0 });
    Ok(())
}
