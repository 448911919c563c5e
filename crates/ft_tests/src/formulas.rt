ghost use Rattle.std.specs.Prelude.{◌≡◌, ◌≤◌, ◌<◌, length, IfOk};
ghost use Rattle.ft_linear.specs.meaning.Formula.{IsOver};
ghost use Rattle.ft_linear.specs.meaning.Marks.{AreFor, AreJudged};

use ft_base::{Boxed, List, NoMemory, Span, Three};
use ft_linear::{
    Area, Formula, Lin, Line, Marks, Node, Part, SumRoom, contradict, evaluate, judge, tighten,
};
use ft_settle::{Raw, is_moderate, settle};
use std::alloc::Global;
use std::test::Fail;

/// `factor*x + constant <= 0`
fn at_most(alloc: Global, factor: i64, constant: i64) -> Result<Raw, NoMemory> {
    match Lin::new(List::copy_of(alloc, &[(0, factor)])?, constant) {
        Some(form) => Ok(Raw::Le(form)),
        None => Err(NoMemory),
    }
}

/// `factor*x + constant <= 0 and not (x <= 4)`
fn contrary(alloc: Global, factor: i64, constant: i64) -> Result<Raw, NoMemory> {
    let mut parts = List::new(alloc);
    parts.push(at_most(alloc, factor, constant)?)?;
    let other = Boxed::new(alloc, at_most(alloc, 1, -4)?)?;
    parts.push(Raw::Not(other))?;
    Ok(Raw::And(parts))
}

/// The same, settled.
fn settled(alloc: Global, factor: i64, constant: i64) -> Result<Formula, NoMemory> {
    let raw = contrary(alloc, factor, constant)?;
    if is_moderate(&raw) {
        settle(alloc, &raw)
    } else {
        Err(NoMemory)
    }
}

/// The spans of x alone.
fn area_of(alloc: Global, lo: i64, hi: i64) -> Result<Area, NoMemory> {
    let mut spans = List::new(alloc);
    if let Some(span) = Span::new(lo, hi) {
        spans.push(span)?;
    }
    Ok(Area { spans })
}

/// The whole area as a part, for a formula that has an atom.
fn part_of(alloc: Global, formula: &Formula, area: &Area) -> Result<Part, NoMemory>
    ensures decided { IfOk result (λ part. length part.decided ≡ length formula.now.atoms) }
    ensures over { IfOk result (λ part. IsOver (length part.spans) formula.now) }
    ensures some { IfOk result (λ part. 0 < length formula.now.atoms) }
{
    if !formula.is_over(area.spans.len()) || formula.atoms().len() == 0 {
        return Err(NoMemory);
    }
    Part::open(alloc, formula, area)
}

/// Room to judge a part of a formula.
fn marks_of(alloc: Global, formula: &Formula, part: &Part) -> Result<Marks, NoMemory>
    requires { length part.now.decided ≡ length formula.now.atoms }
    ensures { IfOk result (λ marks. AreFor formula.now part.now marks) }
{
    Marks::open(alloc, formula)
}

/// So many times the literals of the first atom, of which none is left out.
fn lines_of(alloc: Global, yes: u64, no: u64) -> Result<List<Line>, NoMemory> {
    let mut lines = List::new(alloc);
    for (value, times) in [(true, yes), (false, no)] {
        if times > 0 {
            lines.push(Line::Atom {
                number: 0,
                value,
                times,
            })?;
        }
    }
    Ok(lines)
}

/// Whether the lines contradict, and the span that they leave x.
type Sums = (bool, Option<(i64, i64)>);

/// The truth, and the value of the first atom and what it is forced to.
type Judged = (Three, Three, Option<bool>);

fn ends(span: Option<Span>) -> Option<(i64, i64)> {
    match span {
        Some(span) => Some((span.lo(), span.hi())),
        None => None,
    }
}

fn sums(formula: &Formula, part: &Part, marks: &Marks, lines: &[Line], room: &mut SumRoom) -> Sums
    requires opened { AreFor formula.now part.now marks.now }
    requires judged { AreJudged formula.now part.now marks.now }
    requires over { IsOver (length part.now.spans) formula.now }
    requires room { length part.now.spans ≤ room.old }
{
    let contradicted = contradict(formula, part, marks, lines, room);
    let span = tighten(formula, part, marks, 0, lines, room);
    (contradicted, ends(span))
}

fn judged(
    formula: &Formula,
    part: &Part,
    marks: &mut Marks,
    lines: &[Line],
    room: &mut SumRoom,
) -> (Judged, Sums)
    requires opened { AreFor formula.now part.now marks.old }
    requires over { IsOver (length part.now.spans) formula.now }
    requires some { 0 < length formula.now.atoms }
    requires room { length part.now.spans ≤ room.old }
{
    let truth = judge(formula, part, marks);
    let found = (truth, marks.value(0), marks.forced(0));
    (found, sums(formula, part, marks, lines, room))
}

fn judged_over(
    alloc: Global,
    formula: &Formula,
    area: &Area,
    lines: &[Line],
) -> Result<(Judged, Sums), NoMemory> {
    let part = part_of(alloc, formula, area)?;
    let mut marks = marks_of(alloc, formula, &part)?;
    let mut room = SumRoom::open(alloc, part.area().spans.len())?;
    Ok(judged(formula, &part, &mut marks, lines, &mut room))
}

/// What is told of a formula where x lies between two numbers, with so many times the literals of its first atom.
fn told(
    alloc: Global,
    formula: (i64, i64),
    span: (i64, i64),
    times: (u64, u64),
) -> Result<(Judged, Sums), NoMemory> {
    let formula = settled(alloc, formula.0, formula.1)?;
    let area = area_of(alloc, span.0, span.1)?;
    let lines = lines_of(alloc, times.0, times.1)?;
    judged_over(alloc, &formula, &area, lines.as_slice())
}

const NO: (Three, Three, Option<bool>) = (Three::No, Three::Maybe, Some(true));

type Row = ((i64, i64), (i64, i64), (u64, u64), Judged, Sums);

// The factor and the constant of the formula's first form, the span of x, and how often each literal of the first atom is taken.
const JUDGED: [Row; 9] = [
    // x <= 4 and not (x <= 4), whose one atom is forced both ways
    ((1, -4), (0, 9), (1, 1), NO, (true, None)),
    ((1, -4), (0, 9), (1, 0), NO, (false, Some((0, 4)))),
    ((1, -4), (0, 9), (0, 1), NO, (false, Some((5, 9)))),
    ((1, -4), (0, 9), (2, 1), NO, (false, Some((0, 3)))),
    ((1, -4), (0, 9), (0, 0), NO, (false, None)),
    // the same, with 2*x <= 9 as the first
    ((2, -9), (0, 9), (1, 1), NO, (true, None)),
    // x <= 5 and not (x <= 4)
    (
        (1, -5),
        (0, 9),
        (1, 0),
        (Three::Maybe, Three::Maybe, Some(true)),
        (false, Some((0, 5))),
    ),
    (
        (1, -5),
        (5, 5),
        (1, 0),
        (Three::Yes, Three::Yes, Some(true)),
        (false, None),
    ),
    (
        (1, -5),
        (0, 4),
        (1, 0),
        (Three::No, Three::Yes, Some(true)),
        (false, None),
    ),
];

#[test]
fn judges_a_formula(rt: HostRuntime) -> Result<(), Fail> {
    for (formula, span, times, truths, sums) in JUDGED {
        let (found, added) = told(rt.alloc(), formula, span, times)?;
        assert_eq!(rt; found, truths);
        assert_eq!(rt; added, sums);
    }
    Ok(())
}

/// Whether the root is the first atom, the number of atoms, and the first factor and the constant of the first.
fn shape(formula: &Formula) -> (bool, usize, Option<i64>, Option<i64>) {
    let plain = matches!(formula.root(), Node::At(0));
    match formula.atoms() {
        [first, ..] => (
            plain,
            formula.atoms().len(),
            first.factors().first().map(|factor| factor.1),
            Some(first.constant()),
        ),
        [] => (plain, 0, None, None),
    }
}

#[test]
fn equal_atoms_are_one(rt: HostRuntime) -> Result<(), Fail> {
    for (factor, constant, atoms, least) in [
        (1, -4, 1, -4),
        (2, -9, 1, -4),
        (-2, 11, 2, -5),
        (2, -11, 2, -5),
    ] {
        let formula = settled(rt.alloc(), factor, constant)?;
        assert_eq!(rt; shape(&formula), (false, atoms, Some(1), Some(least)));
    }
    Ok(())
}

/// Whether a formula is true where x has this value.
fn truth_at(formula: &Formula, x: i64) -> Option<bool> {
    if x.unsigned_abs() > 4_000_000_000_000_000 || !formula.is_over(1) {
        return None;
    }
    Some(evaluate(formula, &[x]))
}

#[test]
fn evaluates_at_points(rt: HostRuntime) -> Result<(), Fail> {
    for (constant, x, wanted) in [
        (-4, 4, false),
        (-4, 5, false),
        (-5, 4, false),
        (-5, 5, true),
        (-5, 6, false),
    ] {
        let formula = settled(rt.alloc(), 1, constant)?;
        assert_eq!(rt; truth_at(&formula, x), Some(wanted));
    }
    Ok(())
}
