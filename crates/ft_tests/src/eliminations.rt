ghost use Rattle.std.specs.Prelude.{◌≡◌, ◌≤◌, ◌<◌, ◌+◌, length, true, is_some, IfOk, OnOk};
ghost use Rattle.std.specs.List.{All};
ghost use Rattle.ft_linear.specs.meaning.Formula.{IsOver};
ghost use Rattle.ft_linear.specs.meaning.Marks.{AreFor, AreJudged};
ghost use Rattle.ft_linear.specs.meaning.Part.{forced};
ghost use Rattle.ft_linear.specs.meaning.Rules.{line_form};
ghost use Rattle.ft_farkas.specs.meaning.Answers.{AreLiterals, IsLiteral};

use ft_base::{List, NoMemory, Span};
use ft_farkas::{ElimRoom, Eliminated, eliminate};
use ft_linear::{Area, Formula, Lin, Line, Marks, Node, Part, judge};
use std::alloc::Global;
use std::cmp;
use std::test::Fail;

fn is_forced(formula: &Formula, part: &Part, marks: &Marks, atom: u32, value: bool) -> bool
    requires opened { AreFor formula.now part.now marks.now }
    requires judged { AreJudged formula.now part.now marks.now }
    requires atom { atom < length formula.now.atoms }
    ensures { result ≡ forced formula.now part.now atom value }
{
    marks.is_forced(atom as usize, value)
}

/// Adds a literal where it is forced.
fn add_literal(
    formula: &Formula,
    part: &Part,
    marks: &Marks,
    atom: u32,
    value: bool,
    lines: &mut List<Line>,
) -> Result<(), NoMemory>
    requires opened { AreFor formula.now part.now marks.now }
    requires judged { AreJudged formula.now part.now marks.now }
    requires atom { atom < length formula.now.atoms }
    requires few { length lines.old < 256 }
    requires lines { AreLiterals formula.now part.now lines.old }
    ensures lines { OnOk result (AreLiterals formula.now part.now lines.new) }
    ensures count { OnOk result (length lines.new ≤ length lines.old + 1) }
{
    if is_forced(formula, part, marks, atom, value) {
        lines.push(Line::Atom {
            number: atom,
            value,
            times: 1,
        })?;
    }
    Ok(())
}

/// The literals of atoms that are forced to be true, of the first 256.
fn literals(
    alloc: Global,
    formula: &Formula,
    part: &Part,
    marks: &Marks,
) -> Result<List<Line>, NoMemory>
    requires opened { AreFor formula.now part.now marks.now }
    requires judged { AreJudged formula.now part.now marks.now }
    ensures { IfOk result (AreLiterals formula.now part.now) }
{
    let mut lines = List::new(alloc);
    let count = cmp::min(formula.atoms().len(), 256);
    'atoms: for atom in 0..count {
        add_literal(formula, part, marks, atom as u32, true, &mut lines)?;
    }
    Ok(lines)
}

/// The factors of four unknowns, and a constant: at most 0.
type Row = ([i64; 4], i64);

/// Inputs that are four times what is monitored, with a sum that each side asks for.
const SCALED: [Row; 5] = [
    ([1, 1, 0, 0], -49_999),
    ([0, 0, -1, -1], 200_000),
    ([-4, 0, 1, 0], 0),
    ([0, -4, 0, 1], 0),
    ([1, 0, 0, 0], -100_000),
];

/// `2*x - 2*y = 1`
const HALVES: [Row; 2] = [([2, -2, 0, 0], -1), ([-2, 2, 0, 0], 1)];

fn form_of(alloc: Global, row: Row) -> Result<Lin, NoMemory> {
    let mut factors = List::new(alloc);
    let [a, b, c, d] = row.0;
    for (unknown, factor) in [(0, a), (1, b), (2, c), (3, d)] {
        if factor != 0 {
            factors.push((unknown, factor))?;
        }
    }
    Lin::new(factors, row.1).ok_or(NoMemory)
}

/// All rows together.
fn formula_of(alloc: Global, rows: &[Row]) -> Result<Formula, NoMemory> {
    let mut atoms = List::new(alloc);
    let mut nodes = List::new(alloc);
    for row in rows {
        let Ok(number) = u32::try_from(atoms.len()) else {
            return Err(NoMemory);
        };
        nodes.push(Node::At(number))?;
        atoms.push(form_of(alloc, *row)?)?;
    }
    Formula::new(atoms, Node::And(nodes)).ok_or(NoMemory)
}

/// Four unknowns from 0 on.
fn area_of(alloc: Global, most: i64) -> Result<Area, NoMemory> {
    let mut spans = List::new(alloc);
    if let Some(span) = Span::new(0, most) {
        for _unknown in 0..4 {
            spans.push(span)?;
        }
    }
    Ok(Area { spans })
}

fn part_of(alloc: Global, formula: &Formula, area: &Area) -> Result<Part, NoMemory>
    ensures decided { IfOk result (λ part. length part.decided ≡ length formula.now.atoms) }
    ensures over { IfOk result (λ part. IsOver (length part.spans) formula.now) }
    ensures spans { IfOk result (λ part. length part.spans ≡ 4) }
{
    if !formula.is_over(4) || area.spans.len() != 4 {
        return Err(NoMemory);
    }
    Part::open(alloc, formula, area)
}

fn marks_of(alloc: Global, formula: &Formula, part: &Part) -> Result<Marks, NoMemory>
    requires { length part.now.decided ≡ length formula.now.atoms }
    ensures { IfOk result (λ marks. AreFor formula.now part.now marks) }
{
    Marks::open(alloc, formula)
}

/// What is found, with the room in which it stands.
fn found(alloc: Global, rows: &[Row], most: i64) -> Result<(Eliminated, ElimRoom), NoMemory>
    ensures { IfOk result (λ found. found.1.unknowns ≡ 4) }
{
    let formula = formula_of(alloc, rows)?;
    let area = area_of(alloc, most)?;
    let part = part_of(alloc, &formula, &area)?;
    let mut marks = marks_of(alloc, &formula, &part)?;
    let _truth = judge(&formula, &part, &mut marks);
    let lines = literals(alloc, &formula, &part, &marks)?;
    let mut room = ElimRoom::open(alloc, 4)?;
    let answer = eliminate(&formula, &part, &marks, lines.as_slice(), &mut room);
    Ok((answer, room))
}

/// The multiplier of the literal of an atom among lines; 0 where it isn't there.
fn times_in(lines: &[Line], atom: u32) -> u64 {
    for line in lines {
        if let Line::Atom { number, times, .. } = *line {
            if number == atom {
                return times;
            }
        }
    }
    0
}

#[test]
fn a_scaled_map_is_a_sum(rt: HostRuntime) -> Result<(), Fail> {
    let (answer, room) = found(rt.alloc(), &SCALED, 400_000)?;
    assert!(rt; matches!(answer, Eliminated::Sum));
    assert_eq!(rt; room.lines().len(), 4);
    for (atom, times) in [(0, 4), (1, 1), (2, 1), (3, 1), (4, 0)] {
        assert_eq!(rt; times_in(room.lines(), atom), times);
    }
    Ok(())
}

#[test]
fn halves_are_a_rational_point(rt: HostRuntime) -> Result<(), Fail> {
    let (answer, room) = found(rt.alloc(), &HALVES, 9)?;
    assert!(rt; matches!(answer, Eliminated::RationalPoint));
    assert_eq!(rt; room.denominator(), 2);
    assert_eq!(rt; room.numerator(0), 1);
    assert_eq!(rt; room.numerator(1), 0);
    Ok(())
}
