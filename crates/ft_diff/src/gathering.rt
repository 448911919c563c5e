// The difference lines of a part, and whether they have a whole solution within its bounds.

ghost use Rattle.std.specs.Prelude.{◌≡◌, ◌≤◌, ◌<◌, ◌+◌, ◌*◌, ◌++◌, ℕ, ℤ, pos, ◌-ℤ◌, neg_ℤ, [], ◌∷◌, true, false, length, take};
ghost use Rattle.std.specs.Prelude.{unsigned_abs, All, IsTrue, IsFalse, IfOk, IfSome, Some, None, slice_get, if◌then◌else◌};
ghost use Rattle.ft_linear.specs.meaning.Form.{HasUnknowns, IsSmall, values_at};
ghost use Rattle.ft_linear.specs.meaning.Formula.{IsOver as IsFormulaOver, Satisfies};
ghost use Rattle.ft_linear.specs.meaning.Part.{PointOf, forced};
ghost use Rattle.ft_linear.specs.meaning.Marks.{AreFor, AreJudged};
ghost use Rattle.ft_diff.specs.meaning.Differences.{IsOver};
ghost use Rattle.ft_linear.specs.meaning.Difference.{HasNoSolution, Solves, is_one, is_minus_one};
ghost use Rattle.ft_diff.specs.gathering.Lines.{diff, diff_from, form_diff, line_if, lines_at, lines_below};

use crate::diff::Diff;
use crate::room::DiffRoom;
use crate::solving::differences;
use ft_base::NoMemory;
use ft_linear::{Formula, Lin, Marks, Part, literal_factor, part_laws};
use std::alloc::Global;

fn is_one(number: i64) -> bool
    ensures { result ≡ is_one number }
{
    number == 1
}

fn is_minus_one(number: i64) -> bool
    ensures { result ≡ is_minus_one number }
{
    number == -1
}

// Minus the constant of a literal's line.
fn bound(value: bool, constant: i64) -> i64
    requires { IsSmall constant }
    ensures value { result ≡ neg_ℤ (if value then constant else (pos 1 -ℤ constant)) }
    ensures small { unsigned_abs result ≤ 5000000000000000 }
{
    if value { -constant } else { constant - 1 }
}

fn one_line(unknown: u32, factor: i64, bound: i64) -> Option<Diff>
    ensures value { (c : ℤ) → bound ≡ neg_ℤ c → result ≡ diff_from ((unknown, factor) ∷ []) c }
    ensures over { IfSome result (λ d. (n : ℕ) → unknown < n → unsigned_abs bound ≤ 5000000000000000 → IsOver n d) }
{
    if is_one(factor) {
        Some(Diff {
            x: Some(unknown),
            y: None,
            c: bound,
        })
    } else if is_minus_one(factor) {
        Some(Diff {
            x: None,
            y: Some(unknown),
            c: bound,
        })
    } else {
        None
    }
}

fn between(x: u32, y: u32, bound: i64) -> Diff
    ensures { result ≡ diff (Some x) (Some y) bound }
{
    Diff {
        x: Some(x),
        y: Some(y),
        c: bound,
    }
}

fn two_lines(x: u32, x_factor: i64, y: u32, y_factor: i64, bound: i64) -> Option<Diff>
    ensures value { (c : ℤ) → bound ≡ neg_ℤ c → result ≡ diff_from ((x, x_factor) ∷ (y, y_factor) ∷ []) c }
    ensures over { IfSome result (λ d. (n : ℕ) → x < n → y < n → unsigned_abs bound ≤ 5000000000000000 → IsOver n d) }
{
    if is_one(x_factor) {
        if is_minus_one(y_factor) {
            Some(between(x, y, bound))
        } else {
            None
        }
    } else if is_minus_one(x_factor) {
        if is_one(y_factor) {
            Some(between(y, x, bound))
        } else {
            None
        }
    } else {
        None
    }
}

fn of_one(value: bool, factor: (u32, i64), constant: i64) -> Option<Diff>
    requires factor { IsSmall factor.1 }
    requires constant { IsSmall constant }
    ensures value { result ≡ form_diff value (Some (record { factors = factor ∷ []; constant = constant })) }
    ensures over { (n : ℕ) → factor.0 < n → IfSome result (IsOver n) }
{
    one_line(
        factor.0,
        literal_factor(value, factor.1),
        bound(value, constant),
    )
}

fn of_two(value: bool, first: (u32, i64), second: (u32, i64), constant: i64) -> Option<Diff>
    requires first { IsSmall first.1 }
    requires second { IsSmall second.1 }
    requires constant { IsSmall constant }
    ensures value { result ≡ form_diff value (Some (record { factors = first ∷ second ∷ []; constant = constant })) }
    ensures over { (n : ℕ) → first.0 < n → second.0 < n → IfSome result (IsOver n) }
{
    two_lines(
        first.0,
        literal_factor(value, first.1),
        second.0,
        literal_factor(value, second.1),
        bound(value, constant),
    )
}

// The difference that a literal of an atom with this form is.
fn difference(form: &Lin, value: bool) -> Option<Diff>
    ensures value { result ≡ form_diff value (Some form.now) }
    ensures over { (n : ℕ) → HasUnknowns n form.now.factors → IfSome result (IsOver n) }
{
    let constant = form.constant();
    match form.factors() {
        [first] => of_one(value, *first, constant),
        [first, second] => of_two(value, *first, *second, constant),
        _ => None,
    }
}

// Puts a line that is asked for behind the first `count` lines.
fn add(lines: &mut [Diff], count: usize, asked: bool, line: Option<Diff>) -> usize
    requires { count < length lines.old }
    ensures lines { take result lines.new ≡ take count lines.old ++ line_if asked line }
    ensures few { result ≤ count + 1 }
    ensures over { (n : ℕ) → All (IsOver n) (take count lines.old) → IfSome line (IsOver n) → All (IsOver n) (take result lines.new) }
{
    if !asked {
        return count;
    }
    match line {
        Some(line) => {
            lines[count] = line;
            count + 1
        }
        None => count,
    }
}

// Whether a literal of an atom of the formula is forced.
fn is_forced(formula: &Formula, part: &Part, marks: &Marks, atom: usize, value: bool) -> bool
    requires opened { AreFor formula.now part.now marks.now }
    requires judged { AreJudged formula.now part.now marks.now }
    requires atom { atom < length formula.now.atoms }
    ensures { result ≡ forced formula.now part.now atom value }
{
    marks.is_forced(atom, value)
}

fn add_atom(form: &Lin, yes: bool, no: bool, lines: &mut [Diff], count: usize) -> usize
    requires { count + 2 ≤ length lines.old }
    ensures lines { take result lines.new ≡ take count lines.old ++ (line_if yes (form_diff true (Some form.now))
        ++ line_if no (form_diff false (Some form.now))) }
    ensures few { result ≤ count + 2 }
    ensures over { (n : ℕ) → All (IsOver n) (take count lines.old) → HasUnknowns n form.now.factors
        → All (IsOver n) (take result lines.new) }
{
    let with_yes = add(lines, count, yes, difference(form, true));
    add(lines, with_yes, no, difference(form, false))
}

fn gather(formula: &Formula, part: &Part, marks: &Marks, lines: &mut [Diff]) -> usize
    requires opened { AreFor formula.now part.now marks.now }
    requires judged { AreJudged formula.now part.now marks.now }
    requires over { IsFormulaOver (length part.now.spans) formula.now }
    requires room { length lines.old ≡ 2 * length formula.now.atoms }
    ensures lines { take result lines.new ≡ lines_below formula.now part.now (length formula.now.atoms) }
    ensures few { result ≤ length lines.new }
    ensures over { All (IsOver (length part.now.spans)) (take result lines.new) }
{
    let mut count = 0;
    'atoms: for (at, form) in formula.atoms().iter().enumerate() {
        let yes = is_forced(formula, part, marks, at, true);
        let no = is_forced(formula, part, marks, at, false);
        count = add_atom(form, yes, no, lines, count);
    }
    count
}

/// Room for the difference lines of parts of this formula: two for each atom, since an atom may be forced both ways.
pub fn open_lines(alloc: Global, formula: &Formula) -> Result<Vec<Diff>, NoMemory>
    ensures { IfOk result (λ lines. length lines.items ≡ 2 * length formula.now.atoms) }
{
    let none = Diff {
        x: None,
        y: None,
        c: 0,
    };
    let mut lines = Vec::new(alloc);
    for _atom in formula.atoms() {
        lines.push(none)?;
        lines.push(none)?;
    }
    Ok(lines)
}

/// Whether the bounds and the difference lines of a part have a whole solution, which `room` then has. Where they have none, no
/// point of the part satisfies the formula. The part is
/// the one that was judged last. It takes no memory.
pub fn has_solution(
    formula: &Formula,
    part: &Part,
    marks: &Marks,
    lines: &mut [Diff],
    room: &mut DiffRoom,
) -> bool
    requires opened { AreFor formula.now part.now marks.now }
    requires judged { AreJudged formula.now part.now marks.now }
    requires over { IsFormulaOver (length part.now.spans) formula.now }
    requires lines { length lines.old ≡ 2 * length formula.now.atoms }
    requires room { length part.now.spans ≤ length room.old }
    ensures some { IsTrue result → Solves formula.now part.now (values_at room.new) }
    ensures none { IsFalse result → HasNoSolution formula.now part.now }
    ensures no_point { IsFalse result → (x : ℕ → ℤ) → PointOf formula.now part.now x → Satisfies formula.now x → ⊥ }
    ensures room { length room.new ≡ length room.old }
{
    part_laws();
    let count = gather(formula, part, marks, lines);
    differences(&lines[..count], part.area(), room)
}
