// What a search does at a part.

ghost use Rattle.std.specs.Prelude.{◌≡◌, ◌<◌, ◌^◌, ℕ, length, IfSome, IsTrue};
ghost use Rattle.ft_base.specs.declared.three.Three.TheVariants.{No, Maybe, Yes};
ghost use Rattle.ft_linear.specs.meaning.Difference.{HasSolution, Solves};
ghost use Rattle.ft_linear.specs.meaning.Form.{values_at};
ghost use Rattle.ft_linear.specs.meaning.Formula.{IsOver};
ghost use Rattle.ft_linear.specs.meaning.Marks.{AreFor, AreJudged};
ghost use Rattle.ft_linear.specs.meaning.Part.{truth_of};
ghost use Rattle.ft_cert.specs.declared.step.Step.TheVariants.{Tighten};
ghost use Rattle.ft_search.specs.declared.kept.KeptNode.TheVariants.{Tightened};
ghost use Rattle.ft_search.specs.meaning.Spent.{IsOpenAtom};
ghost use Rattle.ft_search.specs.searching.Single.{IsSingle};
ghost use Rattle.ft_search.specs.searching.Space.{IsRoomFor};
ghost use Rattle.ft_search.specs.searching.Turn.{IsAllowed, IsChoice, IsDenied, IsFoundAt, IsSplit, IsTurn, tightens_by};

use crate::counts::Allowed;
use crate::deciding::wanted;
use crate::halving::{Single, halving};
use crate::kept::KeptNode;
use crate::points::{middle, widest};
use crate::room::Judging;
use crate::solution::is_point;
use ft_base::Three;
use ft_cert::{Step, case_step, cut_step};
use ft_diff::has_solution;
use ft_linear::{Formula, Marks, Part, part_laws};

/// A node, and the step from its part to those of its children.
#[derive(Clone, Copy, Drop)]
pub(crate) struct Turn {
    pub(crate) node: KeptNode,
    pub(crate) step: Step,
    /// Whether it leaves an unknown at most half of its values.
    pub(crate) halves: bool,
}

/// What a search does at a part.
#[derive(Clone, Copy, Drop)]
pub(crate) enum Choice {
    /// Each point of the part satisfies the formula.
    Met,
    /// A point was found.
    Found,
    /// A node stands for the part.
    Turn(Turn),
}

/// Whether an atom is neither decided, nor fixed, nor forced.
fn is_open(formula: &Formula, part: &Part, marks: &Marks, atom: u32) -> bool
    requires opened { AreFor formula.now part.now marks.now }
    requires judged { AreJudged formula.now part.now marks.now }
    requires atom { atom < length formula.now.atoms }
    ensures { IsTrue result → IsOpenAtom formula.now part.now atom }
{
    marks.value(atom) == Three::Maybe && marks.forced(atom).is_none()
}

/// The open atom of least number.
fn open_atom(formula: &Formula, part: &Part, marks: &Marks) -> Option<u32>
    requires opened { AreFor formula.now part.now marks.now }
    requires judged { AreJudged formula.now part.now marks.now }
    requires few { length formula.now.atoms < 2 ^ 32 }
    ensures { IfSome result (λ a. (a < length formula.now.atoms) × IsOpenAtom formula.now part.now a) }
{
    let count = formula.atoms().len() as u32;
    for atom in 0..count {
        if is_open(formula, part, marks, atom) {
            return Some(atom);
        }
    }
    None
}

/// A case on an open atom.
fn case_turn(formula: &Formula, part: &Part, atom: u32) -> Turn
    requires decided { length part.now.decided ≡ length formula.now.atoms }
    requires atom { atom < length formula.now.atoms }
    requires open { IsOpenAtom formula.now part.now atom }
    requires maybe { truth_of formula.now part.now ≡ Maybe }
    requires solution { HasSolution formula.now part.now }
    ensures turn { (enough halved : ℕ) → IsDenied formula.now part.now enough halved → IsTurn formula.now part.now enough halved result }
    ensures splits { tightens_by result.step ≡ 0 }
{
    match case_step(formula, part, atom) {
        Some(step) => Turn {
            node: KeptNode::Case { atom },
            step,
            halves: false,
        },
        None => unreachable!(),
    }
}

/// A cut of the widest unknown in the middle.
fn cut_turn(formula: &Formula, part: &Part) -> Turn
    requires few { length part.now.spans < 2 ^ 32 }
    requires maybe { truth_of formula.now part.now ≡ Maybe }
    requires solution { HasSolution formula.now part.now }
    ensures turn { (enough halved : ℕ) → IsDenied formula.now part.now enough halved → IsTurn formula.now part.now enough halved result }
    ensures splits { tightens_by result.step ≡ 0 }
{
    part_laws();
    let _root = formula.root();
    let spans = part.area().spans.as_slice();
    let Some(unknown) = widest(spans) else {
        unreachable!();
    };
    let value = middle(spans[unknown as usize]);
    match cut_step(part, unknown, value) {
        Some(step) => Turn {
            node: KeptNode::Cut { unknown, value },
            step,
            halves: false,
        },
        None => unreachable!(),
    }
}

/// The open atom to decide: one that matters, or else the one of least number.
fn case_atom(formula: &Formula, part: &Part, marks: &Marks) -> Option<u32>
    requires opened { AreFor formula.now part.now marks.now }
    requires judged { AreJudged formula.now part.now marks.now }
    requires few { length formula.now.atoms < 2 ^ 32 }
    ensures { IfSome result (λ a. (a < length formula.now.atoms) × IsOpenAtom formula.now part.now a) }
{
    let count = formula.atoms().len();
    if let Some(atom) = wanted(formula.root(), true, marks, count) {
        if (atom as usize) < count && is_open(formula, part, marks, atom) {
            return Some(atom);
        }
    }
    open_atom(formula, part, marks)
}

/// A split of a part that nothing closes.
fn split_turn(formula: &Formula, part: &Part, marks: &Marks) -> Turn
    requires opened { AreFor formula.now part.now marks.now }
    requires judged { AreJudged formula.now part.now marks.now }
    requires atoms { length formula.now.atoms < 2 ^ 32 }
    requires unknowns { length part.now.spans < 2 ^ 32 }
    requires maybe { truth_of formula.now part.now ≡ Maybe }
    requires solution { HasSolution formula.now part.now }
    ensures turn { (enough halved : ℕ) → IsDenied formula.now part.now enough halved → IsTurn formula.now part.now enough halved result }
    ensures splits { tightens_by result.step ≡ 0 }
{
    match case_atom(formula, part, marks) {
        Some(atom) => case_turn(formula, part, atom),
        None => cut_turn(formula, part),
    }
}

/// A point of a part whose differences have this solution, or else a split.
fn solved_choice(formula: &Formula, part: &Part, room: &mut Judging, strict: bool) -> Choice
    requires room { IsRoomFor formula.now (length part.now.spans) room.old }
    requires opened { AreFor formula.now part.now room.old.marks }
    requires judged { AreJudged formula.now part.now room.old.marks }
    requires over { IsOver (length part.now.spans) formula.now }
    requires maybe { truth_of formula.now part.now ≡ Maybe }
    requires solution { Solves formula.now part.now (values_at room.old.numbers) }
    ensures choice { (enough halved : ℕ) → IsDenied formula.now part.now enough halved → IsChoice formula.now part.now enough halved result }
    ensures found { IsFoundAt formula.now part.now room.new.point.items result }
    ensures splits { IsSplit result }
    ensures room { IsRoomFor formula.now (length part.now.spans) room.new }
{
    let spans = part.area().spans.as_slice();
    if !strict && is_point(formula, spans, &room.numbers, &mut room.point) {
        return Choice::Found;
    }
    Choice::Turn(split_turn(formula, part, &room.marks))
}

/// What closes the part or splits it, or a point.
fn plain_choice(formula: &Formula, part: &Part, room: &mut Judging, strict: bool) -> Choice
    requires room { IsRoomFor formula.now (length part.now.spans) room.old }
    requires opened { AreFor formula.now part.now room.old.marks }
    requires judged { AreJudged formula.now part.now room.old.marks }
    requires over { IsOver (length part.now.spans) formula.now }
    requires maybe { truth_of formula.now part.now ≡ Maybe }
    ensures choice { (enough halved : ℕ) → IsDenied formula.now part.now enough halved → IsChoice formula.now part.now enough halved result }
    ensures found { IsFoundAt formula.now part.now room.new.point.items result }
    ensures splits { IsSplit result }
    ensures room { IsRoomFor formula.now (length part.now.spans) room.new }
{
    if has_solution(
        formula,
        part,
        &room.marks,
        &mut room.lines,
        &mut room.numbers,
    ) {
        solved_choice(formula, part, room, strict)
    } else {
        Choice::Turn(Turn {
            node: KeptNode::Unsolved,
            step: Step::Close,
            halves: false,
        })
    }
}

/// The node of a literal that tightens an unknown.
pub(crate) fn tight_turn(single: Single, halves: bool) -> Turn
    ensures node { result.node ≡ Tightened single.unknown single.atom single.value }
    ensures step { result.step ≡ Tighten single.unknown single.span }
    ensures halves { result.halves ≡ halves }
{
    Turn {
        node: KeptNode::Tightened {
            unknown: single.unknown,
            atom: single.atom,
            value: single.value,
        },
        step: Step::Tighten {
            unknown: single.unknown,
            span: single.span,
        },
        halves,
    }
}

/// A literal's own line halves an unknown.
fn halved_turn(formula: &Formula, part: &Part, single: Single) -> Turn
    requires { IsSingle formula.now part.now single }
    ensures turn { (enough halved : ℕ) → IsTurn formula.now part.now enough halved result }
    ensures halves { IsTrue result.halves }
{
    tight_turn(single, true)
}

/// What a search does at a part whose truth is Maybe, with a literal that halves an unknown first where that is asked for.
fn maybe_choice(
    formula: &Formula,
    part: &Part,
    room: &mut Judging,
    allowed: Allowed,
    strict: bool,
) -> Choice
    requires room { IsRoomFor formula.now (length part.now.spans) room.old }
    requires opened { AreFor formula.now part.now room.old.marks }
    requires judged { AreJudged formula.now part.now room.old.marks }
    requires over { IsOver (length part.now.spans) formula.now }
    requires maybe { truth_of formula.now part.now ≡ Maybe }
    ensures choice { (enough halved : ℕ) → (halved < enough → IsTrue allowed.halving)
        → IsChoice formula.now part.now enough halved result }
    ensures found { IsFoundAt formula.now part.now room.new.point.items result }
    ensures allowed { IsAllowed allowed result }
    ensures room { IsRoomFor formula.now (length part.now.spans) room.new }
{
    if !allowed.halving {
        return plain_choice(formula, part, room, strict);
    }
    match halving(formula, part, &room.marks) {
        Some(single) => Choice::Turn(halved_turn(formula, part, single)),
        None => plain_choice(formula, part, room, strict),
    }
}

/// What a search does at the part, which was judged last.
pub(crate) fn choose(
    formula: &Formula,
    part: &Part,
    room: &mut Judging,
    truth: Three,
    allowed: Allowed,
    strict: bool,
) -> Choice
    requires room { IsRoomFor formula.now (length part.now.spans) room.old }
    requires decided { length part.now.decided ≡ length formula.now.atoms }
    requires over { IsOver (length part.now.spans) formula.now }
    requires truth { truth ≡ truth_of formula.now part.now }
    requires judged { AreJudged formula.now part.now room.old.marks }
    ensures choice { (enough halved : ℕ) → (halved < enough → IsTrue allowed.halving)
        → IsChoice formula.now part.now enough halved result }
    ensures found { IsFoundAt formula.now part.now room.new.point.items result }
    ensures allowed { IsAllowed allowed result }
    ensures room { IsRoomFor formula.now (length part.now.spans) room.new }
{
    part_laws();
    match truth {
        Three::No => Choice::Turn(Turn {
            node: KeptNode::Refuted,
            step: Step::Close,
            halves: false,
        }),
        Three::Yes => Choice::Met,
        Three::Maybe => maybe_choice(formula, part, room, allowed, strict),
    }
}
