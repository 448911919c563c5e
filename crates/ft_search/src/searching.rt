// The search: nodes in prefix order, each at the first of the parts that wait.

ghost use Rattle.std.specs.Prelude.{◌≡◌, ◌≤◌, ◌<◌, ◌+◌, ◌^◌, ◌↔◌, ℕ, ℤ, [], ◌∷◌, ◌++◌, length, slice_set, IsTrue, All};
ghost use Rattle.ft_linear.specs.meaning.Form.{InArea, IsSmall, values_at};
ghost use Rattle.ft_linear.specs.meaning.Formula.{IsOver};
ghost use Rattle.ft_cert.specs.walk.Steps.{CanStep, parts_by, room_by};
ghost use Rattle.ft_cert.specs.walk.Waiting.{first_of, rest_of};
ghost use Rattle.ft_search.specs.searching.Space.{IsFound, IsFreshFor};
ghost use Rattle.ft_search.specs.searching.Turn.{splits_by};

use crate::counts::Counts;
use crate::law::search_laws;
use crate::room::Room;
use crate::settling::settle;
use crate::turns::{Choice, Turn, choose};
use ft_base::Span;
use ft_cert::{Descent, Step};
use ft_linear::{Area, Formula};

/// What a search found.
#[derive(Clone, Copy, PartialEq, Eq, Drop)]
pub enum Found {
    /// A certificate that holds.
    Closed,
    /// A part each point of which satisfies the formula.
    Point,
    /// The splits are used up.
    Spent,
}

/// Whether a step is a split for which no split is left.
fn is_used_up(step: Step, used: u32, splits: u32) -> bool
    ensures { IsTrue result ↔ ((splits_by step ≡ 1) × (used ≡ splits)) }
{
    match step {
        Step::Close => false,
        Step::Cut { .. } => used == splits,
        Step::Decide { .. } => used == splits,
        Step::Tighten { .. } => false,
    }
}

/// Whether a step cuts an unknown. The bounds of its parts are new then, and the forced literals mostly the same.
fn cuts(step: Step) -> bool {
    matches!(step, Step::Cut { .. })
}

/// Keeps a node and takes its step.
pub(crate) fn go(room: &mut Room, turn: Turn)
    requires waits { 0 < length room.old.descent.parts }
    requires step { CanStep (first_of room.old.descent.parts) turn.step }
    requires steps { room_by turn.step ≤ room.old.descent.spare }
    requires spare { 0 < room.old.nodes.spare }
    ensures nodes { room.new.nodes.items ≡ room.old.nodes.items ++ turn.node ∷ [] }
    ensures parts { room.new.descent.parts ≡ parts_by (first_of room.old.descent.parts) turn.step ++ rest_of room.old.descent.parts }
    ensures unknowns { room.new.descent.unknowns ≡ room.old.descent.unknowns }
    ensures atoms { room.new.descent.atoms ≡ room.old.descent.atoms }
    ensures steps { room.old.descent.spare ≤ room.new.descent.spare + room_by turn.step }
    ensures spare { room.new.nodes.spare + 1 ≡ room.old.nodes.spare }
    ensures judging { room.new.judging ≡ room.old.judging }
    ensures splits { room.new.splits ≡ room.old.splits }
    ensures budget { room.new.budget ≡ room.old.budget }
{
    room.descent.take(turn.step);
    room.nodes.push(turn.node);
}

/// The span of one value.
fn one_value(value: i64) -> Span
    requires { IsSmall value }
    ensures { result ≡ (value, value) }
{
    match Span::new(value, value) {
        Some(span) => span,
        None => unreachable!(),
    }
}

/// Gives an unknown one value alone.
fn fix(descent: &mut Descent, unknown: u32, value: i64)
    requires some { 0 < length descent.old.parts }
    requires unknown { unknown < descent.old.unknowns }
    requires room { 0 < descent.old.spare }
    requires small { IsSmall value }
    ensures some { 0 < length descent.new.parts }
    ensures unknowns { descent.new.unknowns ≡ descent.old.unknowns }
    ensures room { descent.old.spare ≤ descent.new.spare + 1 }
    ensures within { unknown < length (first_of descent.old.parts).spans }
    ensures spans { (first_of descent.new.parts).spans ≡ slice_set (first_of descent.old.parts).spans unknown (value, value) }
{
    let _part = descent.part();
    let span = one_value(value);
    descent.take(Step::Tighten { unknown, span });
}

/// Goes to the part of one point alone.
fn go_to_point(descent: &mut Descent, point: &[i64])
    requires some { 0 < length descent.old.parts }
    requires unknowns { descent.old.unknowns ≡ length point.now }
    requires few { length point.now < 2 ^ 32 }
    requires room { length point.now ≤ descent.old.spare }
    requires small { All IsSmall point.now }
    ensures some { 0 < length descent.new.parts }
    ensures point { (x : ℕ → ℤ) → InArea (first_of descent.new.parts).spans x → (u : ℕ) → u < length point.now
        → x u ≡ values_at point.now u }
{
    let count = point.len() as u32;
    for unknown in 0..count {
        fix(descent, unknown, point[unknown as usize]);
    }
}

/// The same in a room.
fn go_to_found(room: &mut Room)
    requires some { 0 < length room.old.descent.parts }
    requires unknowns { room.old.descent.unknowns ≡ length room.old.judging.point.items }
    requires few { length room.old.judging.point.items < 2 ^ 32 }
    requires room { length room.old.judging.point.items ≤ room.old.descent.spare }
    requires small { All IsSmall room.old.judging.point.items }
    ensures some { 0 < length room.new.descent.parts }
    ensures point { (x : ℕ → ℤ) → InArea (first_of room.new.descent.parts).spans x → (u : ℕ)
        → u < length room.old.judging.point.items → x u ≡ values_at room.old.judging.point.items u }
    ensures splits { room.new.splits ≡ room.old.splits }
{
    go_to_point(&mut room.descent, room.judging.point.as_slice());
}

/// Searches for evidence that no point of the area satisfies the formula, or for a point that does, with at most the splits of the
/// room. It takes no memory. The room is one in which no search has been made.
pub fn search(formula: &Formula, area: &Area, room: &mut Room) -> Found
    requires over { IsOver (length area.now.spans) formula.now }
    requires fresh { IsFreshFor formula.now area.now.spans room.old }
    ensures found { IsFound formula.now area.now.spans room.new result }
    ensures splits { room.new.splits ≡ room.old.splits }
{
    search_laws();
    let _root = formula.root();
    let budget = room.budget;
    let mut counts = Counts::NONE;
    let mut is_cut = false;
    'parts: loop {
        if room.descent.is_ended() {
            return Found::Closed;
        }
        let settled = settle(formula, area, room, counts, is_cut);
        let allowed = settled.counts.allowed(budget);
        let part = room.descent.part();
        match choose(
            formula,
            part,
            &mut room.judging,
            settled.truth,
            allowed,
            room.strict,
        ) {
            Choice::Met => return Found::Point,
            Choice::Found => {
                go_to_found(room);
                return Found::Point;
            }
            Choice::Turn(turn) => {
                if is_used_up(turn.step, settled.counts.used, budget) {
                    return Found::Spent;
                }
                is_cut = cuts(turn.step);
                counts = settled.counts.with(&turn);
                go(room, turn);
            }
        }
    }
}
