// The step that the node of a certificate makes from its part, if it holds there.
ghost use Rattle.std.specs.Prelude.{◌≡◌, length};
ghost use Rattle.ft_linear.specs.meaning.Formula.{IsOver};
ghost use Rattle.ft_cert.specs.walk.Steps.{IsStepOf};
ghost use Rattle.ft_check.specs.checking.Room.{IsRoomFor};

use crate::room::CheckRoom;
use ft_base::Three;
use ft_cert::{CertNode, Step, case_step, cut_step};
use ft_diff::has_solution;
use ft_linear::{Formula, Line, Part, contradict, judge, tighten};

/// Where the part's truth is No, it is closed.
fn false_step(formula: &Formula, part: &Part, room: &mut CheckRoom) -> Option<Step>
    requires room { IsRoomFor formula.now (length part.now.spans) room.old }
    requires decided { length part.now.decided ≡ length formula.now.atoms }
    requires over { IsOver (length part.now.spans) formula.now }
    ensures is { IsStepOf formula.now part.now CertNode.F result }
    ensures room { IsRoomFor formula.now (length part.now.spans) room.new }
{
    match judge(formula, part, &mut room.marks) {
        Three::No => Some(Step::Close),
        Three::Maybe => None,
        Three::Yes => None,
    }
}

/// Where the bounds and the difference lines have no whole solution, the part is closed.
fn lines_step(formula: &Formula, part: &Part, room: &mut CheckRoom) -> Option<Step>
    requires room { IsRoomFor formula.now (length part.now.spans) room.old }
    requires decided { length part.now.decided ≡ length formula.now.atoms }
    requires over { IsOver (length part.now.spans) formula.now }
    ensures is { IsStepOf formula.now part.now CertNode.L result }
    ensures room { IsRoomFor formula.now (length part.now.spans) room.new }
{
    judge(formula, part, &mut room.marks);
    if has_solution(
        formula,
        part,
        &room.marks,
        &mut room.lines,
        &mut room.numbers,
    ) {
        None
    } else {
        Some(Step::Close)
    }
}

/// Where the lines contradict, the part is closed.
fn sum_step(formula: &Formula, part: &Part, lines: &[Line], room: &mut CheckRoom) -> Option<Step>
    requires room { IsRoomFor formula.now (length part.now.spans) room.old }
    requires decided { length part.now.decided ≡ length formula.now.atoms }
    requires over { IsOver (length part.now.spans) formula.now }
    ensures is { IsStepOf formula.now part.now (CertNode.S lines.now) result }
    ensures room { IsRoomFor formula.now (length part.now.spans) room.new }
{
    judge(formula, part, &mut room.marks);
    if contradict(formula, part, &room.marks, lines, &mut room.sums) {
        Some(Step::Close)
    } else {
        None
    }
}

/// Where the lines leave the unknown a smaller span, it gets that.
fn tight_step(
    formula: &Formula,
    part: &Part,
    unknown: u32,
    lines: &[Line],
    room: &mut CheckRoom,
) -> Option<Step>
    requires room { IsRoomFor formula.now (length part.now.spans) room.old }
    requires decided { length part.now.decided ≡ length formula.now.atoms }
    requires over { IsOver (length part.now.spans) formula.now }
    ensures is { IsStepOf formula.now part.now (CertNode.T unknown lines.now) result }
    ensures room { IsRoomFor formula.now (length part.now.spans) room.new }
{
    judge(formula, part, &mut room.marks);
    let span = tighten(formula, part, &room.marks, unknown, lines, &mut room.sums)?;
    Some(Step::Tighten { unknown, span })
}

/// The step of a node from its part. None exactly where the node doesn't hold there. A cut or a case asks for no judgement.
pub(crate) fn step_of(
    formula: &Formula,
    part: &Part,
    node: &CertNode,
    room: &mut CheckRoom,
) -> Option<Step>
    requires room { IsRoomFor formula.now (length part.now.spans) room.old }
    requires decided { length part.now.decided ≡ length formula.now.atoms }
    requires over { IsOver (length part.now.spans) formula.now }
    ensures is { IsStepOf formula.now part.now node.now result }
    ensures room { IsRoomFor formula.now (length part.now.spans) room.new }
{
    match node {
        CertNode::F => false_step(formula, part, room),
        CertNode::L => lines_step(formula, part, room),
        CertNode::S { lines } => sum_step(formula, part, lines.as_slice(), room),
        CertNode::R { unknown, value } => cut_step(part, *unknown, *value),
        CertNode::C { atom } => case_step(formula, part, *atom),
        CertNode::T { unknown, lines } => {
            tight_step(formula, part, *unknown, lines.as_slice(), room)
        }
    }
}
