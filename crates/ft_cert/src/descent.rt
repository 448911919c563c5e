ghost use Rattle.std.specs.Prelude.{◌≡◌, ◌<◌, ◌≤◌, ◌+◌, ◌↔◌, [], ◌∷◌, ◌++◌, true, length, slice_get, Some, IsTrue, IsFalse, IfOk};
ghost use Rattle.ft_cert.specs.meaning.Parts.{whole_of};
ghost use Rattle.ft_cert.specs.walk.Steps.{CanStep, are_undos, behind, is_undo, parts_by, room_by, waiting_behind};
ghost use Rattle.ft_cert.specs.walk.Waiting.{first_of, rest_of};

use crate::step::Step;
use ft_base::{NoMemory, Span};
use ft_linear::{Area, Formula, Part};
use ft_pool::Pool;
use std::alloc::Global;
use std::marker::Model;

/// How a step is taken back.
#[derive(Clone, Copy, Drop)]
pub(crate) enum Undo {
    /// An unknown had this span.
    Narrowed {
        unknown: u32,
        span: Span,
    },
    /// An unknown had this span, and is to get the other one as well.
    Half {
        unknown: u32,
        whole: Span,
        second: Span,
    },
    /// An atom was undecided.
    Decided {
        atom: u32,
    },
    /// An atom was undecided, and is to be decided false as well.
    Case {
        atom: u32,
    },
}

/// The parts that wait, in the order in which a tree's nodes stand for them. One part alone is kept, with the steps that lead back
/// from it, in room that is taken once.
#[derive(Drop)]
pub struct Descent {
    part: Part,
    undone: Pool<Undo>,
    ended: bool,
}

impl Model for Descent {
    ghost use Rattle.std.specs.Prelude.{◌≡◌, true};
    ghost use Rattle.ft_cert.specs.walk.Steps.{are_undos, descent_view};
    ghost use Rattle.ft_cert.specs.walk.Waiting.{DescentView};

    ghost Value = { DescentView };

    ghost view = { λ d. descent_view d.ended d.part d.undone.items d.undone.spare };

    ghost invariant = { λ d. are_undos d.part d.undone.items ≡ true };
}

/// The span of an unknown.
fn span_of(part: &Part, unknown: u32) -> Span
    requires { unknown < length part.now.spans }
    ensures { slice_get part.now.spans unknown ≡ Some result }
{
    part.area().spans.as_slice()[unknown as usize]
}

/// Takes a step back, or goes on from it to the other part of its split. The answer is whether it goes on.
fn go_back(part: &mut Part, undone: &mut Pool<Undo>, last: Undo) -> bool
    requires room { 0 < undone.old.spare }
    requires last { is_undo (length part.old.spans) (length part.old.decided) last ≡ true }
    requires valid { are_undos part.old undone.old.items ≡ true }
    ensures moved { IsTrue result → behind part.old undone.old.items last ≡ part.new ∷ waiting_behind part.new undone.new.items }
    ensures same { IsFalse result → behind part.old undone.old.items last ≡ waiting_behind part.new undone.new.items }
    ensures shorter { IsFalse result → length undone.new.items ≡ length undone.old.items }
    ensures valid { are_undos part.new undone.new.items ≡ true }
    ensures room { undone.old.spare ≤ undone.new.spare + 1 }
    ensures unknowns { length part.new.spans ≡ length part.old.spans }
    ensures atoms { length part.new.decided ≡ length part.old.decided }
{
    match last {
        Undo::Narrowed { unknown, span } => {
            part.cut(unknown, span);
            false
        }
        Undo::Half {
            unknown,
            whole,
            second,
        } => {
            part.cut(unknown, second);
            undone.push(Undo::Narrowed {
                unknown,
                span: whole,
            });
            true
        }
        Undo::Decided { atom } => {
            part.decide(atom, None);
            false
        }
        Undo::Case { atom } => {
            part.decide(atom, Some(false));
            undone.push(Undo::Decided { atom });
            true
        }
    }
}

/// Takes steps back up to the next part that waits. It is false where none does.
fn go_on(part: &mut Part, undone: &mut Pool<Undo>) -> bool
    requires { are_undos part.old undone.old.items ≡ true }
    ensures moved { IsTrue result → waiting_behind part.old undone.old.items ≡ part.new ∷ waiting_behind part.new undone.new.items }
    ensures ended { IsFalse result → waiting_behind part.old undone.old.items ≡ [] }
    ensures valid { are_undos part.new undone.new.items ≡ true }
    ensures room { undone.old.spare ≤ undone.new.spare }
    ensures unknowns { length part.new.spans ≡ length part.old.spans }
    ensures atoms { length part.new.decided ≡ length part.old.decided }
{
    'steps: while let Some(last) = undone.pop() {
        if go_back(part, undone, last) {
            return true;
        }
    }
    false
}

impl Descent {
    /// At the whole area, with no atom of the formula decided, and with room for so many steps. No later call takes memory.
    pub fn open(
        alloc: Global,
        formula: &Formula,
        area: &Area,
        room: usize,
    ) -> Result<Descent, NoMemory>
        ensures parts { IfOk result (λ d. d.parts ≡ whole_of formula.now area.now.spans ∷ []) }
        ensures unknowns { IfOk result (λ d. d.unknowns ≡ length area.now.spans) }
        ensures atoms { IfOk result (λ d. d.atoms ≡ length formula.now.atoms) }
        ensures spare { IfOk result (λ d. d.spare ≡ room) }
    {
        Ok(Descent {
            part: Part::open(alloc, formula, area)?,
            undone: Pool::open(alloc, room)?,
            ended: false,
        })
    }

    /// Whether no part waits.
    pub fn is_ended(&self) -> bool
        ensures { IsTrue result ↔ (self.now.parts ≡ []) }
    {
        self.ended
    }

    /// The part at which the descent stands.
    pub fn part(&self) -> &Part
        requires { 0 < length self.now.parts }
        ensures part { result.now ≡ first_of self.now.parts }
        ensures unknowns { length result.now.spans ≡ self.now.unknowns }
        ensures atoms { length result.now.decided ≡ self.now.atoms }
    {
        &self.part
    }

    /// Takes a step from the part at which the descent stands to the first part that waits then.
    pub fn take(&mut self, step: Step)
        requires waits { 0 < length self.old.parts }
        requires step { CanStep (first_of self.old.parts) step }
        requires room { room_by step ≤ self.old.spare }
        ensures parts { self.new.parts ≡ parts_by (first_of self.old.parts) step ++ rest_of self.old.parts }
        ensures unknowns { self.new.unknowns ≡ self.old.unknowns }
        ensures atoms { self.new.atoms ≡ self.old.atoms }
        ensures spare { self.old.spare ≤ self.new.spare + room_by step }
    {
        match step {
            Step::Close => {
                self.ended = !go_on(&mut self.part, &mut self.undone);
            }
            Step::Cut { unknown, low, high } => {
                let whole = span_of(&self.part, unknown);
                self.undone.push(Undo::Half {
                    unknown,
                    whole,
                    second: high,
                });
                self.part.cut(unknown, low);
            }
            Step::Decide { atom } => {
                self.undone.push(Undo::Case { atom });
                self.part.decide(atom, Some(true));
            }
            Step::Tighten { unknown, span } => {
                let whole = span_of(&self.part, unknown);
                self.undone.push(Undo::Narrowed {
                    unknown,
                    span: whole,
                });
                self.part.cut(unknown, span);
            }
        }
    }
}
