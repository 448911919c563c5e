// Sweeps over the forced literals of a part: each leaves its unknowns smaller spans one after another, before the part is judged again.

ghost use Rattle.std.specs.Prelude.{◌≡◌, ◌≤◌, ◌<◌, ◌^◌, ◌≤ℤ◌, ℕ, ℤ, Some, [], length, slice_get, IfOk};
ghost use Rattle.ft_linear.specs.meaning.Form.{span_at};
ghost use Rattle.ft_linear.specs.meaning.Formula.{IsOver};
ghost use Rattle.ft_linear.specs.meaning.Marks.{AreFor, AreJudged};
ghost use Rattle.ft_search.specs.searching.Sweep.{IsLiteral, IsSweepFor, IsSwept};

use crate::halving::{Single, is_forced, is_half};
use crate::points::width;
use ft_base::{NoMemory, Span};
use ft_linear::{Area, Formula, Marks, Part, single_span};
use ft_pool::{Mark, Pool};
use std::alloc::Global;

/// A part that is tightened, and how.
#[derive(Drop)]
pub(crate) struct Sweep {
    pub(crate) part: Part,
    pub(crate) made: Pool<Single>,
    pub(crate) start: Mark,
}

/// A literal: an atom, or its opposite.
#[derive(Clone, Copy, Drop)]
pub(crate) struct Literal {
    pub(crate) atom: u32,
    pub(crate) value: bool,
}

/// How a sweep goes.
#[derive(Clone, Copy, Drop)]
pub(crate) struct Pace {
    /// How many tightenings it may make.
    pub(crate) limit: usize,
    /// Whether each has to take off a good part of its unknown's values.
    pub(crate) brisk: bool,
}

/// Whether a span in place of another is worth a node: in a brisk sweep it has to take off a half, or at least one of 32 values.
fn is_worth(old: Span, new: Span, brisk: bool) -> bool {
    !brisk || is_half(old, new) || 32 * (width(old) - width(new)) > width(old)
}

impl Sweep {
    pub(crate) fn open(
        alloc: Global,
        formula: &Formula,
        area: &Area,
        room: usize,
    ) -> Result<Sweep, NoMemory>
        ensures { IfOk result (IsSweepFor formula.now (length area.now.spans)) }
    {
        let made = Pool::open(alloc, room)?;
        Ok(Sweep {
            part: Part::open(alloc, formula, area)?,
            start: made.mark(),
            made,
        })
    }
}

/// The span of an unknown.
pub(crate) fn span_of(part: &Part, unknown: u32) -> Span
    requires { unknown < length part.now.spans }
    ensures value { slice_get part.now.spans unknown ≡ Some result }
    ensures full { result.0 ≤ℤ result.1 }
{
    let span = part.area().spans.as_slice()[unknown as usize];
    let _least = span.lo();
    span
}

/// Gives the unknowns of a part the spans of another.
fn copy_spans(from: &Part, to: &mut Part, unknowns: u32)
    requires unknowns { unknowns ≡ length from.now.spans }
    requires long { length to.old.spans ≡ length from.now.spans }
    ensures spans { to.new.spans ≡ from.now.spans }
    ensures decided { to.new.decided ≡ to.old.decided }
    ensures full { (u : ℕ) → (span_at from.now.spans u).0 ≤ℤ (span_at from.now.spans u).1 }
{
    for unknown in 0..unknowns {
        to.cut(unknown, span_of(from, unknown));
    }
}

/// Decides the atoms of a part as in another.
fn copy_decisions(from: &Part, to: &mut Part, atoms: u32)
    requires atoms { atoms ≡ length from.now.decided }
    requires long { length to.old.decided ≡ length from.now.decided }
    ensures spans { to.new.spans ≡ to.old.spans }
    ensures decided { to.new.decided ≡ from.now.decided }
{
    for atom in 0..atoms {
        to.decide(atom, from.decided(atom));
    }
}

/// Begins at a part.
fn begin(formula: &Formula, part: &Part, sweep: &mut Sweep)
    requires room { IsSweepFor formula.now (length part.now.spans) sweep.old }
    requires decided { length part.now.decided ≡ length formula.now.atoms }
    requires atoms { length formula.now.atoms < 2 ^ 32 }
    requires unknowns { length part.now.spans < 2 ^ 32 }
    ensures room { IsSweepFor formula.now (length part.now.spans) sweep.new }
    ensures swept { IsSwept formula.now part.now sweep.new.made.items sweep.new.part }
    ensures none { sweep.new.made.items ≡ [] }
{
    sweep.made.release(sweep.start);
    let unknowns = part.area().spans.len() as u32;
    let atoms = formula.atoms().len() as u32;
    copy_spans(part, &mut sweep.part, unknowns);
    copy_decisions(part, &mut sweep.part, atoms);
}

/// Tightens one unknown by a literal, where that is worth a node.
fn tighten_one(
    formula: &Formula,
    part: &Part,
    literal: Literal,
    unknown: u32,
    sweep: &mut Sweep,
    pace: Pace,
)
    requires literal { IsLiteral formula.now part.now literal }
    requires unknown { unknown < length part.now.spans }
    requires over { IsOver (length part.now.spans) formula.now }
    requires room { IsSweepFor formula.now (length part.now.spans) sweep.old }
    requires swept { IsSwept formula.now part.now sweep.old.made.items sweep.old.part }
    requires few { length sweep.old.made.items ≤ pace.limit }
    ensures room { IsSweepFor formula.now (length part.now.spans) sweep.new }
    ensures swept { IsSwept formula.now part.now sweep.new.made.items sweep.new.part }
    ensures few { length sweep.new.made.items ≤ pace.limit }
{
    if sweep.made.spare() == 0 || sweep.made.len() >= pace.limit {
        return;
    }
    let form = &formula.atoms()[literal.atom as usize];
    let _factors = form.factors();
    let old = span_of(&sweep.part, unknown);
    match single_span(
        form,
        literal.value,
        sweep.part.area().spans.as_slice(),
        unknown,
    ) {
        Some(span) => {
            if is_worth(old, span, pace.brisk) {
                sweep.made.push(Single {
                    atom: literal.atom,
                    value: literal.value,
                    unknown,
                    span,
                });
                sweep.part.cut(unknown, span);
            }
        }
        None => {}
    }
}

/// Tightens each unknown of a literal of at most three, where it is forced.
fn tighten_by(
    formula: &Formula,
    part: &Part,
    marks: &Marks,
    literal: Literal,
    sweep: &mut Sweep,
    pace: Pace,
)
    requires opened { AreFor formula.now part.now marks.now }
    requires judged { AreJudged formula.now part.now marks.now }
    requires atom { literal.atom < length formula.now.atoms }
    requires over { IsOver (length part.now.spans) formula.now }
    requires room { IsSweepFor formula.now (length part.now.spans) sweep.old }
    requires swept { IsSwept formula.now part.now sweep.old.made.items sweep.old.part }
    requires few { length sweep.old.made.items ≤ pace.limit }
    ensures room { IsSweepFor formula.now (length part.now.spans) sweep.new }
    ensures swept { IsSwept formula.now part.now sweep.new.made.items sweep.new.part }
    ensures few { length sweep.new.made.items ≤ pace.limit }
{
    if !is_forced(formula, part, marks, literal.atom, literal.value) {
        return;
    }
    let form = &formula.atoms()[literal.atom as usize];
    if form.factors().len() > 3 {
        return;
    }
    'factors: for factor in form.factors() {
        tighten_one(formula, part, literal, factor.0, sweep, pace);
    }
}

/// Sweeps over the forced literals of the part that was judged last.
pub(crate) fn make_sweep(
    formula: &Formula,
    part: &Part,
    marks: &Marks,
    sweep: &mut Sweep,
    pace: Pace,
)
    requires opened { AreFor formula.now part.now marks.now }
    requires judged { AreJudged formula.now part.now marks.now }
    requires atoms { length formula.now.atoms < 2 ^ 32 }
    requires unknowns { length part.now.spans < 2 ^ 32 }
    requires over { IsOver (length part.now.spans) formula.now }
    requires room { IsSweepFor formula.now (length part.now.spans) sweep.old }
    ensures room { IsSweepFor formula.now (length part.now.spans) sweep.new }
    ensures swept { IsSwept formula.now part.now sweep.new.made.items sweep.new.part }
    ensures few { length sweep.new.made.items ≤ pace.limit }
{
    begin(formula, part, sweep);
    let count = formula.atoms().len() as u32;
    for atom in 0..count {
        let yes = Literal { atom, value: true };
        tighten_by(formula, part, marks, yes, sweep, pace);
        let no = Literal { atom, value: false };
        tighten_by(formula, part, marks, no, sweep, pace);
    }
}
