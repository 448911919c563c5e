// Judging a part: the values of the atoms, the literals that are forced, and the truth of the formula.

ghost use Rattle.std.specs.Prelude.{◌≡◌, ◌<◌, ◌&&◌, ◌||◌, ℕ, ℤ, Bool, true, false, length, slice_get, if◌then◌else◌};
ghost use Rattle.std.specs.List.{list_any, list_all};
ghost use Rattle.ft_base.specs.declared.three.Three.TheVariants.{No, Maybe, Yes};
ghost use Rattle.ft_linear.specs.meaning.Formula.{IsOver, Satisfies, atom_at};
ghost use Rattle.ft_base.specs.Three.{is_no, is_yes};
ghost use Rattle.ft_linear.specs.meaning.Part.{PointOf, against, agrees, atom_value, atoms_of, forced, is_against, is_agreed};
ghost use Rattle.ft_linear.specs.meaning.Part.{is_forced_both, truth_of, value_by};
ghost use Rattle.ft_linear.specs.meaning.Marks.{AreFor, AreJudged, signs_of, size_of};
ghost use Rattle.ft_linear.specs.judging.Weighing.{CanWeigh, decided_at, decided_signs};
ghost use Rattle.ft_linear.specs.meaning.Form.{InArea};

use crate::forcing::{Signs, Slot, mark_forced};
use crate::formula::Formula;
use crate::marks::Marks;
use crate::part::Part;
use ft_base::Three;

/// Whether a decided atom is fixed the other way, and whether each decided atom is fixed as decided.
#[derive(Clone, Copy, Drop)]
struct Weighed {
    against: bool,
    agreed: bool,
}

/// The value of an atom: its decision, else what it is fixed to.
fn value_by(decision: Option<bool>, fixed: Three) -> Three
    ensures { result ≡ value_by decision fixed }
{
    match decision {
        None => fixed,
        Some(true) => Three::Yes,
        Some(false) => Three::No,
    }
}

/// The literal that a decision forces.
fn decided_signs(decision: Option<bool>) -> Signs
    ensures { result ≡ decided_signs decision }
{
    Signs {
        yes: decision == Some(true),
        no: decision == Some(false),
    }
}

/// Whether an atom is fixed the other way than it is decided.
fn is_against(decision: Option<bool>, fixed: Three) -> bool
    ensures { result ≡ against decision fixed }
{
    match decision {
        None => false,
        Some(true) => fixed == Three::No,
        Some(false) => fixed == Three::Yes,
    }
}

/// Whether an atom is fixed as it is decided, where it is decided.
fn is_agreed(decision: Option<bool>, fixed: Three) -> bool
    ensures { result ≡ agrees decision fixed }
{
    match decision {
        None => true,
        Some(true) => fixed == Three::Yes,
        Some(false) => fixed == Three::No,
    }
}

/// The decision of an atom.
fn decision_at(decisions: &[Option<bool>], atom: usize) -> Option<bool>
    requires { atom < length decisions.now }
    ensures { slice_get decisions.now atom ≡ Some result }
{
    decisions[atom]
}

/// The values of the atoms and their decided literals.
fn weigh(formula: &Formula, part: &Part, values: &mut [Three], signs: &mut [Signs]) -> Weighed
    requires { CanWeigh formula.now part.now (length values.old) (length signs.old) }
    ensures values { (a : ℕ) → a < length formula.now.atoms → slice_get values.new a ≡ Some (atom_value formula.now part.now a) }
    ensures signs { (a : ℕ) → a < length formula.now.atoms → slice_get signs.new a ≡ Some (decided_at part.now a) }
    ensures against { result.against ≡ list_any (is_against formula.now part.now) (atoms_of formula.now) }
    ensures agreed { result.agreed ≡ list_all (is_agreed formula.now part.now) (atoms_of formula.now) }
{
    let spans = part.area().spans.as_slice();
    let decisions = part.decisions();
    let mut against = false;
    let mut agreed = true;
    'atoms: for (at, atom) in formula.atoms().iter().enumerate() {
        let decision = decision_at(decisions, at);
        let fixed = atom.fixed(spans);
        values[at] = value_by(decision, fixed);
        signs[at] = decided_signs(decision);
        against |= is_against(decision, fixed);
        agreed &= is_agreed(decision, fixed);
    }
    Weighed { against, agreed }
}

/// Whether some atom is forced both ways.
fn any_both_ways(signs: &[Signs]) -> bool
    ensures { result ≡ list_any (λ s. s.yes && s.no) signs.now }
{
    signs.iter().any(|s| s.yes && s.no)
}

/// The truth of a part, by its root's value and what the atoms tell.
fn truth_by(root: Three, against: bool, both_ways: bool, agreed: bool) -> Three
    ensures { result ≡ if is_no root || against || both_ways then No else if is_yes root && agreed then Yes else Maybe }
{
    if root == Three::No || against || both_ways {
        Three::No
    } else if root == Three::Yes && agreed {
        Three::Yes
    } else {
        Three::Maybe
    }
}

/// Judges a part in the room of marks.
fn judge_in(
    formula: &Formula,
    part: &Part,
    values: &mut [Three],
    slots: &mut [Slot],
    signs: &mut [Signs],
) -> Three
    requires atoms { CanWeigh formula.now part.now (length values.old) (length signs.old) }
    requires room { length slots.old ≡ size_of formula.now.root }
    ensures truth { result ≡ truth_of formula.now part.now }
    ensures values { (a : ℕ) → a < length formula.now.atoms → slice_get values.new a ≡ Some (atom_value formula.now part.now a) }
    ensures signs { (a : ℕ) → a < length formula.now.atoms → slice_get signs.new a ≡ Some (signs_of formula.now part.now a) }
{
    let weighed = weigh(formula, part, values, signs);
    let root = mark_forced(formula.root(), values, slots, signs);
    truth_by(root, weighed.against, any_both_ways(signs), weighed.agreed)
}

/// The truth of the formula in a part of its area: No only where no point of the part satisfies it, Yes only where
/// each point of the part's area does. The marks tell the values of the atoms and the forced literals afterwards.
pub fn judge(formula: &Formula, part: &Part, marks: &mut Marks) -> Three
    requires opened { AreFor formula.now part.now marks.old }
    requires over { IsOver (length part.now.spans) formula.now }
    ensures truth { result ≡ truth_of formula.now part.now }
    ensures judged { AreJudged formula.now part.now marks.new }
    ensures opened { AreFor formula.now part.now marks.new }
    ensures none { result ≡ No → (x : ℕ → ℤ) → PointOf formula.now part.now x → Satisfies formula.now x → ⊥ }
    ensures forced { (x : ℕ → ℤ) (a : ℕ) (s : Bool) → PointOf formula.now part.now x → Satisfies formula.now x
        → forced formula.now part.now a s ≡ true → atom_at formula.now.atoms x a ≡ s }
    ensures all { result ≡ Yes → (x : ℕ → ℤ) → InArea part.now.spans x → Satisfies formula.now x }
{
    judge_in(
        formula,
        part,
        &mut marks.values,
        &mut marks.slots,
        &mut marks.signs,
    )
}
