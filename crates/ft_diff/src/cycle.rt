// A cycle of lines whose greatest differences add up to less than 0 has no solution.
//
// Only the sum is proved, and it is enough whatever way led to the cycle. That one is found soon is a matter of time
// alone: a line lowers its first unknown again only after its second unknown fell, in the same round or the one
// before. So the way back from an unknown that the k-th round lowered has k unknowns that were lowered, and where k is
// greater than the number of these unknowns it runs into a cycle. Each unknown on a cycle was lowered by the next
// one, so its sum is below 0. Hence there is at most one round more than there are unknowns that stand first in lines.

ghost use Rattle.std.specs.Prelude.{◌≡◌, ◌≤◌, ◌+◌, ◌*◌, ◌+ℤ◌, ℕ, ℤ, unsigned_abs, All, Contains, IsTrue, IfSome, Some};
ghost use Rattle.ft_diff.specs.meaning.Differences.{Meets, difference_most};

use crate::diff::Diff;

// The line that lowered an unknown last.
fn line_of(list: &[Diff], lowered_by: &[usize], unknown: u32) -> Option<Diff>
    ensures { IfSome result (λ line. Contains list.now line × (line.x ≡ Some unknown)) }
{
    let at = *lowered_by.get(unknown as usize)?;
    let line = *list.get(at)?;
    if line.x == Some(unknown) {
        Some(line)
    } else {
        None
    }
}

/// The unknown that is reached over as many lines back as there are lines. Where it isn't the end of its way, it
/// stands on a cycle.
pub fn far_back(list: &[Diff], lowered_by: &[usize], start: u32) -> u32 {
    let mut unknown = start;
    for _turn in 0..list.len() {
        let Some(line) = line_of(list, lowered_by, unknown) else {
            return unknown;
        };
        let Some(next) = line.y else {
            return unknown;
        };
        unknown = next;
    }
    unknown
}

fn plus(total: i128, c: i64, count: usize) -> i128
    requires total { unsigned_abs total ≤ difference_most * count }
    requires c { unsigned_abs c ≤ difference_most }
    ensures sum { result ≡ total +ℤ c }
    ensures small { unsigned_abs result ≤ difference_most * (count + 1) }
{
    total + i128::from(c)
}

/// Whether the lines that lowered unknowns last lead from this unknown back to it with a sum below 0.
pub fn is_negative_cycle(list: &[Diff], lowered_by: &[usize], start: u32) -> bool
    requires { All (λ line. unsigned_abs line.c ≤ difference_most) list.now }
    ensures { IsTrue result → (x : ℕ → ℤ) → All (Meets x) list.now → ⊥ }
{
    let mut unknown = start;
    let mut total = 0;
    for turn in 0..list.len() {
        let Some(line) = line_of(list, lowered_by, unknown) else {
            return false;
        };
        let Some(next) = line.y else {
            return false;
        };
        total = plus(total, line.c, turn);
        unknown = next;
        if unknown == start {
            return total < 0;
        }
    }
    false
}
