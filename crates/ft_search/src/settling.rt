// Tightening the part at which a search stands, sweep by sweep.

ghost use Rattle.std.specs.Prelude.{◌≡◌, ◌≤◌, ◌<◌, ◌+◌, ◌∷◌, length, IfSome, IfNone};
ghost use Rattle.ft_base.specs.declared.three.Three.TheVariants.{Maybe};
ghost use Rattle.ft_linear.specs.meaning.Formula.{IsOver};
ghost use Rattle.ft_linear.specs.meaning.Marks.{AreJudged};
ghost use Rattle.ft_linear.specs.meaning.Part.{truth_of};
ghost use Rattle.ft_cert.specs.walk.Waiting.{first_of, rest_of};
ghost use Rattle.ft_search.specs.meaning.Spent.{enough_for};
ghost use Rattle.ft_search.specs.searching.Single.{IsTight};
ghost use Rattle.ft_search.specs.searching.Sizes.{others_for};
ghost use Rattle.ft_search.specs.searching.Space.{IsRoomFor, IsUnderWay};
ghost use Rattle.ft_search.specs.searching.Sweep.{IsOpen, IsSwept, tightened};

use crate::counts::Counts;
use crate::halving::{Single, is_half};
use crate::room::Room;
use crate::searching::go;
use crate::sweeping::{Pace, make_sweep, span_of};
use crate::turns::tight_turn;
use ft_base::Three;
use ft_linear::{Area, Formula, judge, sum_laws};

/// The truth of a part, and the counts with which a search stands there.
#[derive(Clone, Copy, Drop)]
pub(crate) struct Settled {
    pub(crate) truth: Three,
    pub(crate) counts: Counts,
}

/// After so many sweeps at a part a tightening that doesn't halve has to take off a good part of its unknown's values.
const SWEEPS: u32 = 4;

/// Keeps one tightening.
fn take_one(
    formula: &Formula,
    area: &Area,
    room: &mut Room,
    counts: &Counts,
    single: Single,
) -> Counts
    requires way { IsUnderWay formula.now area.now.spans room.old counts.now }
    requires some { 0 < length room.old.descent.parts }
    requires tight { IsTight formula.now (first_of room.old.descent.parts) single }
    requires by_halved { counts.now.tight < counts.now.halved + others_for room.old.budget }
    requires limit { counts.now.tight < enough_for room.old.budget + others_for room.old.budget }
    ensures way { IsUnderWay formula.now area.now.spans room.new result }
    ensures parts { room.new.descent.parts ≡ tightened (first_of room.old.descent.parts) single ∷ rest_of room.old.descent.parts }
    ensures tight { result.tight ≡ counts.now.tight + 1 }
    ensures halved { counts.now.halved ≤ result.halved }
    ensures nodes { length room.new.nodes.items ≡ length room.old.nodes.items + 1 }
    ensures judging { room.new.judging ≡ room.old.judging }
    ensures budget { room.new.budget ≡ room.old.budget }
    ensures splits { room.new.splits ≡ room.old.splits }
{
    let halves = is_half(span_of(room.descent.part(), single.unknown), single.span);
    let turn = tight_turn(single, halves);
    let more = counts.with(&turn);
    go(room, turn);
    more
}

/// Judges the part at which a search stands.
fn judge_first(formula: &Formula, area: &Area, room: &mut Room, counts: &Counts) -> Three
    requires way { IsUnderWay formula.now area.now.spans room.old counts.now }
    requires over { IsOver (length area.now.spans) formula.now }
    requires some { 0 < length room.old.descent.parts }
    ensures way { IsUnderWay formula.now area.now.spans room.new counts.now }
    ensures truth { result ≡ truth_of formula.now (first_of room.old.descent.parts) }
    ensures judged { AreJudged formula.now (first_of room.old.descent.parts) room.new.judging.marks }
    ensures parts { room.new.descent.parts ≡ room.old.descent.parts }
    ensures sweep { room.new.judging.sweep ≡ room.old.judging.sweep }
    ensures nodes { room.new.nodes ≡ room.old.nodes }
    ensures budget { room.new.budget ≡ room.old.budget }
    ensures splits { room.new.splits ≡ room.old.splits }
{
    judge(formula, room.descent.part(), &mut room.judging.marks)
}

/// Sweeps over the literals that are forced at the part at which a search stands, and that was judged last.
fn sweep_first(formula: &Formula, area: &Area, room: &mut Room, counts: &Counts, pace: Pace)
    requires way { IsUnderWay formula.now area.now.spans room.old counts.now }
    requires over { IsOver (length area.now.spans) formula.now }
    requires some { 0 < length room.old.descent.parts }
    requires judged { AreJudged formula.now (first_of room.old.descent.parts) room.old.judging.marks }
    ensures way { IsUnderWay formula.now area.now.spans room.new counts.now }
    ensures swept { IsSwept formula.now (first_of room.old.descent.parts) room.new.judging.sweep.made.items room.new.judging.sweep.part }
    ensures few { length room.new.judging.sweep.made.items ≤ pace.limit }
    ensures descent { room.new.descent ≡ room.old.descent }
    ensures marks { room.new.judging.marks ≡ room.old.judging.marks }
    ensures nodes { room.new.nodes ≡ room.old.nodes }
    ensures budget { room.new.budget ≡ room.old.budget }
    ensures splits { room.new.splits ≡ room.old.splits }
{
    make_sweep(
        formula,
        room.descent.part(),
        &room.judging.marks,
        &mut room.judging.sweep,
        pace,
    );
}

/// Judges the part to which a sweep leads.
fn judge_swept(formula: &Formula, area: &Area, room: &mut Room, counts: &Counts) -> Three
    requires way { IsUnderWay formula.now area.now.spans room.old counts.now }
    requires over { IsOver (length area.now.spans) formula.now }
    ensures way { IsUnderWay formula.now area.now.spans room.new counts.now }
    ensures truth { result ≡ truth_of formula.now room.old.judging.sweep.part }
    ensures judged { AreJudged formula.now room.old.judging.sweep.part room.new.judging.marks }
    ensures descent { room.new.descent ≡ room.old.descent }
    ensures sweep { room.new.judging.sweep ≡ room.old.judging.sweep }
    ensures nodes { room.new.nodes ≡ room.old.nodes }
    ensures budget { room.new.budget ≡ room.old.budget }
    ensures splits { room.new.splits ≡ room.old.splits }
{
    judge(formula, &room.judging.sweep.part, &mut room.judging.marks)
}

/// Keeps the tightenings of a sweep after which the part is still open.
fn take_all(formula: &Formula, area: &Area, room: &mut Room, counts: Counts) -> Counts
    requires way { IsUnderWay formula.now area.now.spans room.old counts }
    requires some { 0 < length room.old.descent.parts }
    requires swept { IsSwept formula.now (first_of room.old.descent.parts) room.old.judging.sweep.made.items room.old.judging.sweep.part }
    requires opened { IsOpen formula.now room.old.judging.sweep.part }
    requires made { 0 < length room.old.judging.sweep.made.items }
    requires by_halved { length room.old.judging.sweep.made.items + counts.tight ≤ counts.halved + others_for room.old.budget }
    requires limit { length room.old.judging.sweep.made.items + counts.tight ≤ enough_for room.old.budget + others_for room.old.budget }
    ensures way { IsUnderWay formula.now area.now.spans room.new result }
    ensures some { 0 < length room.new.descent.parts }
    ensures first { first_of room.new.descent.parts ≡ room.old.judging.sweep.part }
    ensures tight { counts.tight < result.tight }
    ensures judging { room.new.judging ≡ room.old.judging }
    ensures nodes { length room.old.nodes.items ≤ length room.new.nodes.items }
    ensures budget { room.new.budget ≡ room.old.budget }
    ensures splits { room.new.splits ≡ room.old.splits }
{
    sum_laws();
    let made = room.judging.sweep.made.len();
    let mut counts = counts;
    'places: for place in 0..made {
        let pool = &room.judging.sweep.made;
        let single = pool.get(pool.id(place));
        counts = take_one(formula, area, room, &counts, single);
    }
    counts
}

/// Keeps the tightenings of a sweep one by one, each after the part was judged, up to the first that closes it.
fn take_some(formula: &Formula, area: &Area, room: &mut Room, counts: Counts) -> Settled
    requires way { IsUnderWay formula.now area.now.spans room.old counts }
    requires over { IsOver (length area.now.spans) formula.now }
    requires some { 0 < length room.old.descent.parts }
    requires swept { IsSwept formula.now (first_of room.old.descent.parts) room.old.judging.sweep.made.items room.old.judging.sweep.part }
    requires opened { IsOpen formula.now (first_of room.old.descent.parts) }
    requires made { 0 < length room.old.judging.sweep.made.items }
    requires by_halved { length room.old.judging.sweep.made.items + counts.tight ≤ counts.halved + others_for room.old.budget }
    requires limit { length room.old.judging.sweep.made.items + counts.tight ≤ enough_for room.old.budget + others_for room.old.budget }
    ensures way { IsUnderWay formula.now area.now.spans room.new result.counts }
    ensures some { 0 < length room.new.descent.parts }
    ensures truth { result.truth ≡ truth_of formula.now (first_of room.new.descent.parts) }
    ensures judged { AreJudged formula.now (first_of room.new.descent.parts) room.new.judging.marks }
    ensures tight { counts.tight < result.counts.tight }
    ensures nodes { length room.old.nodes.items ≤ length room.new.nodes.items }
    ensures budget { room.new.budget ≡ room.old.budget }
    ensures splits { room.new.splits ≡ room.old.splits }
{
    sum_laws();
    let made = room.judging.sweep.made.len();
    let mut settled = Settled {
        truth: Three::Maybe,
        counts,
    };
    'places: for place in 0..made {
        let pool = &room.judging.sweep.made;
        let single = pool.get(pool.id(place));
        let more = take_one(formula, area, room, &settled.counts, single);
        settled = Settled {
            truth: judge_first(formula, area, room, &more),
            counts: more,
        };
        if settled.truth.is_no() {
            return settled;
        }
    }
    settled
}

/// Sweeps once over the literals that are forced at the part at which a search stands. None where nothing was tightened.
fn sweep_once(
    formula: &Formula,
    area: &Area,
    room: &mut Room,
    counts: Counts,
    brisk: bool,
) -> Option<Settled>
    requires way { IsUnderWay formula.now area.now.spans room.old counts }
    requires over { IsOver (length area.now.spans) formula.now }
    requires some { 0 < length room.old.descent.parts }
    requires truth { truth_of formula.now (first_of room.old.descent.parts) ≡ Maybe }
    requires judged { AreJudged formula.now (first_of room.old.descent.parts) room.old.judging.marks }
    ensures way { IfSome result (λ s. IsUnderWay formula.now area.now.spans room.new s.counts) }
    ensures some { 0 < length room.new.descent.parts }
    ensures truth { IfSome result (λ s. s.truth ≡ truth_of formula.now (first_of room.new.descent.parts)) }
    ensures judged { AreJudged formula.now (first_of room.new.descent.parts) room.new.judging.marks }
    ensures tight { IfSome result (λ s. counts.tight < s.counts.tight) }
    ensures none { IfNone result (IsUnderWay formula.now area.now.spans room.new counts) }
    ensures same { IfNone result (room.new.descent.parts ≡ room.old.descent.parts) }
    ensures nodes { length room.old.nodes.items ≤ length room.new.nodes.items }
    ensures budget { room.new.budget ≡ room.old.budget }
    ensures splits { room.new.splits ≡ room.old.splits }
{
    let limit = counts.left(room.budget) as usize;
    sweep_first(formula, area, room, &counts, Pace { limit, brisk });
    if room.judging.sweep.made.len() == 0 {
        return None;
    }
    let truth = judge_swept(formula, area, room, &counts);
    if truth.is_no() {
        return Some(take_some(formula, area, room, counts));
    }
    let counts = take_all(formula, area, room, counts);
    Some(Settled { truth, counts })
}

/// Tightens the part at which a search stands by sweeps, until nothing changes, the room for it is used or the part is closed.
/// Where it is to be brisk, each tightening has to take off a good part of its unknown's values from the first sweep on.
pub(crate) fn settle(
    formula: &Formula,
    area: &Area,
    room: &mut Room,
    counts: Counts,
    brisk: bool,
) -> Settled
    requires way { IsUnderWay formula.now area.now.spans room.old counts }
    requires over { IsOver (length area.now.spans) formula.now }
    requires some { 0 < length room.old.descent.parts }
    ensures way { IsUnderWay formula.now area.now.spans room.new result.counts }
    ensures some { 0 < length room.new.descent.parts }
    ensures truth { result.truth ≡ truth_of formula.now (first_of room.new.descent.parts) }
    ensures judged { AreJudged formula.now (first_of room.new.descent.parts) room.new.judging.marks }
    ensures nodes { length room.old.nodes.items ≤ length room.new.nodes.items }
    ensures budget { room.new.budget ≡ room.old.budget }
    ensures splits { room.new.splits ≡ room.old.splits }
{
    let mut settled = Settled {
        truth: judge_first(formula, area, room, &counts),
        counts,
    };
    let mut rounds = if brisk { SWEEPS } else { 0 };
    'sweeps: while settled.truth == Three::Maybe {
        match sweep_once(formula, area, room, settled.counts, rounds >= SWEEPS) {
            Some(more) => settled = more,
            None => return settled,
        }
        if rounds < SWEEPS {
            rounds += 1;
        }
    }
    settled
}
