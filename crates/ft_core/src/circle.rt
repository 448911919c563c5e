// The search for a way from an item back to itself: what an item reads is met after it, each item once, until one that
// reads the start is found. Each item keeps the place of one that reads it, and these places give the way.

ghost use Rattle.std.specs.Prelude.{◌≡◌, ◌<◌, ◌+◌, length, slice_get, Some, IfOk, OnOk, IsTrue, IsFalse};
ghost use Rattle.ft_core.specs.meaning.Order.{AreItems, IsCircle};
ghost use Rattle.ft_core.specs.walk.Circles.{Leads, AreRead, IsEnd, Searches, unseen, IsMet};

use ft_base::{List, NoMemory};
use std::alloc::Global;

/// The items met on ways from a start.
#[derive(Drop)]
pub struct Search {
    met: List<u32>,
    /// For each but the first, the place of one that reads it.
    parents: List<usize>,
    /// For each item whether it was met.
    seen: List<bool>,
}

impl Search {
    // The start alone is met.
    fn begin(alloc: Global, reads: &List<List<u32>>, start: u32) -> Result<Search, NoMemory>
        requires { start < length reads.now }
        ensures { IfOk result (Searches reads.now start) }
    {
        let mut seen = List::from_vec(Vec::from_elem(alloc, false, reads.len())?);
        seen.set(start as usize, true);
        Ok(Search {
            met: List::copy_of(alloc, &[start])?,
            parents: List::copy_of(alloc, &[0])?,
            seen,
        })
    }

    // Meets an item that the one at the parent's place reads.
    fn meet(&mut self, item: u32, parent: usize) -> Result<(), NoMemory>
        requires { item < length self.old.seen }
        ensures { OnOk result (IsMet item parent self.old self.new) }
    {
        if !*self.seen.get(item as usize) {
            self.seen.set(item as usize, true);
            self.met.push(item)?;
            self.parents.push(parent)?;
        }
        Ok(())
    }

    // Meets what the item at this place reads, up to the start.
    fn follow(&mut self, reads: &List<List<u32>>, start: u32, at: usize) -> Result<bool, NoMemory>
        requires place { at < length self.old.met }
        requires bounded { AreItems reads.now }
        requires search { Searches reads.now start self.old }
        requires read { AreRead reads.now start self.old.met at }
        ensures search { OnOk result (Searches reads.now start self.new) }
        ensures left { OnOk result (length self.new.met + unseen self.new.seen ≡ length self.old.met + unseen self.old.seen) }
        ensures place { OnOk result (at < length self.new.met) }
        ensures found { IfOk result (λ found. IsTrue found → IsEnd reads.now start self.new.met at) }
        ensures read { IfOk result (λ found. IsFalse found → AreRead reads.now start self.new.met (at + 1)) }
    {
        let item = *self.met.get(at);
        'reads: for read in reads.get(item as usize).as_slice() {
            if *read == start {
                return Ok(true);
            }
            self.meet(*read, at)?;
        }
        Ok(false)
    }

    // The place of an item that reads the start.
    fn find_end(&mut self, reads: &List<List<u32>>, start: u32) -> Result<usize, NoMemory>
        requires bounded { AreItems reads.now }
        requires leads { Leads reads.now start start }
        requires search { Searches reads.now start self.old }
        ensures search { OnOk result (Searches reads.now start self.new) }
        ensures end { IfOk result (λ end. (end < length self.new.met) × IsEnd reads.now start self.new.met end) }
    {
        let mut at = 0;
        'places: while at < self.met.len() {
            if self.follow(reads, start, at)? {
                return Ok(at);
            }
            at += 1;
        }
        // all that the start leads to was met, and none of it reads the start
        unreachable!()
    }

    // The items on the way from the start to the one at the end.
    fn way(
        &self,
        alloc: Global,
        reads: &List<List<u32>>,
        start: u32,
        end: usize,
    ) -> Result<List<u32>, NoMemory>
        requires search { Searches reads.now start self.now }
        requires place { end < length self.now.met }
        requires end { IsEnd reads.now start self.now.met end }
        ensures circle { IfOk result (IsCircle reads.now) }
        ensures start { IfOk result (λ items. slice_get items 0 ≡ Some start) }
    {
        let mut items = Vec::new(alloc);
        let mut at = end;
        'back: while at > 0 {
            items.push(*self.met.get(at))?;
            at = *self.parents.get(at);
        }
        items.push(*self.met.get(0))?;
        items.reverse();
        Ok(List::from_vec(items))
    }
}

/// A circle that begins with an item that some way leads back to.
pub fn circle_through(
    alloc: Global,
    reads: &List<List<u32>>,
    start: u32,
) -> Result<List<u32>, NoMemory>
    requires bounded { AreItems reads.now }
    requires leads { Leads reads.now start start }
    ensures circle { IfOk result (IsCircle reads.now) }
    ensures start { IfOk result (λ items. slice_get items 0 ≡ Some start) }
{
    let mut search = Search::begin(alloc, reads, start)?;
    let end = search.find_end(reads, start)?;
    search.way(alloc, reads, start, end)
}
