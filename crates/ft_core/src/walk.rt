// A depth-first walk that finishes each item after all that it reads, and finds those that lie on circles.
//
// The items that were met and aren't finished are the path, cut into components. The items of a component lead to each
// other and to those of later components. A read to an item of the path closes a circle: the components from there on
// are joined. A read to a new item makes it the last component. Once no read of the last component waits, its items are
// finished, and they lie on circles if they are two or more or the one reads itself. Each item and each read is taken
// up once. Source: the path-based search for strong components of Purdom and Munro, as Gabow gives it.

ghost use Rattle.std.specs.Prelude.{◌≡◌, ◌<◌, ◌≤◌, ◌⊎◌, ℕ, [], ◌∷◌, length, drop, slice_get, Some, None, IfOk, OnOk, IsTrue, IsFalse};
ghost use Rattle.ft_core.specs.meaning.Order.{AreItems, ReadsItem};
ghost use Rattle.ft_core.specs.walk.Walk.{IsIn, IsLone, Walks, Advances, Finishes, IsNew, IsOpened, IsTop, Joins, IsLeast, IsLeastAfter};
ghost use Rattle.ft_core.specs.walk.Walk.{BeginsBy, left};
ghost use Rattle.ft_core.specs.declared.walk.Component.{Component};

use ft_base::{List, NoMemory};
use std::alloc::Global;

/// How far the walk is with an item.
#[derive(Clone, Copy, Drop)]
pub enum Stage {
    /// Not met yet.
    New,
    /// On the path, at this place.
    Open(usize),
    /// In the order, at this place.
    Done(usize),
}

/// A part of the path, from its first item to the next part's. Its items all lead to each other.
#[derive(Clone, Copy, Drop)]
pub struct Component {
    /// The place of its first item on the path.
    pub first: usize,
    /// The place of its first read among those that wait.
    pub pending: usize,
}

/// How far the walk is.
#[derive(Drop)]
pub struct Walk {
    stages: List<Stage>,
    /// The items that were met and aren't finished.
    path: List<u32>,
    components: List<Component>,
    /// The reads of the path's items that are still to be followed.
    pending: List<u32>,
    /// The finished items. All that they read is finished.
    pub order: List<u32>,
    /// The least finished item that lies on a circle.
    pub least: Option<u32>,
}

fn reads_itself(reads: &List<List<u32>>, item: u32) -> bool
    requires { item < length reads.now }
    ensures yes { IsTrue result → ReadsItem reads.now item item }
    ensures no { IsFalse result → ReadsItem reads.now item item → ⊥ }
{
    reads.get(item as usize).as_slice().contains(&item)
}

// Whether the items of a component lie on circles.
fn are_circular(reads: &List<List<u32>>, items: &[u32]) -> bool
    requires { (k p : ℕ) → slice_get items.now p ≡ Some k → k < length reads.now }
    ensures yes { IsTrue result → (k : ℕ) → items.now ≡ k ∷ [] → ReadsItem reads.now k k }
    ensures no { IsFalse result → 0 < length items.now
        → (k : ℕ) × (items.now ≡ k ∷ []) × (ReadsItem reads.now k k → ⊥) }
{
    match items {
        [item] => reads_itself(reads, *item),
        _ => true,
    }
}

// The least of these items and one more.
fn least_of(least: Option<u32>, items: &[u32]) -> Option<u32>
    ensures { IsLeast least result items.now (length items.now) }
{
    let mut result = least;
    'items: for item in items {
        result = lesser(result, *item);
    }
    result
}

// The least item that is known to lie on a circle, with the items of one more component.
fn least_after(reads: &List<List<u32>>, least: Option<u32>, items: &[u32]) -> Option<u32>
    requires { (k p : ℕ) → slice_get items.now p ≡ Some k → k < length reads.now }
    ensures { IsLeastAfter reads.now items.now least result }
{
    if are_circular(reads, items) {
        least_of(least, items)
    } else {
        least
    }
}

// The lesser of the least item so far and one more.
fn lesser(least: Option<u32>, item: u32) -> Option<u32>
    ensures from { (k : ℕ) → result ≡ Some k → (least ≡ Some k) ⊎ (item ≡ k) }
    ensures below { (k : ℕ) → IsLone result k → IsLone least k × (k < item) }
{
    match least {
        Some(least) if least < item => Some(least),
        _ => Some(item),
    }
}

// Puts the items at the end of the order.
fn finish(stages: &mut List<Stage>, order: &mut List<u32>, items: &[u32]) -> Result<(), NoMemory>
    requires items { (k p : ℕ) → slice_get items.now p ≡ Some k → k < length stages.old }
    requires once { (k p r : ℕ) → slice_get items.now p ≡ Some k → slice_get items.now r ≡ Some k → p ≡ r }
    ensures { OnOk result (Finishes items.now stages.old stages.new order.old order.new) }
{
    'items: for item in items {
        stages.set(*item as usize, Stage::Done(order.len()));
        order.push(*item)?;
    }
    Ok(())
}

// The items from this place on.
fn rest(path: &List<u32>, first: usize) -> &[u32]
    requires { first ≤ length path.now }
    ensures { result.now ≡ drop first path.now }
{
    &path.as_slice()[first..]
}

// The last component of the path.
fn top(components: &List<Component>) -> Component
    requires { 0 < length components.now }
    ensures { IsTop components.now result }
{
    *components.get(components.len() - 1)
}

// Joins the component that this place of the path lies in with all later ones.
fn join(components: &mut List<Component>, at: usize)
    requires { BeginsBy at components.old }
    ensures joined { Joins at components.old components.new }
    ensures top { (c : Component) → IsTop components.new c → c.first ≤ at }
{
    'components: while top(components).first > at {
        components.truncate(components.len() - 1);
    }
}

impl Walk {
    // No item is met.
    fn begin(alloc: Global, reads: &List<List<u32>>) -> Result<Walk, NoMemory>
        ensures walk { IfOk result (Walks reads.now None) }
        ensures empty { IfOk result (λ walk. walk.components ≡ []) }
    {
        Ok(Walk {
            stages: List::from_vec(Vec::from_elem(alloc, Stage::New, reads.len())?),
            path: List::new(alloc),
            components: List::new(alloc),
            pending: List::new(alloc),
            order: List::new(alloc),
            least: None,
        })
    }

    // Puts a new item on the path, as a component of its own.
    fn open(&mut self, reads: &List<List<u32>>, item: u32) -> Result<(), NoMemory>
        requires stage { item < length self.old.stages }
        requires item { item < length reads.now }
        ensures { OnOk result (IsOpened reads.now item self.old self.new) }
    {
        let at = self.path.len();
        self.stages.set(item as usize, Stage::Open(at));
        self.path.push(item)?;
        let pending = self.pending.len();
        self.components.push(Component { first: at, pending })?;
        self.pending.extend(reads.get(item as usize).as_slice())
    }

    // Finishes the last component, none of whose reads waits.
    fn close(&mut self, reads: &List<List<u32>>) -> Result<(), NoMemory>
        requires walk { Walks reads.now None self.old }
        requires some { 0 < length self.old.components }
        requires none { (c : Component) → IsTop self.old.components c → length self.old.pending ≤ c.pending }
        ensures walk { OnOk result (Walks reads.now None self.new) }
        ensures advances { OnOk result (Advances self.old self.new) }
        ensures less { OnOk result (left reads.now self.new < left reads.now self.old) }
    {
        let first = top(&self.components).first;
        let items = rest(&self.path, first);
        self.least = least_after(reads, self.least, items);
        finish(&mut self.stages, &mut self.order, items)?;
        self.path.truncate(first);
        self.components.truncate(self.components.len() - 1);
        Ok(())
    }

    // Follows a read of the last component to this item.
    fn follow(&mut self, reads: &List<List<u32>>, item: u32) -> Result<(), NoMemory>
        requires walk { Walks reads.now (Some item) self.old }
        requires item { item < length reads.now }
        ensures walk { OnOk result (Walks reads.now None self.new) }
        ensures advances { OnOk result (Advances self.old self.new) }
        ensures less { OnOk result (left reads.now self.new ≤ left reads.now self.old) }
    {
        match *self.stages.get(item as usize) {
            Stage::New => self.open(reads, item),
            Stage::Open(at) => {
                join(&mut self.components, at);
                Ok(())
            }
            Stage::Done(_) => Ok(()),
        }
    }

    // Follows the last read of the last component, or finishes the component.
    fn step(&mut self, reads: &List<List<u32>>) -> Result<(), NoMemory>
        requires bounded { AreItems reads.now }
        requires walk { Walks reads.now None self.old }
        requires some { 0 < length self.old.components }
        ensures walk { OnOk result (Walks reads.now None self.new) }
        ensures advances { OnOk result (Advances self.old self.new) }
        ensures less { OnOk result (left reads.now self.new < left reads.now self.old) }
    {
        let count = self.pending.len();
        if top(&self.components).pending < count {
            let item = *self.pending.get(count - 1);
            self.pending.truncate(count - 1);
            self.follow(reads, item)
        } else {
            self.close(reads)
        }
    }

    // Walks on until the path is empty.
    fn run(&mut self, reads: &List<List<u32>>) -> Result<(), NoMemory>
        requires bounded { AreItems reads.now }
        requires walk { Walks reads.now None self.old }
        ensures walk { OnOk result (Walks reads.now None self.new) }
        ensures advances { OnOk result (Advances self.old self.new) }
        ensures empty { OnOk result (self.new.components ≡ []) }
    {
        'steps: while !self.components.is_empty() {
            self.step(reads)?;
        }
        Ok(())
    }

    // Finishes an item and all that it leads to.
    fn walk_from(&mut self, reads: &List<List<u32>>, root: u32) -> Result<(), NoMemory>
        requires bounded { AreItems reads.now }
        requires item { root < length reads.now }
        requires walk { Walks reads.now None self.old }
        requires empty { self.old.components ≡ [] }
        ensures walk { OnOk result (Walks reads.now None self.new) }
        ensures advances { OnOk result (Advances self.old self.new) }
        ensures empty { OnOk result (self.new.components ≡ []) }
        ensures met { OnOk result (IsNew self.new.stages root → ⊥) }
    {
        if let Stage::New = *self.stages.get(root as usize) {
            self.open(reads, root)?;
            self.run(reads)?;
        }
        Ok(())
    }

    /// The walk from every item, to its end.
    pub fn over(alloc: Global, reads: &List<List<u32>>) -> Result<Walk, NoMemory>
        requires count { length reads.now ≤ 10000 }
        requires bounded { AreItems reads.now }
        ensures walk { IfOk result (Walks reads.now None) }
        ensures all { IfOk result (λ walk. (k : ℕ) → k < length reads.now → IsIn walk.order k) }
    {
        let mut walk = Walk::begin(alloc, reads)?;
        'roots: for root in 0..reads.len() as u32 {
            walk.walk_from(reads, root)?;
        }
        Ok(walk)
    }
}
