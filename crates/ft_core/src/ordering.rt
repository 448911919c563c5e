ghost use Rattle.std.specs.Prelude.{◌≡◌, ◌≤◌, ℕ, List, length, IfOk, IfErr};
ghost use Rattle.ft_core.specs.meaning.Order.{AreItems, IsOrder, IsCircle, IsCause, HasRank, OrderGivesRank, RankExcludesCircles};

use crate::circle::circle_through;
use crate::walk::Walk;
use ft_base::{List, NoMemory};
use std::alloc::Global;

/// Why items have no order.
#[derive(Drop)]
pub enum OrderFault {
    /// These items read each other in a circle.
    Cycle { items: List<u32> },
    /// Memory was refused.
    NoMemory,
}

impl From<NoMemory> for OrderFault {
    ghost use Rattle.ft_core.specs.declared.ordering.OrderFault.TheVariants.{NoMemory};

    ghost from_gives = { λ _ fault. fault ≡ NoMemory };

    fn from(_refused: NoMemory) -> OrderFault {
        OrderFault::NoMemory
    }
}

/// An order of items in which each reads only earlier ones, or a circle. Item k reads the items of list k, from 0.
/// At most 10,000 lists. With the order a number for each item, lower for what it reads, is known.
///
/// A circle: each of its items reads the next, the last reads the first, none stands twice, and the first is the
/// least item that lies on any circle. It takes time in proportion to the items and reads together.
pub fn order(alloc: Global, reads: &List<List<u32>>) -> Result<List<u32>, OrderFault>
    requires count { length reads.now ≤ 10000 }
    requires bounded { AreItems reads.now }
    ensures ordered { IfOk result (IsOrder reads.now) }
    ensures ranked { IfOk result (λ _. (rank : ℕ → ℕ) × HasRank reads.now rank) }
    ensures acyclic { IfOk result (λ _. (items : List ℕ) → IsCircle reads.now items → ⊥) }
    ensures circle { IfErr result (IsCause reads.now) }
{
    let walk = Walk::over(alloc, reads)?;
    match walk.least {
        None => Ok(walk.order),
        Some(least) => {
            let items = circle_through(alloc, reads, least)?;
            Err(OrderFault::Cycle { items })
        }
    }
}

/// From an order comes a rank: each item reads only items of lower numbers.
pub fn order_gives_rank()
    ensures { OrderGivesRank }
{}

/// Where items have a rank, none of them read each other in a circle. So `order` answers no circle there.
pub fn rank_excludes_circles()
    ensures { RankExcludesCircles }
{}
