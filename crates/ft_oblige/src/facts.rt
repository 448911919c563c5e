//! Which fact an obligation is about, by its number.
ghost use Rattle.std.specs.Prelude.{◌≤◌, ◌<◌, ◌*◌, length};
ghost use Rattle.std.specs.List.{sum_by};
ghost use Rattle.ft_oblige.specs.meaning.Obligations.{obligation_count};
ghost use Rattle.ft_oblige.specs.building.NthFact.{IsHalved, IsNthFact};
ghost use Rattle.ft_oblige.specs.meaning.Facts.{IsFactNumbered};

use ft_core::{Block, Tables};

/// A fact by the place of its block and its place there, at a scan that begins or follows another.
#[derive(Clone, Copy, PartialEq, Eq, Drop)]
pub struct FactAt {
    pub block: u32,
    pub fact: u32,
    pub anew: bool,
}

// The place of the block and of the fact in it, of the n-th fact of all, from 0.
fn nth_fact(blocks: &[Block], nth: usize) -> (u32, u32)
    requires few { length blocks.now ≤ 400 }
    requires facts { sum_by (λ block. length block.facts) blocks.now ≤ 400 }
    requires there { nth < sum_by (λ block. length block.facts) blocks.now }
    ensures { IsNthFact blocks.now nth result.0 result.1 }
{
    let mut left = nth;
    for (at, block) in blocks.iter().enumerate() {
        if left < block.facts.len() {
            return (at as u32, left as u32);
        }
        left -= block.facts.len();
    }
    unreachable!()
}

// Half of a number, and whether it is even.
fn halved(number: usize) -> (usize, bool)
    ensures { IsHalved number result.0 result.1 }
{
    match number % 2 {
        0 => (number / 2, true),
        _ => (number / 2, false),
    }
}

/// The fact that the obligation with this number is about, which is above those of tables, and whether its scan begins.
pub fn fact_at(tables: &Tables, number: u32) -> FactAt
    requires above { 3 * length tables.now.tables < number }
    requires below { number ≤ obligation_count tables.now }
    ensures { IsFactNumbered tables.now number result }
{
    let before = (number - 1) as usize - 3 * tables.tables.len();
    let (nth, anew) = halved(before);
    let (block, fact) = nth_fact(tables.blocks.as_slice(), nth);
    FactAt { block, fact, anew }
}
