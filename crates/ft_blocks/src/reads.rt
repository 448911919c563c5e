ghost use Rattle.std.specs.Prelude.{◌≡◌, ◌<◌, ℕ, [], Contains, length, map, slice_index_or, IfOk, OnOk};
ghost use Rattle.ft_blocks.specs.meaning.Cycles.{block_names, block_reads};

use ft_base::{Duplicate, List, NoMemory, Text};
use ft_core::Block;
use std::alloc::Global;

// The blocks whose invariants these are.
fn used_blocks(alloc: Global, uses: &[(u32, u32)]) -> Result<List<u32>, NoMemory>
    ensures { IfOk result (λ list. list ≡ map (λ used. used.0) uses.now) }
{
    let mut list = List::new(alloc);
    for used in uses {
        list.push(used.0)?;
    }
    Ok(list)
}

/// The blocks that each block uses, as `order` takes them.
pub fn block_reads(alloc: Global, blocks: &[Block]) -> Result<List<List<u32>>, NoMemory>
    ensures { IfOk result (λ reads. reads ≡ block_reads blocks.now) }
{
    let mut reads = List::new(alloc);
    for block in blocks {
        reads.push(used_blocks(alloc, block.uses.as_slice())?)?;
    }
    Ok(reads)
}

// The name of the block at this place.
fn name_at(alloc: Global, blocks: &[Block], place: u32) -> Result<Text, NoMemory>
    requires { place < length blocks.now }
    ensures { IfOk result (λ name. name ≡ slice_index_or (block_names blocks.now) place []) }
{
    blocks[place as usize].name.duplicate(alloc)
}

/// The names of the blocks at these places.
pub fn names_at(alloc: Global, blocks: &[Block], places: &[u32]) -> Result<List<Text>, NoMemory>
    requires { (k : ℕ) → Contains places.now k → k < length blocks.now }
    ensures { IfOk result (λ names. names ≡ map (λ k. slice_index_or (block_names blocks.now) k []) places.now) }
{
    let mut names = List::new(alloc);
    for place in places {
        names.push(name_at(alloc, blocks, *place)?)?;
    }
    Ok(names)
}
