//! New numbers for the names that are marked.
ghost use Rattle.std.specs.Prelude.{◌≡◌, ◌+◌, IfOk, if◌then◌else◌};
ghost use Rattle.ft_claims.specs.meaning.Areas.{counts};

use ft_base::{List, NoMemory};
use std::alloc::Global;

// One more where a place is marked. A number past 2^32 is refused as want of memory.
fn after(next: u32, mark: bool) -> Result<u32, NoMemory>
    ensures { IfOk result (λ number. number ≡ if mark then next + 1 else next) }
{
    if !mark {
        return Ok(next);
    }
    match next.checked_add(1) {
        Some(number) => Ok(number),
        None => Err(NoMemory),
    }
}

/// For each place how many marked ones stand before it: the new number of one that is marked.
pub fn numbers_by(alloc: Global, marks: &[bool]) -> Result<List<u32>, NoMemory>
    ensures { IfOk result (λ list. list ≡ counts 0 marks.now) }
{
    let mut list = List::new(alloc);
    let mut next = 0;
    for mark in marks {
        list.push(next)?;
        next = after(next, *mark)?;
    }
    Ok(list)
}
