ghost use Rattle.std.specs.Prelude.{◌<◌, ℕ, Contains, IsTrue};
ghost use Rattle.ft_core.specs.meaning.Order.{AreItems};

use ft_base::{List, NoMemory};
use ft_core::{OrderFault, order};
use std::alloc::Global;
use std::process::Abort;
use std::test::Fail;

fn are_below(items: &[u32], count: usize) -> bool
    ensures { IsTrue result → (q : ℕ) → Contains items.now q → q < count }
{
    'items: for item in items {
        if *item as usize >= count {
            return false;
        }
    }
    true
}

fn are_items(reads: &List<List<u32>>) -> bool
    ensures { IsTrue result → AreItems reads.now }
{
    'rows: for row in reads.as_slice() {
        if !are_below(row.as_slice(), reads.len()) {
            return false;
        }
    }
    true
}

/// Whether there is an order, and the order or the circle.
fn answer(alloc: Global, reads: &List<List<u32>>) -> Result<(bool, List<u32>), NoMemory> {
    if reads.len() > 10_000 || !are_items(reads) {
        return Ok((false, List::new(alloc)));
    }
    match order(alloc, reads) {
        Ok(items) => Ok((true, items)),
        Err(OrderFault::Cycle { items }) => Ok((false, items)),
        Err(OrderFault::NoMemory) => Err(NoMemory),
    }
}

/// The digits of a word as items.
fn items_of(alloc: Global, word: &str) -> Result<List<u32>, NoMemory> {
    let mut items = List::new(alloc);
    for byte in word.bytes() {
        if byte.is_ascii_digit() {
            items.push(u32::from(byte) - 48)?;
        }
    }
    Ok(items)
}

/// What each item reads, a word for each, and one without digits for none.
fn reads_of(alloc: Global, line: &str) -> Result<List<List<u32>>, NoMemory> {
    let mut reads = List::new(alloc);
    for word in line.split_whitespace() {
        reads.push(items_of(alloc, word)?)?;
    }
    Ok(reads)
}

// What each item reads, whether there is an order, and the one order or the one circle.
const ORDERS: [(&str, bool, &str); 10] = [
    ("", true, ""),
    ("-", true, "0"),
    // one that reads itself, and two that read each other
    ("0", false, "0"),
    ("1 0", false, "01"),
    // a chain, and a diamond of double reads one side of which reads the other
    ("2 - 3 1", true, "1320"),
    ("1212 33 313 -", true, "3120"),
    // 0 lies between two circles
    ("7 25 - 0 34 6 502 8 72", false, "4"),
    ("7 25 - 0 3 6 502 8 72", false, "56"),
    // two circles with an item in common
    ("- 30 3 021", false, "13"),
    // the same after a self-read
    ("- 1 3 021", false, "1"),
];

#[test]
fn orders_or_shows_the_first_circle(rt: HostRuntime) -> Result<(), Fail> {
    for (line, ordered, items) in ORDERS {
        let reads = reads_of(rt.alloc(), line)?;
        let (found, answered) = answer(rt.alloc(), &reads)?;
        let wanted = items_of(rt.alloc(), items)?;
        assert_eq!(rt;
            (found, answered.as_slice()),
            (ordered, wanted.as_slice()),
            "{line}"
        );
    }
    Ok(())
}

/// Ten thousand items, of which each reads the one that comes so many places later, but for one that reads none, if there is such.
fn chain(alloc: Global, step: u32, end: u32) -> Result<List<List<u32>>, NoMemory> {
    let mut reads = List::new(alloc);
    for item in 0..10_000u32 {
        let mut row = List::new(alloc);
        if item != end {
            row.push(item.wrapping_add(step) % 10_000)?;
        }
        reads.push(row)?;
    }
    Ok(reads)
}

// How far each of ten thousand items reads, the one that reads none, whether there is an order, and its first and its last item.
const CHAINS: [(u32, u32, bool, u32, u32); 3] = [
    // each reads the next
    (1, 9_999, true, 9_999, 0),
    // each reads the one before
    (9_999, 0, true, 0, 9_999),
    // each reads the next, and the last the first
    (1, 10_000, false, 0, 9_999),
];

#[test]
fn takes_ten_thousand_items(rt: HostRuntime) -> Result<(), Fail> {
    for (step, end, ordered, first, last) in CHAINS {
        let reads = chain(rt.alloc(), step, end)?;
        let (found, items) = answer(rt.alloc(), &reads)?;
        assert_eq!(rt; (found, items.len()), (ordered, 10_000));
        let ends = (
            items.as_slice().first().copied(),
            items.as_slice().last().copied(),
        );
        assert_eq!(rt; ends, (Some(first), Some(last)));
    }
    Ok(())
}
