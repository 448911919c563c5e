ghost use Rattle.std.specs.Prelude.{◌≡◌, length, All, IsTrue, IfOk};
ghost use Rattle.ft_diff.specs.meaning.Differences.{HasUnknown, IsOver};

use ft_base::{List, NoMemory, Span};
use ft_diff::{Diff, DiffRoom, differences};
use ft_linear::Area;
use std::alloc::Global;
use std::test::Fail;

fn has_unknown(count: usize, unknown: Option<u32>) -> bool
    ensures { IsTrue result → HasUnknown count unknown }
{
    match unknown {
        Some(unknown) => (unknown as usize) < count,
        None => true,
    }
}

fn is_over(count: usize, line: Diff) -> bool
    ensures { IsTrue result → IsOver count line }
{
    has_unknown(count, line.x)
        && has_unknown(count, line.y)
        && line.c.unsigned_abs() <= 5_000_000_000_000_000
}

fn are_over(count: usize, list: &[Diff]) -> bool
    ensures { IsTrue result → All (IsOver count) list.now }
{
    for line in list {
        if !is_over(count, *line) {
            return false;
        }
    }
    true
}

/// Three unknowns from 0 to 9.
fn area_of(alloc: Global) -> Result<Area, NoMemory> {
    let mut spans = List::new(alloc);
    if let Some(span) = Span::new(0, 9) {
        for _unknown in 0..3 {
            spans.push(span)?;
        }
    }
    Ok(Area { spans })
}

/// `x - y <= a`, `y - z <= b` and `z - x <= c`
fn list_of(alloc: Global, a: i64, b: i64, c: i64) -> Result<List<Diff>, NoMemory> {
    let mut list = List::new(alloc);
    for (x, y, c) in [(0, 1, a), (1, 2, b), (2, 0, c)] {
        list.push(Diff {
            x: Some(x),
            y: Some(y),
            c,
        })?;
    }
    Ok(list)
}

/// The greatest solution, by a room that has been used. None where there is none.
fn solution(list: &[Diff], area: &Area, room: &mut DiffRoom) -> Option<(i64, i64, i64)>
    requires { length room.old ≡ 3 }
    ensures { length room.new ≡ 3 }
{
    let count = area.spans.len();
    if count == 3 && are_over(count, list) && differences(list, area, room) {
        Some((room.value(0), room.value(1), room.value(2)))
    } else {
        None
    }
}

// The differences, and the greatest solution.
const SOLVED: [(i64, i64, i64, Option<(i64, i64, i64)>); 5] = [
    (0, 0, 0, Some((9, 9, 9))),
    (-3, -3, 9, Some((3, 6, 9))),
    // cycles of sum 0 and of sum -1
    (-3, 2, 1, Some((6, 9, 7))),
    (-3, 1, 1, None),
    // no room for ten between 0 and 9
    (-5, -5, 90, None),
];

#[test]
fn solves_differences(rt: HostRuntime) -> Result<(), Fail> {
    let area = area_of(rt.alloc())?;
    let mut room = DiffRoom::open(rt.alloc(), 3, 2)?;
    'rows: for (a, b, c, greatest) in SOLVED {
        let list = list_of(rt.alloc(), a, b, c)?;
        assert_eq!(rt;
            solution(list.as_slice(), &area, &mut room),
            greatest,
            "{a} {b} {c}"
        );
    }
    Ok(())
}
