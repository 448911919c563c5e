use ft_base::{Boxed, Duplicate, List, NoMemory};
use ft_core::{History, Label, State};
use ft_pool::Pool;
use std::alloc::Global;
use std::test::Fail;

#[test]
fn lists_are_copied(rt: HostRuntime) -> Result<(), Fail> {
    let mut list = List::copy_of(rt.alloc(), &[1i64, 2])?;
    list.push(3)?;
    list.extend(&[4, 5])?;
    let copy = Boxed::new(rt.alloc(), list)?.duplicate(rt.alloc())?;
    assert_eq!(rt; copy.get().as_slice(), [1, 2, 3, 4, 5].as_slice());
    Ok(())
}

#[test]
fn histories_are_copied(rt: HostRuntime) -> Result<(), Fail> {
    let mut history = History::new(rt.alloc());
    history.add(&[1, -2, 3])?;
    history.add(&[])?;
    let copy = history.duplicate(rt.alloc())?;
    assert_eq!(rt; copy.scans(), 2);
    assert_eq!(rt; copy.row(0), [1, -2, 3].as_slice());
    assert_eq!(rt; copy.row(1), [].as_slice());
    Ok(())
}

/// The state of one variable.
fn state_of(alloc: Global, name: &[u8], value: i64) -> Result<State, NoMemory> {
    let name = List::copy_of(alloc, name)?;
    let mut labels = List::new(alloc);
    labels.push(Label {
        name,
        members: List::new(alloc),
    })?;
    let values = List::copy_of(alloc, &[value])?;
    Ok(State { labels, values })
}

#[test]
fn states_are_copied(rt: HostRuntime) -> Result<(), Fail> {
    let state = state_of(rt.alloc(), b"pressure", 2000)?;
    let copy = state.duplicate(rt.alloc())?;
    assert_eq!(rt; copy.labels.len(), 1);
    assert_eq!(rt; copy.labels.get(0).name.as_slice(), b"pressure".as_slice());
    assert_eq!(rt; copy.values.as_slice(), [2000].as_slice());
    Ok(())
}

#[test]
fn pools_open_where_there_is_memory(rt: HostRuntime) -> Result<(), Fail> {
    let mut pool = Pool::open(rt.alloc(), 2)?;
    let seven = pool.push(7i64);
    let eight = pool.push(8);
    assert_eq!(rt; (pool.get(seven), pool.get(eight), pool.spare()), (7, 8, 0));
    for (room, opens) in [(40_000_000, true), (1 << 60, false), (usize::MAX, false)] {
        assert_eq!(rt; Pool::<u64>::open(rt.alloc(), room).is_ok(), opens);
    }
    Ok(())
}
