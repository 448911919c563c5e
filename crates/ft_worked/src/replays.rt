//! What the replayer answers on the relay, scan by scan, and on the mixer.
ghost use Rattle.std.specs.Prelude.{◌≡◌, true, IfOk};
ghost use Rattle.ft_worked.specs.Made.{IsMadeOf};
ghost use Rattle.ft_worked.specs.Mixer.{levels, mixer};
ghost use Rattle.ft_worked.specs.Relay.{hold_of, relay};
ghost use Rattle.ft_worked.specs.Running.{ReplaysLate};

use crate::law::mixer_is_worked;
use crate::mixer::mixer;
use crate::relay::relay;
use ft_base::NoMemory;
use ft_core::{History, Tables};
use ft_replay::{Replayed, Replayer, replay};
use std::alloc::Global;
use std::test::Fail;

/// A replayer of the late relay.
fn opened<'t>(alloc: Global, set: &'t Tables) -> Result<Replayer<'t>, NoMemory>
    requires { IsMadeOf (relay (hold_of true)) set.now }
    ensures { IfOk result ReplaysLate }
{
    let replayer = Replayer::open(alloc, set)?;
    Ok(replayer)
}

/// How many scans there are after one more, and the first difference.
fn scanned(replayer: &mut Replayer<'_>, on: bool) -> (usize, Option<usize>)
    requires { ReplaysLate replayer.old }
    ensures { ReplaysLate replayer.new }
{
    if replayer.scans() < 1000 {
        if on {
            replayer.scan(&[1]);
        } else {
            replayer.scan(&[0]);
        }
    }
    (replayer.scans(), replayer.first())
}

#[test]
fn keeps_the_first_difference(rt: HostRuntime) -> Result<(), Fail> {
    let set = relay(rt.alloc(), true)?;
    let mut replayer = opened(rt.alloc(), &set)?;
    assert_eq!(rt; (replayer.scans(), replayer.first()), (0, None));
    assert_eq!(rt; scanned(&mut replayer, true), (1, None));
    assert_eq!(rt; scanned(&mut replayer, true), (2, None));
    assert_eq!(rt; scanned(&mut replayer, false), (3, None));
    assert_eq!(rt; scanned(&mut replayer, true), (4, None));
    assert_eq!(rt; scanned(&mut replayer, true), (5, None));
    assert_eq!(rt; scanned(&mut replayer, true), (6, Some(5)));
    assert_eq!(rt; scanned(&mut replayer, true), (7, Some(5)));
    assert_eq!(rt; scanned(&mut replayer, false), (8, Some(5)));
    Ok(())
}

/// The levels of the mixer.
fn levels(alloc: Global) -> Result<History, NoMemory>
    ensures { IfOk result (λ h. h ≡ levels) }
{
    let mut given = History::new(alloc);
    given.add(&[5])?;
    given.add(&[9])?;
    given.add(&[8])?;
    given.add(&[4])?;
    given.add(&[3])?;
    given.add(&[6])?;
    Ok(given)
}

/// The first scan of the levels at which the sides of the mixer differ, if they do.
fn mixed(alloc: Global, set: &Tables, given: &History) -> Result<Option<usize>, NoMemory>
    requires set { IsMadeOf mixer set.now }
    requires given { given.now ≡ levels }
{
    mixer_is_worked();
    match replay(alloc, set, given)? {
        Replayed::Agree => Ok(None),
        Replayed::Differ { scan } => Ok(Some(scan)),
    }
}

// The pump is required to be at 1 at scan 0, and the design's drive puts it to 3.
#[test]
fn the_mixer_differs_at_once(rt: HostRuntime) -> Result<(), Fail> {
    let set = mixer(rt.alloc())?;
    let given = levels(rt.alloc())?;
    assert_eq!(rt; mixed(rt.alloc(), &set, &given)?, Some(0));
    Ok(())
}
