//! What the crates below make of the mixer, against what was worked out by hand (specs/Mixer.antt).
ghost use Rattle.std.specs.Prelude.{◌≤ℤ◌, pos, IfOk};
ghost use Rattle.ft_core.specs.declared.tables.Side.TheVariants.{Req, Sof};
ghost use Rattle.ft_worked.specs.Made.{IsMadeOf};
ghost use Rattle.ft_worked.specs.Mixer.{mixer};
ghost use Rattle.ft_worked.specs.Running.{RunsMixer};

use crate::mixer::mixer;
use ft_base::NoMemory;
use ft_core::{History, Side, Tables};
use ft_mean::fits_list;
use ft_scan::{Scanner, allowed_step, input_map, output_map};
use std::alloc::Global;
use std::test::Fail;

/// A scanner of one side of the mixer.
fn opened<'t>(alloc: Global, set: &'t Tables, side: Side) -> Result<Scanner<'t>, NoMemory>
    requires { IsMadeOf mixer set.now }
    ensures { IfOk result (RunsMixer side) }
{
    let scanner = Scanner::open(alloc, set, side)?;
    Ok(scanner)
}

/// What a scanner of the requirement tells of a level.
fn required(scanner: &mut Scanner<'_>, level: i64) -> [i64; 3]
    requires runs { RunsMixer Req scanner.old }
    requires level { (pos 0 ≤ℤ level) × (level ≤ℤ pos 9) }
    ensures { RunsMixer Req scanner.new }
{
    let mut row = [0; 3];
    scanner.step(&[level], &mut row);
    row
}

/// What a scanner of the design tells of a probe.
fn designed(scanner: &mut Scanner<'_>, probe: i64) -> [i64; 4]
    requires runs { RunsMixer Sof scanner.old }
    requires probe { (pos 0 ≤ℤ probe) × (probe ≤ℤ pos 9) }
    ensures { RunsMixer Sof scanner.new }
{
    let mut row = [0; 4];
    scanner.step(&[probe], &mut row);
    row
}

/// What IN makes of a level.
fn probe_of(set: &Tables, level: i64) -> i64
    requires set { IsMadeOf mixer set.now }
    requires level { (pos 0 ≤ℤ level) × (level ≤ℤ pos 9) }
{
    let mut inputs = [-1];
    input_map(set, &[level], &mut inputs);
    inputs[0]
}

/// What OUT makes of a drive and a gate.
fn valve_and_pump(set: &Tables, drive: i64, gate: i64) -> [i64; 2]
    requires set { IsMadeOf mixer set.now }
    requires drive { (pos 0 ≤ℤ drive) × (drive ≤ℤ pos 3) }
    requires gate { (pos 0 ≤ℤ gate) × (gate ≤ℤ pos 1) }
{
    let mut controlled = [-1; 2];
    output_map(set, &[drive, gate], &mut controlled);
    controlled
}

/// Whether NAT allows a first level.
fn may_begin(set: &Tables, level: i64) -> bool
    requires set { IsMadeOf mixer set.now }
    requires level { (pos 0 ≤ℤ level) × (level ≤ℤ pos 9) }
{
    allowed_step(set, None, &[level])
}

/// Whether it allows a level after another.
fn may_follow(set: &Tables, earlier: i64, level: i64) -> bool
    requires set { IsMadeOf mixer set.now }
    requires earlier { (pos 0 ≤ℤ earlier) × (earlier ≤ℤ pos 9) }
    requires level { (pos 0 ≤ℤ level) × (level ≤ℤ pos 9) }
{
    allowed_step(set, Some(&[earlier]), &[level])
}

#[test]
fn allows_levels(rt: HostRuntime) -> Result<(), Fail> {
    let set = mixer(rt.alloc())?;
    assert_eq!(rt; (may_begin(&set, 5), may_begin(&set, 4)), (true, false));
    assert_eq!(rt;
        (may_follow(&set, 5, 9), may_follow(&set, 4, 9)),
        (true, false)
    );
    Ok(())
}

#[test]
fn runs_the_requirement(rt: HostRuntime) -> Result<(), Fail> {
    let set = mixer(rt.alloc())?;
    let mut scanner = opened(rt.alloc(), &set, Side::Req)?;
    assert_eq!(rt; required(&mut scanner, 5), [5, 0, 1]);
    assert_eq!(rt; required(&mut scanner, 9), [9, 0, 1]);
    assert_eq!(rt; required(&mut scanner, 8), [8, 0, 3]);
    assert_eq!(rt; required(&mut scanner, 4), [4, 1, 0]);
    assert_eq!(rt; required(&mut scanner, 3), [3, 0, 1]);
    assert_eq!(rt; required(&mut scanner, 6), [6, 0, 1]);
    Ok(())
}

#[test]
fn runs_the_design(rt: HostRuntime) -> Result<(), Fail> {
    let set = mixer(rt.alloc())?;
    let mut scanner = opened(rt.alloc(), &set, Side::Sof)?;
    assert_eq!(rt; designed(&mut scanner, 5), [5, 3, 0, 2]);
    assert_eq!(rt; designed(&mut scanner, 9), [9, 3, 0, 2]);
    assert_eq!(rt; designed(&mut scanner, 8), [8, 2, 0, 0]);
    assert_eq!(rt; designed(&mut scanner, 8), [8, 1, 1, 1]);
    assert_eq!(rt; designed(&mut scanner, 6), [6, 2, 0, 0]);
    assert_eq!(rt; designed(&mut scanner, 6), [6, 1, 1, 1]);
    Ok(())
}

#[test]
fn maps_levels_and_outputs(rt: HostRuntime) -> Result<(), Fail> {
    let set = mixer(rt.alloc())?;
    assert_eq!(rt;
        (probe_of(&set, 5), probe_of(&set, 4), probe_of(&set, 3)),
        (5, 8, 6)
    );
    assert_eq!(rt; valve_and_pump(&set, 3, 0), [0, 3]);
    assert_eq!(rt; valve_and_pump(&set, 1, 1), [1, 1]);
    Ok(())
}

/// The requirement's trace over the levels, with this pump at scan 3.
fn trace(alloc: Global, pump: i64) -> Result<History, NoMemory> {
    let mut trace = History::new(alloc);
    trace.add(&[5, 0, 1])?;
    trace.add(&[9, 0, 1])?;
    trace.add(&[8, 0, 3])?;
    trace.add(&[4, 1, pump])?;
    trace.add(&[3, 0, 1])?;
    trace.add(&[6, 0, 1])?;
    Ok(trace)
}

fn levels(alloc: Global) -> Result<History, NoMemory> {
    let mut given = History::new(alloc);
    for level in [5, 9, 8, 4, 3, 6] {
        given.add(&[level])?;
    }
    Ok(given)
}

#[test]
fn judges_the_requirement(rt: HostRuntime) -> Result<(), Fail> {
    let alloc = rt.alloc();
    let set = mixer(alloc)?;
    let given = levels(alloc)?;
    let right = trace(alloc, 0)?;
    let wrong = trace(alloc, 1)?;
    assert_eq!(rt; fits_list(alloc, &set, Side::Req, &given, &right)?, true);
    assert_eq!(rt; fits_list(alloc, &set, Side::Req, &given, &wrong)?, false);
    Ok(())
}
