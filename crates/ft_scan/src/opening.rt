ghost use Rattle.std.specs.Prelude.{◌≡◌, ◌<◌, length, map, IfOk};
ghost use Rattle.ft_scan.specs.steps.Opening.{AllStart, IsStart, Starts};

use crate::frame::{Frame, Running};
use ft_base::{List, NoMemory};
use ft_core::{Memory, Tables, Var};
use ft_memo::{Band, Timer};
use std::alloc::Global;

/// The values one scan before scan 0.
fn inits(alloc: Global, vars: &[Var]) -> Result<List<i64>, NoMemory>
    ensures { IfOk result (λ values. values ≡ map (λ v. v.init) vars.now) }
{
    let mut values = List::new(alloc);
    for var in vars {
        values.push(var.init)?;
    }
    Ok(values)
}

/// The memory at a place of the set, as it runs from scan 0 on.
fn run_of(tables: &Tables, at: usize) -> Running
    requires { at < length tables.now.memories }
    ensures { Starts tables.now at result }
{
    match tables.memories.get(at) {
        Memory::Held {
            name: _,
            side: _,
            cond: _,
            hold,
        } => Running::Timer(Timer::new(*hold, tables.period)),
        Memory::Hyst {
            name: _,
            side: _,
            term: _,
            lo,
            hi,
            start,
        } => Running::Band(Band::new(*lo, *hi, *start)),
    }
}

/// All memories of the set, as they run from scan 0 on.
fn runs(alloc: Global, tables: &Tables) -> Result<Vec<Running>, NoMemory>
    ensures { IfOk result (λ runs. AllStart tables.now (length tables.now.memories) runs.items) }
{
    let mut runs = Vec::new(alloc);
    for at in 0..tables.memories.len() {
        runs.push(run_of(tables, at))?;
    }
    Ok(runs)
}

/// The frame before scan 0.
pub(crate) fn first_frame(alloc: Global, tables: &Tables) -> Result<Frame, NoMemory>
    ensures { IfOk result (IsStart tables.now) }
{
    Ok(Frame {
        now: inits(alloc, tables.vars.as_slice())?,
        past: inits(alloc, tables.vars.as_slice())?,
        truths: List::from_vec(Vec::from_elem(alloc, false, tables.memories.len())?),
        columns: List::from_vec(Vec::from_elem(alloc, 0, tables.tables.len())?),
        runs: runs(alloc, tables)?,
    })
}
