ghost use Rattle.std.specs.Prelude.{◌≡◌, ◌<◌, ◌^◌, ◌++◌, length, slice_index_or, take, Contains, IsTrue, IsFalse, IfErr, IfOk, OnOk};
ghost use Rattle.std.specs.List.{flat_map};
ghost use Rattle.ft_core.specs.meaning.Kinds.{controlled, is_of};
ghost use Rattle.ft_core.specs.checked.Distinct.{AreDistinct};
ghost use Rattle.ft_blocks.specs.meaning.Goals.{HaveGoals, IsNameOf, block_goals, fact_goals};
ghost use Rattle.ft_blocks.specs.steps.Answers.{AreVariables, AsksMissing, AsksTwice, IsMissingFault, IsTwiceFault};

use crate::fault::BlockFault;
use ft_base::{Duplicate, List, NoMemory, Text};
use ft_core::{Block, Fact, Section, Var};
use std::alloc::Global;

// Adds the variable of a fact, where it is a goal.
fn add_goal(goals: &mut List<u32>, fact: &Fact) -> Result<(), NoMemory>
    ensures { OnOk result (goals.new ≡ goals.old ++ fact_goals fact.now) }
{
    match fact {
        Fact::Goal { con } => goals.push(*con),
        Fact::Invariant { .. } => Ok(()),
    }
}

// Adds the variables of the goals among facts.
fn add_goals(goals: &mut List<u32>, facts: &[Fact]) -> Result<(), NoMemory>
    ensures { OnOk result (goals.new ≡ goals.old ++ flat_map fact_goals facts.now) }
{
    for fact in facts {
        add_goal(goals, fact)?;
    }
    Ok(())
}

/// The variables of all goals, in the order of the text.
pub fn block_goals(alloc: Global, blocks: &[Block]) -> Result<List<u32>, NoMemory>
    ensures { IfOk result (λ goals. goals ≡ block_goals blocks.now) }
{
    let mut goals = List::new(alloc);
    for block in blocks {
        add_goals(&mut goals, block.facts.as_slice())?;
    }
    Ok(goals)
}

// Whether the variable at this place is controlled, and no goal.
fn lacks_goal(vars: &[Var], goals: &[u32], place: usize) -> bool
    requires few { length vars.now < 2 ^ 32 }
    requires there { place < length vars.now }
    ensures controlled { IsTrue result → IsTrue (is_of vars.now controlled place) }
    ensures missing { IsTrue result → Contains goals.now place → ⊥ }
    ensures has { IsFalse result → IsTrue (is_of vars.now controlled place) → Contains goals.now place }
{
    Section::Out.defines(place, &vars[place]) && !goals.contains(&(place as u32))
}

// The place of the first controlled variable that is no goal.
fn missing_goal(vars: &[Var], goals: &[u32]) -> Option<usize>
    requires { length vars.now < 2 ^ 32 }
    ensures { AsksMissing vars.now goals.now result }
{
    for place in 0..vars.len() {
        if lacks_goal(vars, goals, place) {
            return Some(place);
        }
    }
    None
}

// Whether an earlier goal has the variable of the goal at this place.
fn stands_before(goals: &[u32], at: usize) -> bool
    requires { at < length goals.now }
    ensures yes { IsTrue result → Contains (take at goals.now) (slice_index_or goals.now at 0) }
    ensures no { IsFalse result → Contains (take at goals.now) (slice_index_or goals.now at 0) → ⊥ }
{
    goals[..at].contains(&goals[at])
}

// The place of the first goal whose variable an earlier one has.
fn second_goal(goals: &[u32]) -> Option<usize>
    ensures { AsksTwice goals.now result }
{
    for at in 0..goals.len() {
        if stands_before(goals, at) {
            return Some(at);
        }
    }
    None
}

// The name of the variable at this place.
fn name_of(alloc: Global, vars: &[Var], place: usize) -> Result<Text, NoMemory>
    requires { place < length vars.now }
    ensures { IfOk result (IsNameOf vars.now place) }
{
    vars[place].name.duplicate(alloc)
}

/// Looks for the first controlled variable, in order of declaration, that is no goal.
pub fn need_goals(alloc: Global, vars: &[Var], goals: &[u32]) -> Result<(), BlockFault>
    requires { length vars.now < 2 ^ 32 }
    ensures all { OnOk result (HaveGoals vars.now goals.now (length vars.now)) }
    ensures missing { IfErr result (IsMissingFault vars.now goals.now) }
{
    match missing_goal(vars, goals) {
        Some(place) => Err(BlockFault::GoalMissing {
            name: name_of(alloc, vars, place)?,
        }),
        None => Ok(()),
    }
}

/// Looks for the first goal whose variable an earlier one has.
pub fn differ(alloc: Global, vars: &[Var], goals: &[u32]) -> Result<(), BlockFault>
    requires { AreVariables (length vars.now) goals.now }
    ensures once { OnOk result (AreDistinct goals.now) }
    ensures twice { IfErr result (IsTwiceFault vars.now goals.now) }
{
    match second_goal(goals) {
        Some(at) => Err(BlockFault::ShownTwice {
            name: name_of(alloc, vars, goals[at] as usize)?,
        }),
        None => Ok(()),
    }
}
