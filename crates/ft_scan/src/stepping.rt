//! The steps of one scan, each over what is known of it so far.
ghost use Rattle.std.specs.Prelude.{◌≡◌, ◌<◌, ℕ, IsTrue, length, slice_set};
ghost use Rattle.ft_core.specs.declared.tables.Side.{Side};
ghost use Rattle.ft_core.specs.meaning.Kinds.{section_of};
ghost use Rattle.ft_mean.specs.meaning.Cells.{defined};
ghost use Rattle.ft_mean.specs.meaning.Proper.{AllProper};
ghost use Rattle.ft_mean.specs.meaning.Reading.{Reading};
ghost use Rattle.ft_mean.specs.judge.Safe.{KeepsSizes, IsSafeMemory};
ghost use Rattle.ft_scan.specs.steps.Frame.{view_of, IsFrameOf, CanTake, Leaves, HasColumn, FindsColumn, HasCell, FindsCell, HasEntry};
ghost use Rattle.ft_scan.specs.steps.Frame.{FindsEntry, AdvancesMemory};
ghost use Rattle.ft_scan.specs.steps.Plan.{IsPlan};
ghost use Rattle.ft_scan.specs.steps.Stepping.{sample_of, CanHear, Hears};
ghost use Rattle.ft_scan.specs.steps.Told.{IsScan, IsTold};

use crate::cells::{entry_value, open_column, value_in};
use crate::frame::{Frame, Running};
use crate::law::laws;
use crate::plan::Step;
use ft_base::List;
use ft_core::{Memory, Side, Tables};
use ft_mean::{Look, truth_of, value_of};

impl Look for Frame {
    ghost view = { view_of };

    fn now_of(&self, variable: u32) -> i64 {
        let now = self.now.as_slice();
        now.get(variable as usize).copied().unwrap_or(0)
    }

    fn before_of(&self, variable: u32) -> i64 {
        let past = self.past.as_slice();
        past.get(variable as usize).copied().unwrap_or(0)
    }

    fn age_of(&self, _memory: u32) -> i64 {
        -1
    }

    fn memory_of(&self, memory: u32) -> bool {
        let truths = self.truths.as_slice();
        truths.get(memory as usize).copied().unwrap_or(false)
    }
}

/// The value of a variable by its table, at a scan where some cell of it holds.
fn value_by(tables: &Tables, variable: usize, table: usize, frame: &Frame) -> i64
    requires keeps { KeepsSizes tables.now.vars tables.now.memories (view_of frame.now) }
    requires has { (s : Side) × HasCell tables.now s variable table frame.now }
    ensures { (s : Side) → HasCell tables.now s variable table frame.entry.now
        → IsTrue (defined tables.now (section_of s) (view_of frame.entry.now) variable result) }
{
    laws();
    let its_table = tables.tables.get(table);
    match value_in(&its_table.grid, variable, frame) {
        Some(value) => value,
        None => unreachable!(),
    }
}

/// Finds the column of a vector table that holds.
fn find_column(tables: &Tables, table: usize, frame: &mut Frame)
    requires frame { IsFrameOf tables.now frame.old }
    requires can { (s : Side) × HasColumn tables.now s table frame.old }
    ensures { (s : Side) → HasColumn tables.now s table frame.old → FindsColumn tables.now s table frame.old frame.new }
{
    let vector = tables.tables.get(table);
    match open_column(&vector.grid, frame) {
        Some(column) => frame.columns.set(table, column),
        None => unreachable!(),
    }
}

/// Finds the value of a variable by its table.
fn find_cell(tables: &Tables, variable: usize, table: usize, frame: &mut Frame)
    requires frame { IsFrameOf tables.now frame.old }
    requires can { (s : Side) × HasCell tables.now s variable table frame.old }
    ensures { (s : Side) → HasCell tables.now s variable table frame.old → FindsCell tables.now s variable frame.old frame.new }
{
    let value = value_by(tables, variable, table, frame);
    frame.now.set(variable, value);
}

/// Finds the value of a variable by its row of a vector table, in the column that was found.
fn find_entry(tables: &Tables, variable: usize, table: usize, row: usize, frame: &mut Frame)
    requires frame { IsFrameOf tables.now frame.old }
    requires variable { variable < length tables.now.vars }
    requires can { (s : Side) × HasEntry tables.now s table row frame.old }
    ensures { (s : Side) → HasEntry tables.now s table row frame.old → FindsEntry tables.now s variable table row frame.old frame.new }
{
    let vector = tables.tables.get(table);
    let column = *frame.columns.get(table);
    let value = entry_value(&vector.grid, row, column, frame);
    frame.now.set(variable, value);
}

/// What a memory is told at a scan: a timer the truth of its condition, and a band the number of its term.
#[derive(Clone, Copy, Drop)]
enum Sample {
    Truth(bool),
    Number(i64),
}

/// What a memory is told at this scan.
fn sample_of(memory: &Memory, frame: &Frame) -> Sample
    requires { IsSafeMemory (view_of frame.now) memory.now }
    ensures { result ≡ sample_of (view_of frame.entry.now) memory.now }
{
    match memory {
        Memory::Held { cond, .. } => Sample::Truth(truth_of(cond, frame)),
        Memory::Hyst { term, .. } => Sample::Number(value_of(term, frame)),
    }
}

/// Tells a running memory its sample, and gives its truth.
fn advance(run: &mut Running, sample: Sample) -> bool
    requires { CanHear run.old sample }
    ensures { Hears run.old sample run.new result }
{
    match (run, sample) {
        (Running::Timer(timer), Sample::Truth(now)) => timer.advance(now),
        (Running::Band(band), Sample::Number(now)) => band.advance(now),
        _ => unreachable!(),
    }
}

/// Puts the truth of a memory at its place.
fn put_truth(truths: &mut List<bool>, memory: usize, truth: bool)
    requires { memory < length truths.old }
    ensures { truths.new ≡ slice_set truths.old memory truth }
{
    truths.set(memory, truth);
}

/// Advances a memory by one scan.
fn advance_memory(tables: &Tables, memory: usize, frame: &mut Frame)
    requires frame { IsFrameOf tables.now frame.old }
    requires memory { memory < length tables.now.memories }
    ensures { AdvancesMemory tables.now memory frame.old frame.new }
{
    let sample = sample_of(tables.memories.get(memory), frame);
    let truth = advance(&mut frame.runs[memory], sample);
    put_truth(&mut frame.truths, memory, truth);
}

/// Takes one step.
fn run_step(tables: &Tables, side: Side, step: Step, frame: &mut Frame)
    requires frame { IsFrameOf tables.now frame.old }
    requires can { CanTake tables.now side step frame.old }
    ensures { Leaves tables.now side step frame.old frame.new }
{
    match step {
        Step::Column { table } => find_column(tables, table as usize, frame),
        Step::Cell { variable, table } => {
            find_cell(tables, variable as usize, table as usize, frame)
        }
        Step::Entry {
            variable,
            table,
            row,
        } => find_entry(tables, variable as usize, table as usize, row, frame),
        Step::Memory { memory } => advance_memory(tables, memory as usize, frame),
    }
}

/// Runs the steps of a plan, one after another. It takes no memory.
pub(crate) fn run_steps(tables: &Tables, side: Side, steps: &[Step], frame: &mut Frame)
    requires proper { AllProper tables.now }
    requires plan { IsPlan tables.now side steps.now }
    requires told { (a : Reading) × (n : ℕ) × IsScan tables.now side a n × IsTold tables.now side steps.now a n 0 frame.old }
    ensures { (a : Reading) (n : ℕ) → IsScan tables.now side a n → IsTold tables.now side steps.now a n 0 frame.old
        → IsTold tables.now side steps.now a n (length steps.now) frame.new }
{
    laws();
    for step in steps {
        run_step(tables, side, *step, frame);
    }
}
