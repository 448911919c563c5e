ghost use Rattle.std.specs.Prelude.{ℕ, ◌≡◌, ◌<◌, ◌++◌, ◌∷◌, [], IfOk, IfSome, IfNone, IsTrue, length};
ghost use Rattle.std.specs.List.{last_or};
ghost use Rattle.ft_core.specs.declared.tables.Side.TheVariants as side;
ghost use Rattle.ft_core.specs.meaning.Kinds.{monitored};
ghost use Rattle.ft_mean.specs.meaning.Proper.{AllProper};
ghost use Rattle.ft_mean.specs.meaning.Reading.{IsListOf};
ghost use Rattle.ft_mean.specs.meaning.Refines.{FirstDiffers};
ghost use Rattle.ft_scan.specs.meaning.Allowing.{nat_after};
ghost use Rattle.ft_replay.specs.scans.BothRan.{BothRan};
ghost use Rattle.ft_replay.specs.scans.Differing.{first_with};
ghost use Rattle.ft_replay.specs.scans.Rows.{HasRooms};

use crate::comparing::are_alike;
use crate::law::laws;
use crate::rows::Rows;
use crate::telling::tell_outputs;
use ft_base::NoMemory;
use ft_core::{Side, Tables};
use ft_scan::{Scanner, input_map, output_map};
use std::alloc::Global;
use std::marker::Model;

/// Both sides of a set, run over one list of monitored scans. Contracts see the set and the list.
#[derive(Drop)]
pub struct Replayer<'t> {
    tables: &'t Tables,
    required: Scanner<'t>,
    design: Scanner<'t>,
    rows: Rows,
    scans: usize,
    first: Option<usize>,
}

impl<'t> Model for Replayer<'t> {
    ghost use Rattle.ft_replay.specs.meaning.Replaying.{Replaying};
    ghost use Rattle.std.specs.Coded.{codes};
    ghost use Rattle.ft_core.specs.contracts.tables.Tables as checked_set;

    ghost Value = { Replaying };

    ghost coded = { Prim.hlevel (codes, checked_set.the_row.coded) };

    ghost use Rattle.ft_replay.specs.scans.IsReplaying.{replaying, IsReplaying};

    ghost view = { replaying };

    ghost invariant = { IsReplaying };
}

/// Runs both sides over one more scan, and tells whether they agree at it.
fn run_scan(
    tables: &Tables,
    required: &mut Scanner<'_>,
    design: &mut Scanner<'_>,
    rows: &mut Rows,
    monitored_row: &[i64],
) -> bool
    requires proper { AllProper tables.now }
    requires required { required.old.set ≡ tables.now }
    requires design { design.old.set ≡ tables.now }
    requires required_side { required.old.side ≡ side.Req }
    requires design_side { design.old.side ≡ side.Sof }
    requires row { IsListOf tables.now monitored (monitored_row.now ∷ []) }
    requires rooms { HasRooms tables.now rows.old }
    ensures rooms { HasRooms tables.now rows.new }
    ensures runs { BothRan tables.now monitored_row.now required.old required.new design.old design.new result }
{
    input_map(tables, monitored_row, rows.inputs.as_mut_slice());
    required.step(monitored_row, rows.required.as_mut_slice());
    design.step(rows.inputs.as_slice(), rows.design.as_mut_slice());
    tell_outputs(tables, rows.design.as_slice(), rows.outputs.as_mut_slice());
    output_map(
        tables,
        rows.outputs.as_slice(),
        rows.controlled.as_mut_slice(),
    );
    are_alike(tables, rows.required.as_slice(), rows.controlled.as_slice())
}

/// The first difference, after a scan at which the sides agree or not.
fn first_with(first: Option<usize>, scan: usize, alike: bool) -> Option<usize>
    ensures { result ≡ first_with first scan alike }
{
    match first {
        Some(earlier) => Some(earlier),
        None if alike => None,
        None => Some(scan),
    }
}

impl<'t> Replayer<'t> {
    /// A replayer of the empty list. All memory is taken here.
    pub fn open(alloc: Global, tables: &'t Tables) -> Result<Replayer<'t>, NoMemory>
        requires proper { AllProper tables.now }
        ensures set { IfOk result (λ replayer. replayer.set ≡ tables.now) }
        ensures list { IfOk result (λ replayer. replayer.list ≡ []) }
    {
        Ok(Replayer {
            tables,
            required: Scanner::open(alloc, tables, Side::Req)?,
            design: Scanner::open(alloc, tables, Side::Sof)?,
            rows: Rows::of(alloc, tables)?,
            scans: 0,
            first: None,
        })
    }

    /// Adds a scan to the list, which the environment allows after the list's last scan: what `allowed_step` answers of the two.
    /// It takes no memory.
    pub fn scan(&mut self, monitored_row: &[i64])
        requires row { IsListOf self.old.set monitored (monitored_row.now ∷ []) }
        requires more { length self.old.list < 18446744073709551615 }
        requires allowed { IsTrue (nat_after self.old.set (last_or None self.old.list) monitored_row.now) }
        ensures set { self.new.set ≡ self.old.set }
        ensures list { self.new.list ≡ self.old.list ++ monitored_row.now ∷ [] }
    {
        laws();
        let alike = run_scan(
            self.tables,
            &mut self.required,
            &mut self.design,
            &mut self.rows,
            monitored_row,
        );
        self.first = first_with(self.first, self.scans, alike);
        self.scans += 1;
    }

    /// How many scans the list has.
    pub fn scans(&self) -> usize
        ensures { result ≡ length self.now.list }
    {
        self.scans
    }

    /// The first scan of the list at which the controlled values that the design puts out are not those of the requirement.
    pub fn first(&self) -> Option<usize>
        ensures some { IfSome result (FirstDiffers self.now.set self.now.list) }
        ensures none { IfNone result ((k : ℕ) → FirstDiffers self.now.set self.now.list k → ⊥) }
    {
        laws();
        self.first
    }
}
