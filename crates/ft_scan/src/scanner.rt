ghost use Rattle.std.specs.Prelude.{◌≡◌, ◌++◌, [], ◌∷◌, length, IfOk};
ghost use Rattle.ft_core.specs.meaning.Kinds.{count_of, given_kinds, side_kinds};
ghost use Rattle.ft_mean.specs.meaning.Fits.{Fits};
ghost use Rattle.ft_mean.specs.meaning.Proper.{AllProper};
ghost use Rattle.ft_mean.specs.meaning.Reading.{IsListOf};
ghost use Rattle.ft_scan.specs.steps.Passing.{passed};

use crate::frame::Frame;
use crate::law::laws;
use crate::opening::first_frame;
use crate::places::{put_values, scope_places, tell_values};
use crate::plan::{Step, plan};
use crate::stepping::run_steps;
use ft_base::{List, NoMemory};
use ft_core::{Side, Tables, scan_order};
use ft_mean::Scope;
use ft_memo::Told;
use std::alloc::Global;
use std::marker::Model;
use std::mem;

/// One side of a set, run scan by scan. Contracts see the set, the side, the given rows so far and the rows that it told.
#[derive(Drop)]
pub struct Scanner<'t> {
    tables: &'t Tables,
    side: Side,
    /// The steps of each scan.
    steps: List<Step>,
    /// The places in the set of the variables that are given, and of all variables of the side, in order of declaration.
    given: List<u32>,
    side_variables: List<u32>,
    frame: Frame,
    /// The values of each scan, by their places in the set.
    past: Told<List<i64>>,
}

impl<'t> Model for Scanner<'t> {
    ghost use Rattle.ft_scan.specs.meaning.Scanning.{Scanning};
    ghost use Rattle.std.specs.Coded.{codes};
    ghost use Rattle.ft_core.specs.contracts.tables.Tables as checked_set;

    ghost Value = { Scanning };

    ghost coded = { Prim.hlevel (codes, checked_set.the_row.coded) };

    ghost use Rattle.ft_scan.specs.steps.Stands.{scanning, IsRunning};

    ghost view = { scanning };

    ghost invariant = { IsRunning };
}

/// The values of a scan that is over become those one scan before.
fn end_scan(frame: &mut Frame)
    ensures { frame.new ≡ passed frame.old }
{
    mem::swap(&mut frame.now, &mut frame.past);
}

impl<'t> Scanner<'t> {
    /// A scanner of one side that was given no scan yet. All memory is taken here.
    pub fn open(alloc: Global, tables: &'t Tables, side: Side) -> Result<Scanner<'t>, NoMemory>
        ensures set { IfOk result (λ scanner. scanner.set ≡ tables.now) }
        ensures side { IfOk result (λ scanner. scanner.side ≡ side) }
        ensures given { IfOk result (λ scanner. scanner.given ≡ []) }
        ensures rows { IfOk result (λ scanner. scanner.rows ≡ []) }
    {
        laws();
        let order = scan_order(alloc, tables)?;
        Ok(Scanner {
            tables,
            side,
            steps: plan(alloc, tables, side, order.as_slice())?,
            given: scope_places(alloc, tables, Scope::Given(side))?,
            side_variables: scope_places(alloc, tables, Scope::Whole(side))?,
            frame: first_frame(alloc, tables)?,
            past: Told::new(),
        })
    }

    /// The side that it runs. What it told fits what it was given.
    pub fn side(&self) -> Side
        ensures side { result ≡ self.now.side }
        ensures fits { Fits self.now.set self.now.side self.now.given self.now.rows }
    {
        self.side
    }

    /// Goes on by one scan: from the given values, in order of declaration, the values of all variables of the side, in order of
    /// declaration. It takes no memory.
    pub fn step(&mut self, given: &[i64], values: &mut [i64])
        requires proper { AllProper self.old.set }
        requires given { IsListOf self.old.set (given_kinds self.old.side) (given.now ∷ []) }
        requires room { length values.old ≡ count_of (side_kinds self.old.side) self.old.set.vars }
        ensures set { self.new.set ≡ self.old.set }
        ensures side { self.new.side ≡ self.old.side }
        ensures given { self.new.given ≡ self.old.given ++ given.now ∷ [] }
        ensures rows { self.new.rows ≡ self.old.rows ++ values.new ∷ [] }
        ensures fits { Fits self.new.set self.new.side self.new.given self.new.rows }
    {
        laws();
        put_values(self.given.as_slice(), given, &mut self.frame.now);
        run_steps(
            self.tables,
            self.side,
            self.steps.as_slice(),
            &mut self.frame,
        );
        tell_values(
            self.side_variables.as_slice(),
            self.frame.now.as_slice(),
            values,
        );
        end_scan(&mut self.frame);
        self.past = self.past.followed_by(&self.frame.past);
    }
}
