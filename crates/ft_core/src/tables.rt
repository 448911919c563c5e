ghost use Rattle.std.specs.Prelude.{◌≡◌, [], slice_get, slice_index_or};
ghost use Rattle.std.specs.Option.{option_map};
ghost use Rattle.ft_core.specs.meaning.Grids.{is_section, term_at};
ghost use Rattle.ft_core.specs.meaning.Inits.{init_of};
ghost use Rattle.ft_core.specs.checked.Sound.{IsSound};
ghost use Rattle.ft_core.specs.checked.Checked.{IsChecked, checked_prop};

use crate::term::{Cond, Term};
use ft_base::{List, Range, Text};

/// What a variable stands for, in the four-variable model of Parnas and Madey.
#[derive(Clone, Copy, PartialEq, Eq, Drop)]
pub enum VarKind {
    /// Monitored: a quantity of the environment that the controller watches.
    Mon,
    /// Controlled: a quantity of the environment that the controller sets.
    Con,
    /// Input: what the program reads of a monitored quantity.
    Input,
    /// Output: what the program writes for a controlled quantity.
    Output,
    /// An inner variable of the requirement.
    ReqInner,
    /// An inner variable of the design.
    SofInner,
}

/// The requirement or the design.
#[derive(Clone, Copy, PartialEq, Eq, Drop)]
pub enum Side {
    /// The requirement.
    Req,
    /// The design.
    Sof,
}

/// The relation that a table is part of.
#[derive(Clone, Copy, PartialEq, Eq, Drop)]
pub enum Section {
    /// From monitored values to inputs.
    In,
    /// From monitored values to controlled values.
    Req,
    /// From inputs to outputs.
    Sof,
    /// From outputs to controlled values.
    Out,
}

/// A variable. Every value is a whole number; that of an enum is its member's position, from 0.
#[derive(Drop)]
pub struct Var {
    pub name: Text,
    pub kind: VarKind,
    /// Its place among the variables of its kind, in order of declaration, from 0: that of its value in a scan of them.
    pub place: u32,
    pub range: Range,
    /// The members of an enum, and none for a number.
    pub members: List<Text>,
    /// The value one scan before scan 0.
    pub init: i64,
}

/// What a side remembers of earlier scans.
#[derive(Drop)]
pub enum Memory {
    /// True once the condition has been true for `hold` milliseconds.
    Held {
        name: Text,
        side: Side,
        cond: Cond,
        hold: i64,
    },
    /// True from where the term meets `hi` to where it meets `lo`.
    Hyst {
        name: Text,
        side: Side,
        term: Term,
        lo: i64,
        hi: i64,
        start: bool,
    },
}

/// The three forms of a function table. A variable is named by its place in the set.
#[derive(Drop)]
pub enum Grid {
    /// Cell (i, j) holds where row condition i and column condition j hold.
    Normal {
        target: u32,
        columns: List<Cond>,
        rows: List<Cond>,
        terms: List<List<Term>>,
    },
    /// Cell (i, j) holds where row condition i and grid condition (i, j) hold. Its term is the header's j.
    Inverted {
        target: u32,
        terms: List<Term>,
        rows: List<Cond>,
        grid: List<List<Cond>>,
    },
    /// Row i is for a variable of its own. Cell (i, j) holds where column condition j holds.
    Vector {
        columns: List<Cond>,
        targets: List<u32>,
        terms: List<List<Term>>,
    },
}

/// A table of a section.
#[derive(Drop)]
pub struct Table {
    pub section: Section,
    pub grid: Grid,
}

/// What a block shows.
#[derive(Drop)]
pub enum Fact {
    /// A condition that holds at every scan.
    Invariant { name: Text, cond: Cond },
    /// That a controlled variable, named by its place, has the value of its OUT table.
    Goal { con: u32 },
}

/// A variable or a memory, by its place, whose table or move a block takes.
#[derive(Clone, Copy, PartialEq, Eq, Drop)]
pub enum Take {
    Variable(u32),
    Memory(u32),
}

/// A part of the proof that the author states.
#[derive(Drop)]
pub struct Block {
    pub name: Text,
    pub takes: List<Take>,
    /// The invariants that it uses: the place of a block, and of a fact in it.
    pub uses: List<(u32, u32)>,
    pub facts: List<Fact>,
}

/// A checked set of tables. Everything stands in the order of the text.
#[derive(Drop)]
pub struct Tables {
    pub name: Text,
    /// From one scan to the next, in milliseconds.
    pub period: i64,
    /// How many splits a search may make.
    pub splits: u32,
    /// How many scans a short list may have.
    pub depth: u32,
    pub vars: List<Var>,
    pub memories: List<Memory>,
    pub tables: List<Table>,
    /// What the environment keeps at scan 0.
    pub first: List<Cond>,
    /// What it keeps at each scan.
    pub always: List<Cond>,
    /// What it keeps from each scan to the next.
    pub step: List<Cond>,
    pub blocks: List<Block>,
    pub ghost sound: { IsSound period vars memories tables first always step },
    pub ghost checked: { IsChecked name splits depth vars memories tables first always step blocks } by { checked_prop name splits depth vars memories tables first always step blocks },
}

impl Section {
    /// Whether it is this section.
    pub fn is(self, other: Section) -> bool
        ensures { result ≡ is_section self other }
    {
        self == other
    }
}

/// The term in a row and a column of rows of terms.
fn term_in(rows: &[List<Term>], row: usize, column: usize) -> Option<&Term>
    ensures { option_map (λ term. term.now) result ≡ slice_get (slice_index_or rows.now row []) column }
{
    match rows.get(row) {
        Some(terms) => terms.as_slice().get(column),
        None => None,
    }
}

impl Grid {
    /// The term in a row and a column, both from 0.
    pub fn term(&self, row: usize, column: usize) -> Option<&Term>
        ensures { option_map (λ term. term.now) result ≡ term_at self.now row column }
    {
        match self {
            Grid::Inverted { terms, .. } => terms.as_slice().get(column),
            Grid::Normal { terms, .. } => term_in(terms.as_slice(), row, column),
            Grid::Vector { terms, .. } => term_in(terms.as_slice(), row, column),
        }
    }
}

impl Tables {
    /// The value of a variable one scan before scan 0, and 0 where the set has none at this place.
    pub fn init_of(&self, variable: usize) -> i64
        ensures { result ≡ init_of self.now.vars variable }
    {
        match self.vars.as_slice().get(variable) {
            Some(var) => var.init,
            None => 0,
        }
    }
}
