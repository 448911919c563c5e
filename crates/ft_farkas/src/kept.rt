// The kept rows of an elimination, one after another in memory that is taken once.

ghost use Rattle.std.specs.Prelude.{◌≡◌, ◌≤◌, ◌<◌, ◌+◌, ◌*◌, ◌++◌, ◌∷◌, ◌↔◌, ◌<ℤ◌, [], ℕ, pos, length, take, drop, slice_get, slice_set, slice_index_or, vec_len, vec_capacity, Some, IsTrue, IfOk, All};
ghost use Rattle.ft_farkas.specs.meaning.Rows.{row_of, constant, width};
ghost use Rattle.ft_farkas.specs.meaning.Kept.{row_in, IsNarrow};
ghost use Rattle.ft_farkas.specs.meaning.Fractions.{IsBelow};
ghost use Rattle.ft_farkas.specs.building.Points.{IsTop};
ghost use Rattle.ft_farkas.specs.building.Table.{KeptView, IsRow, IsTable, rows_of};

use ft_base::NoMemory;
use std::alloc::Global;
use std::marker::Model;

/// Kept rows: each has a constant, a factor for each unknown, and a multiplier for each line and bound. Contracts
/// see the list of their numbers, and how many there is room for.
#[derive(Drop)]
pub(crate) struct Kept {
    unknowns: usize,
    columns: usize,
    numbers: Vec<i64>,
    tops: Vec<usize>,
}

impl Model for Kept {
    ghost use Rattle.std.specs.Prelude.{◌≤◌, ◌*◌, length, vec_capacity};
    ghost use Rattle.ft_farkas.specs.building.Table.{KeptView, IsTable, rows_of};

    ghost Value = { KeptView };

    ghost view = { λ kept. record { unknowns = kept.unknowns; room = vec_capacity kept.tops; rows = rows_of kept.columns (length kept.tops.items) kept.numbers.items } };

    ghost invariant = { λ kept. IsTable kept.unknowns kept.columns kept.numbers.items kept.tops.items × (vec_capacity kept.tops * kept.columns ≤ vec_capacity kept.numbers) };
}

/// The number of the unknowns up to the last one that is left in the row.
fn top_of(row: &[i64], unknowns: usize) -> usize
    requires { unknowns < length row.now }
    ensures { IsTop unknowns (row_of row.now) result }
{
    let mut top = unknowns;
    while top > 0 && row[top] == 0 {
        top -= 1;
    }
    top
}

/// The numbers of a row, where all rows lie one after another.
fn row_at(numbers: &[i64], columns: usize, at: usize) -> &[i64]
    requires { at * columns + columns ≤ length numbers.now }
    ensures { result.now ≡ take columns (drop (at * columns) numbers.now) }
{
    let start = at * columns;
    &numbers[start..start + columns]
}

/// Adds numbers for which there is room, so that memory isn't refused.
fn add(numbers: &mut Vec<i64>, row: &[i64])
    requires { vec_len numbers.old + length row.now ≤ vec_capacity numbers.old }
    ensures items { numbers.new.items ≡ numbers.old.items ++ row.now }
    ensures capacity { vec_capacity numbers.old ≤ vec_capacity numbers.new }
{
    let _added = numbers.extend_from_slice(row);
}

/// How many numbers so many rows have.
fn numbers_of(columns: usize, room: usize) -> usize
    requires columns { columns ≤ 6257 }
    requires room { room ≤ 10000 }
    ensures { result ≡ room * columns }
{
    room * columns
}

impl Kept {
    /// Memory for so many rows. None of it is written.
    pub(crate) fn open(alloc: Global, unknowns: usize, room: usize) -> Result<Kept, NoMemory>
        requires unknowns { unknowns ≤ 2000 }
        requires room { room ≤ 10000 }
        ensures { IfOk result (λ kept. kept ≡ record { unknowns = unknowns; room = room; rows = [] }) }
    {
        let columns = 257 + 3 * unknowns;
        Ok(Kept {
            unknowns,
            columns,
            numbers: Vec::with_capacity(alloc, numbers_of(columns, room))?,
            tops: Vec::with_capacity(alloc, room)?,
        })
    }

    /// Keeps no row.
    pub(crate) fn clear(&mut self)
        ensures { self.new ≡ record { unknowns = self.old.unknowns; room = self.old.room; rows = [] } }
    {
        self.numbers.clear();
        self.tops.clear();
    }

    /// How many rows are kept.
    pub(crate) fn len(&self) -> usize
        ensures { result ≡ length self.now.rows }
    {
        self.tops.len()
    }

    /// How many unknowns there are.
    pub(crate) fn unknowns(&self) -> usize
        ensures { result ≡ self.now.unknowns }
    {
        self.unknowns
    }

    /// The numbers of a row.
    pub(crate) fn row(&self, at: usize) -> &[i64]
        requires { at < length self.now.rows }
        ensures value { result.now ≡ slice_index_or self.now.rows at [] }
        ensures row { IsRow self.now.unknowns result.now }
    {
        row_at(self.numbers.as_slice(), self.columns, at)
    }

    /// The number of the unknowns up to the last one that is left in a row.
    pub(crate) fn top(&self, at: usize) -> usize
        requires { at < length self.now.rows }
        ensures { IsTop self.now.unknowns (row_in self.now.rows at) result }
    {
        self.tops[at]
    }

    /// Keeps one row more.
    pub(crate) fn push(&mut self, numbers: &[i64])
        requires room { length self.old.rows < self.old.room }
        requires row { IsRow self.old.unknowns numbers.now }
        ensures { self.new ≡ record { unknowns = self.old.unknowns; room = self.old.room; rows = self.old.rows ++ numbers.now ∷ [] } }
    {
        let top = top_of(numbers, self.unknowns);
        add(&mut self.numbers, numbers);
        self.tops.push_reserved(top);
    }

    /// Whether a row says that a positive constant is at most 0.
    pub(crate) fn contradicts(&self, at: usize) -> bool
        requires { at < length self.now.rows }
        ensures { IsTrue result ↔ (IsBelow self.now.unknowns 0 (row_in self.now.rows at) × (pos 0 <ℤ constant (row_in self.now.rows at))) }
    {
        self.top(at) == 0 && self.row(at)[0] > 0
    }
}
