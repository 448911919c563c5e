//! Finished scans as the judge keeps them.
ghost use Rattle.std.specs.Prelude.{◌≡◌, pos, negsuc, false, [], slice_index_or};
ghost use Rattle.ft_mean.specs.judge.Seen.{view_at};

use crate::look::Look;
use ft_base::List;
use ft_core::History;

/// A value of each variable of the set at each scan and one scan before, and the truth of each memory there.
#[derive(Drop)]
pub(crate) struct Seen {
    pub rows: History,
    pub past: History,
    pub bits: List<List<bool>>,
}

/// One of its scans.
#[derive(Clone, Copy)]
pub(crate) struct SeenAt<'a> {
    pub seen: &'a Seen,
    pub scan: usize,
}

impl<'a> Look for SeenAt<'a> {
    ghost view = { λ at. view_at at.seen.now at.scan };

    fn now_of(&self, variable: u32) -> i64 {
        number_at(&self.seen.rows, self.scan, variable as usize)
    }

    fn before_of(&self, variable: u32) -> i64 {
        number_at(&self.seen.past, self.scan, variable as usize)
    }

    /// No table and no memory reads an age.
    fn age_of(&self, _memory: u32) -> i64 {
        -1
    }

    fn memory_of(&self, memory: u32) -> bool {
        bit_at(&self.seen.bits, self.scan, memory as usize)
    }
}

/// The value of a variable at a scan, and 0 where there is none.
pub(crate) fn number_at(rows: &History, scan: usize, variable: usize) -> i64
    ensures { result ≡ slice_index_or (slice_index_or rows.now scan []) variable (pos 0) }
{
    if scan < rows.scans() && variable < rows.width(scan) {
        rows.value(scan, variable)
    } else {
        0
    }
}

fn bit_in(row: &List<bool>, memory: usize) -> bool
    ensures { result ≡ slice_index_or row.now memory false }
{
    if memory < row.len() {
        *row.get(memory)
    } else {
        false
    }
}

/// The truth of a memory at a scan, and false where there is none.
pub(crate) fn bit_at(bits: &List<List<bool>>, scan: usize, memory: usize) -> bool
    ensures { result ≡ slice_index_or (slice_index_or bits.now scan []) memory false }
{
    if scan < bits.len() {
        bit_in(bits.get(scan), memory)
    } else {
        false
    }
}
