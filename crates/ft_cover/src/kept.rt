//! The values that are kept of a point, as a look at the variables and the memories that they stand for.
ghost use Rattle.std.specs.Prelude.{◌≡◌, ◌<◌, ℕ, not, length, slice_get, IfOk};
ghost use Rattle.std.specs.List.{position_or_len};
ghost use Rattle.ft_linear.specs.meaning.Form.{values_at};
ghost use Rattle.ft_mean.specs.laws.Moves.{is_true_at};
ghost use Rattle.ft_claims.specs.meaning.Names.{kept_true};
ghost use Rattle.ft_cover.specs.building.KeptView.{kept_for, kept_value, kept_view, same_slot};

use ft_base::{List, NoMemory};
use ft_core::{Memory, Tables};
use ft_mean::Look;
use ft_oblige::Slot;
use std::alloc::Global;

/// A value for each slot of a formula, as a look at its later scan. A variable or a memory that has no slot is 0.
#[derive(Clone, Copy)]
pub struct Kept<'a> {
    pub tables: &'a Tables,
    /// Whether the slot of each memory is its bit, as in the formulas of tables. Else it is what the memory keeps: the age of a
    /// timer, or the bit of a band.
    pub bits: bool,
    /// Whether the scan begins, so that each variable was at its `init` before.
    pub anew: bool,
    pub slots: &'a [Slot],
    /// The value of each slot, in the same order.
    pub values: &'a [i64],
}

fn is_other(slot: Slot, wanted: Slot) -> bool
    ensures { result ≡ not (same_slot wanted slot) }
{
    match slot {
        Slot::Variable { place, scan } => match wanted {
            Slot::Variable { place: p, scan: s } => !(p == place && s == scan),
            Slot::Memory { .. } => true,
        },
        Slot::Memory { place, scan } => match wanted {
            Slot::Variable { .. } => true,
            Slot::Memory { place: p, scan: s } => !(p == place && s == scan),
        },
    }
}

// The place of the first such slot, and how many there are where there is none.
fn place_in(slots: &[Slot], wanted: Slot) -> usize
    ensures { result ≡ position_or_len (same_slot wanted) slots.now }
{
    slots
        .iter()
        .take_while(|slot| is_other(**slot, wanted))
        .count()
}

fn value_in(values: &[i64], at: usize) -> i64
    ensures { result ≡ values_at values.now at }
{
    values.get(at).copied().unwrap_or(0)
}

fn value_at(slots: &[Slot], values: &[i64], wanted: Slot) -> i64
    ensures { result ≡ kept_value slots.now values.now wanted }
{
    value_in(values, place_in(slots, wanted))
}

// Whether a memory is true that keeps this number: a timer from its hold on, a band at 1.
fn is_true_at(memory: &Memory, number: i64) -> bool
    ensures { result ≡ is_true_at memory.now number }
{
    match memory {
        Memory::Held { hold, .. } => *hold <= number,
        Memory::Hyst { .. } => number == 1,
    }
}

fn is_kept_true(memories: &[Memory], memory: u32, number: i64) -> bool
    ensures { result ≡ kept_true (slice_get memories.now memory) number }
{
    match memories.get(memory as usize) {
        Some(kept) => is_true_at(kept, number),
        None => number == 1,
    }
}

fn is_recalled(tables: &Tables, bits: bool, memory: u32, number: i64) -> bool
    ensures { result ≡ kept_true (kept_for tables.now bits memory) number }
{
    if bits {
        number == 1
    } else {
        is_kept_true(tables.memories.as_slice(), memory, number)
    }
}

impl<'a> Kept<'a> {
    fn of(&self, wanted: Slot) -> i64
        ensures { result ≡ kept_value self.now.slots.now self.now.values.now wanted }
    {
        value_at(self.slots, self.values, wanted)
    }
}

impl<'a> Look for Kept<'a> {
    ghost view = { λ kept. kept_view kept.tables.now kept.bits kept.anew kept.slots.now kept.values.now };

    fn now_of(&self, variable: u32) -> i64 {
        self.of(Slot::Variable {
            place: variable,
            scan: 0,
        })
    }

    fn before_of(&self, variable: u32) -> i64 {
        if self.anew {
            self.tables.init_of(variable as usize)
        } else {
            self.of(Slot::Variable {
                place: variable,
                scan: 1,
            })
        }
    }

    /// It is 0 where each memory is a bit: no table reads an age.
    fn age_of(&self, memory: u32) -> i64 {
        if self.bits {
            0
        } else {
            self.of(Slot::Memory {
                place: memory,
                scan: 0,
            })
        }
    }

    fn memory_of(&self, memory: u32) -> bool {
        let number = self.of(Slot::Memory {
            place: memory,
            scan: 0,
        });
        is_recalled(self.tables, self.bits, memory, number)
    }
}

/// The first values of a point: as many as are asked for, with 0 where it has no more.
pub fn first_values(alloc: Global, point: &[i64], count: usize) -> Result<List<i64>, NoMemory>
    ensures long { IfOk result (λ values. length values ≡ count) }
    ensures same { IfOk result (λ values. (i : ℕ) → i < count → values_at values i ≡ values_at point.now i) }
{
    let mut values = List::new(alloc);
    for at in 0..count {
        values.push(value_in(point, at))?;
    }
    Ok(values)
}
