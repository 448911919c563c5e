ghost use Rattle.std.specs.Prelude.{◌≡◌, ◌↔◌, true, false, min, ◌⊎◌, ◌<◌, IsTrue, IsSome, ◌++◌, ◌+◌, ◌-◌, ◌≤◌, ◌==◌, ℕ, List, [], Option};
ghost use Rattle.std.specs.Prelude.{Some, IfOk, IsErr, length, take, unwrap_or};
ghost use Rattle.std.specs.List.{find};
ghost use Rattle.std.specs.Option.{option_map};
ghost use Rattle.ft_port.specs.Causes.{HasCause, one_more};
ghost use Rattle.ft_port.specs.Sink.{Takes};
ghost use Rattle.ft_port.specs.MemSink.{MustFail, cut_of, taken_of};

use crate::shelf::Failed;
use crate::sink::Sink;
use ft_base::{List, NoMemory};
use std::alloc::Global;
use std::marker::Model;

/// A sink in memory, of a fixed room. It fails at the calls that are listed, and where a write doesn't fit.
#[derive(Drop)]
pub struct MemSink {
    buffer: Vec<u8>,
    used: usize,
    failing: List<(u64, usize)>,
    calls: u64,
    faults: u64,
}

impl Model for MemSink {
    ghost use Rattle.std.specs.Prelude.{take, length, ◌-◌, ◌≤◌};
    ghost use Rattle.ft_port.specs.MemSink.{SinkState};

    ghost Value = { SinkState };

    ghost view = { λ s. record {
      taken = take s.used s.buffer.items;
      room = length s.buffer.items - s.used;
      calls = s.calls;
      failing = s.failing;
      faults = s.faults;
    } };

    ghost invariant = { λ s. s.used ≤ length s.buffer.items };
}

/// The number of bytes after which the call of this number fails, where it is listed.
fn cut_at(failing: &[(u64, usize)], call: u64) -> Option<usize>
    ensures { result ≡ option_map (λ entry. entry.1) (find (λ entry. entry.0 == call) failing.now) }
{
    failing
        .iter()
        .find(|entry| entry.0 == call)
        .map(|entry| entry.1)
}

/// Whether a write of this size fails: where its call is listed, or it doesn't fit.
fn must_fail(cut: Option<usize>, room: usize, size: usize) -> bool
    ensures { IsTrue result ↔ (IsSome cut ⊎ (room < size)) }
{
    cut.is_some() || room < size
}

/// How many of its bytes a write of this size takes.
fn count_of(cut: Option<usize>, room: usize, size: usize) -> usize
    ensures { result ≡ min (min (unwrap_or cut size) size) room }
{
    cut.unwrap_or(size).min(size).min(room)
}

/// Writes the bytes from this place on.
fn put(buffer: &mut [u8], at: usize, bytes: &[u8])
    requires { at + length bytes.now ≤ length buffer.old }
    ensures { take (at + length bytes.now) buffer.new ≡ take at buffer.old ++ bytes.now }
{
    buffer[at..at + bytes.len()].copy_from_slice(bytes);
}

impl MemSink {
    /// An empty sink of this room in bytes. An entry of `failing` is a call's number, from 1, and the number of
    /// bytes after which that call fails; the first entry of a call's number counts.
    pub fn open(
        alloc: Global,
        room: usize,
        failing: List<(u64, usize)>,
    ) -> Result<MemSink, NoMemory>
        ensures { IfOk result (λ sink. sink ≡ record { taken = []; room = room; calls = 0; failing = failing; faults = 0 }) }
    {
        let buffer = Vec::from_elem(alloc, 0u8, room)?;
        Ok(MemSink {
            buffer,
            used: 0,
            failing,
            calls: 0,
            faults: 0,
        })
    }

    /// All that was taken.
    pub fn taken(&self) -> &[u8]
        ensures { result.now ≡ self.now.taken }
    {
        &self.buffer[..self.used]
    }

    /// The number of bytes after which the next call fails, where it is listed.
    fn next_cut(&self) -> Option<usize>
        ensures { result ≡ cut_of self.now }
    {
        cut_at(self.failing.as_slice(), self.calls.saturating_add(1))
    }

    /// How many more bytes have room.
    fn room(&self) -> usize
        ensures { result ≡ self.now.room }
    {
        self.buffer.len() - self.used
    }

    /// Adds these bytes, for which there is room.
    fn append(&mut self, bytes: &[u8])
        requires { length bytes.now ≤ self.old.room }
        ensures { self.new ≡ record {
          taken = self.old.taken ++ bytes.now;
          room = self.old.room - length bytes.now;
          calls =
              self.old.calls;
          failing = self.old.failing;
          faults = self.old.faults;
        } }
    {
        put(&mut self.buffer, self.used, bytes);
        self.used += bytes.len();
    }

    /// Takes what the next call may take of the bytes, and tells whether the call succeeds.
    fn take(&mut self, bytes: &[u8]) -> bool
        ensures part { self.new.taken ≡ self.old.taken ++ take (taken_of self.old (length bytes.now)) bytes.now }
        ensures room { self.new.room + taken_of self.old (length bytes.now) ≡ self.old.room }
        ensures fails { (result ≡ false) ↔ MustFail self.old (length bytes.now) }
        ensures all { result ≡ true → self.new.taken ≡ self.old.taken ++ bytes.now }
        ensures calls { self.new.calls ≡ one_more self.old.calls }
        ensures failing { self.new.failing ≡ self.old.failing }
        ensures faults { self.new.faults ≡ self.old.faults }
    {
        let cut = self.next_cut();
        let room = self.room();
        let count = count_of(cut, room, bytes.len());
        self.calls = self.calls.saturating_add(1);
        self.append(&bytes[..count]);
        !must_fail(cut, room, bytes.len())
    }
}

impl Sink for MemSink {
    ghost taken = { λ s. Some s.taken };

    ghost writes = { λ s. s.calls };

    ghost faults = { λ s. s.faults };

    fn write(&mut self, bytes: &[u8]) -> Result<(), Failed>
        ensures taken { Takes (Some self.old.taken) (Some self.new.taken) bytes.now result }
        ensures cause { HasCause self.old.faults self.new.faults result }
        ensures part { self.new.taken ≡ self.old.taken ++ take (taken_of self.old (length bytes.now)) bytes.now }
        ensures room { self.new.room + taken_of self.old (length bytes.now) ≡ self.old.room }
        ensures fails { IsErr result ↔ MustFail self.old (length bytes.now) }
        ensures writes { self.new.calls ≡ one_more self.old.calls }
        ensures failing { self.new.failing ≡ self.old.failing }
    {
        if self.take(bytes) {
            return Ok(());
        }
        self.faults = self.faults.saturating_add(1);
        Err(Failed)
    }
}
