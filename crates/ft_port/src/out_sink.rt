ghost use Rattle.std.specs.Prelude.{◌≡◌, None};

use crate::shelf::Failed;
use crate::sink::Sink;
use std::io;
use std::io::Write;
use std::marker::Model;

/// Standard output. Contracts see the numbers of its writes and of its faults, and not what it took.
#[derive(Drop)]
pub struct OutSink<R: Print + Drop> {
    rt: R,
    writes: u64,
    faults: u64,
}

impl<R: Print + Drop> Model for OutSink<R> {
    ghost use Rattle.ft_port.specs.OutSink.{OutState};

    ghost Value = { OutState };

    ghost view = { λ sink. record { writes = sink.writes; faults = sink.faults } };
}

impl<R: Print + Drop> OutSink<R> {
    /// Standard output, without a write so far.
    pub fn new(rt: R) -> OutSink<R>
        ensures { result ≡ record { writes = 0; faults = 0 } }
    {
        OutSink {
            rt,
            writes: 0,
            faults: 0,
        }
    }
}

/// Writes all the bytes out.
fn put_out<R: Print>(rt: &R, bytes: &[u8]) -> io::Result<()> {
    let mut out = io::writer(rt);
    out.write_all(bytes)?;
    out.flush()
}

impl<R: Print + Drop> Sink for OutSink<R> {
    ghost taken = { λ sink. None };

    ghost writes = { λ sink. sink.writes };

    ghost faults = { λ sink. sink.faults };

    fn write(&mut self, bytes: &[u8]) -> Result<(), Failed> {
        self.writes = self.writes.saturating_add(1);
        if put_out(&self.rt, bytes).is_err() {
            self.faults = self.faults.saturating_add(1);
            return Err(Failed);
        }
        Ok(())
    }
}
