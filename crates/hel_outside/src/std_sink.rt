ghost use Rattle.std.specs.Prelude.{◌≡◌, None};

use crate::sink::{Failed, Sink};
use std::io::Write;
use std::marker::Model;

/// A stream of the process: `StdSink::new(rt.stdout())` or `StdSink::new(rt.stderr())` in `main`.
/// It counts its errors, and tells nothing of what was written: contracts see the count alone. Each
/// call is one call of the stream's `write`, and whatever that answers but some of the bytes is a
/// fault.
#[derive(Drop)]
pub struct StdSink<W> {
    stream: W,
    faults: u64,
}

impl<W> Model for StdSink<W> {
    ghost use Rattle.std.specs.Prelude.{ℕ};

    ghost Value = { ℕ };

    ghost view = { λ s. s.faults };
}

impl<W> StdSink<W> {
    pub fn new(stream: W) -> StdSink<W>
        ensures { result ≡ 0 }
    {
        StdSink { stream, faults: 0 }
    }

    /// How many calls have failed.
    pub fn faults(&self) -> u64
        ensures { result ≡ self.now }
    {
        self.faults
    }
}

impl<W: Write + Drop> Sink for StdSink<W> {
    ghost faults = { λ s. s };

    ghost written = { λ _. None };

    fn write(&mut self, bytes: &[u8]) -> Result<usize, Failed> {
        match self.stream.write(bytes) {
            Ok(taken) if taken > 0 || bytes.is_empty() => Ok(taken),
            _ => {
                self.faults = self.faults.saturating_add(1);
                Err(Failed)
            }
        }
    }
}
