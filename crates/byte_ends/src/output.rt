ghost use Rattle.std.specs.Prelude.{◌≡◌, None};

use crate::retry::write_again;
use crate::{Failed, Sink};
use std::io;

/// The standard output. It tells nothing of its bytes.
#[derive(Drop)]
pub struct OutputSink<R: Print + Drop> {
    rt: R,
    faults: u64,
}

impl<R: Print + Drop> OutputSink<R> {
    /// The output of the runtime that `main` is given.
    pub fn new(rt: R) -> OutputSink<R>
        ensures { ⟦<OutputSink<R> as Sink>⟧.seen result ≡ record { told = None; faults = 0 } }
    {
        OutputSink { rt, faults: 0 }
    }
}

impl<R: Print + Drop> Sink for OutputSink<R> {
    ghost seen = { λ s. record { told = None; faults = s.faults } };

    // A write that takes nothing of a piece is a failure.
    fn write(&mut self, bytes: &[u8]) -> Result<usize, Failed> {
        match write_again(&mut io::writer(&self.rt), bytes) {
            Ok(count) if count > 0 || bytes.is_empty() => Ok(count),
            _ => {
                self.faults = self.faults.saturating_add(1);
                Err(Failed)
            }
        }
    }
}
