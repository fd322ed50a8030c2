ghost use Rattle.std.specs.Prelude.{◌≡◌, None};

use crate::retry::read_again;
use crate::{Failed, Source};

/// The standard input. It tells nothing of its bytes.
#[derive(Drop)]
pub struct InputSource<R: Input + Drop> {
    rt: R,
    faults: u64,
}

impl<R: Input + Drop> InputSource<R> {
    /// The input of the runtime that `main` is given.
    pub fn new(rt: R) -> InputSource<R>
        ensures { ⟦<InputSource<R> as Source>⟧.seen result ≡ record { told = None; faults = 0 } }
    {
        InputSource { rt, faults: 0 }
    }
}

impl<R: Input + Drop> Source for InputSource<R> {
    ghost seen = { λ s. record { told = None; faults = s.faults } };

    fn read(&mut self, room: &mut [u8]) -> Result<usize, Failed> {
        match read_again(&mut self.rt.reader(), room) {
            Ok(count) => Ok(count),
            Err(_) => {
                self.faults = self.faults.saturating_add(1);
                Err(Failed)
            }
        }
    }
}
