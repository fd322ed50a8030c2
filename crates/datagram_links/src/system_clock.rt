ghost use Rattle.std.specs.Prelude.{◌≡◌, None};

use crate::Clock;
use std::time::{self, SystemTime, UNIX_EPOCH};
use wire_spec::Failed;

/// The clock of the machine, in ms from 1970 on. It fails where the machine gives no time. It tells nothing.
#[derive(Drop)]
pub struct SystemClock<R: time::Clock + Drop> {
    rt: R,
    faults: u64,
}

impl<R: time::Clock + Drop> SystemClock<R> {
    /// The clock of the runtime that `main` is given.
    pub fn new(rt: R) -> SystemClock<R>
        ensures { ⟦<SystemClock<R> as Clock>⟧.seen result ≡ record { told = None; faults = 0 } }
    {
        SystemClock { rt, faults: 0 }
    }
}

fn ms_since_1970<R: time::Clock>(rt: &R) -> Option<u64> {
    let now = SystemTime::now(rt).ok()?;
    let since = now.duration_since(UNIX_EPOCH).ok()?;
    u64::try_from(since.as_millis()).ok()
}

impl<R: time::Clock + Drop> Clock for SystemClock<R> {
    ghost seen = { λ s. record { told = None; faults = s.faults } };

    fn now(&mut self) -> Result<u64, Failed> {
        match ms_since_1970(&self.rt) {
            Some(at) => Ok(at),
            None => {
                self.faults = self.faults.saturating_add(1);
                Err(Failed)
            }
        }
    }
}
