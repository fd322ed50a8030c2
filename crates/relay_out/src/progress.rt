/// How far a receiver is: how many datagrams it took since it was aimed, and whether it failed since then, after which
/// nothing goes to it.
#[derive(Clone, Copy, Debug, PartialEq, Eq)]
pub struct Progress {
    pub passed: u64,
    pub stopped: bool,
}

impl Progress {
    ghost use Rattle.std.specs.Prelude.{◌≡◌};
    ghost use Rattle.relay_out.specs.Relays.{at_start};

    /// Nothing passed, and not stopped.
    pub fn start() -> Progress
        ensures { result ≡ at_start }
    {
        Progress {
            passed: 0,
            stopped: false,
        }
    }
}
