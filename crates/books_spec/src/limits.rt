ghost use Rattle.std.specs.Prelude.{◌≡◌};
ghost use Rattle.books_spec.specs.Limits.{usual_limits, refused_limit, is_within as within};

/// What a collector may hold, and how it counts.
#[derive(Clone, Copy, Debug, PartialEq, Eq)]
pub struct Limits {
    /// Limit 1: how many streams are listed at most, from 1 to 4,096.
    pub streams: u32,
    /// Limit 2: how many sources are listed at most, from 1 to 65,536.
    pub sources: u32,
    /// Limit 3: the width of the windows over datagram numbers, from 1 to 8,192.
    pub datagram_width: u32,
    /// Limit 4: the width of the windows over sample numbers, from 1 to 8,192.
    pub sample_width: u32,
    /// Limit 5: by how many ms the boot marks, arrival less uptime, of one boot may differ, from 100 to 1,073,741,824.
    pub boot_slack: u32,
}

impl Limits {
    /// The limits where none is asked for: 256 streams, 4,096 sources, windows of 64 datagrams and of 1,024 samples,
    /// and a slack of 5,000 ms.
    pub fn usual() -> Limits
        ensures { result ≡ usual_limits }
    {
        Limits {
            streams: 256,
            sources: 4_096,
            datagram_width: 64,
            sample_width: 1_024,
            boot_slack: 5_000,
        }
    }

    /// The least number of a limit that is out of its range; `None` where each is within it.
    pub fn refused(&self) -> Option<u32>
        ensures { result ≡ refused_limit self.now }
    {
        if !is_within(self.streams, 1, 4_096) {
            return Some(1);
        }
        if !is_within(self.sources, 1, 65_536) {
            return Some(2);
        }
        if !is_within(self.datagram_width, 1, 8_192) {
            return Some(3);
        }
        if !is_within(self.sample_width, 1, 8_192) {
            return Some(4);
        }
        if !is_within(self.boot_slack, 100, 1_073_741_824) {
            return Some(5);
        }
        None
    }
}

fn is_within(value: u32, least: u32, most: u32) -> bool
    ensures { result ≡ within value least most }
{
    least <= value && value <= most
}
