// What a line of a script made its device do.
use crate::script_run::Sent;
use data_format::SourceId;
use true_samples::Seen;

/// What a line of a script made the device do. Sub-agents have places, by the order of their lines; uptimes and times are in
/// ms.
#[derive(Drop)]
pub(crate) enum Step {
    /// It set something up.
    SetUp,
    /// A source of the sub-agent at a place saw a packet, and this came of it.
    Observed {
        place: usize,
        source: SourceId,
        seen: Seen,
    },
    /// The sub-agent at a place polled so many of its sources.
    Polled {
        place: usize,
        uptime: u32,
        count: u32,
    },
    /// The sub-agent at a place sent all that it had staged.
    Sent {
        place: usize,
        uptime: u32,
        sent: Sent,
    },
    /// The sub-agent at a place restarted.
    Restarted {
        place: usize,
    },
    /// A source of the sub-agent at a place began anew.
    Reset {
        place: usize,
        flow: bool,
        source: SourceId,
    },
    /// A datagram that the sub-agent at a place sent arrives: that of a number of a boot, each counted from 1.
    Delivered {
        place: usize,
        boot: u64,
        number: u64,
        at: u64,
    },
}
