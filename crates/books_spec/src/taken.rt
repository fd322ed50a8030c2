/// What a collector answers to an entry.
#[derive(Debug, Clone, Copy, PartialEq, Eq)]
pub enum Taken {
    /// The first datagram of its number, whose samples are entered.
    First,
    /// Its number was counted before.
    Repeat,
    /// Its number is too far below the greatest one of its boot.
    Late,
    /// It comes from an earlier boot of its sub-agent.
    Stale,
    /// Its stream is new, and there is no room for it.
    Unlisted,
    /// The entry is no datagram.
    Malformed,
    /// 2^48 entries were taken before; this one isn't.
    Spent,
}
