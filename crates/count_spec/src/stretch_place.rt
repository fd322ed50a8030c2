/// Where an item belongs among the stretches of those before it, as a datagram among the boots of its stream.
#[derive(Debug, Clone, Copy, PartialEq, Eq)]
pub enum StretchPlace {
    /// In the current stretch.
    Current,
    /// In the next stretch, which it begins.
    Next,
    /// In an earlier stretch, so in none.
    Stale,
}
