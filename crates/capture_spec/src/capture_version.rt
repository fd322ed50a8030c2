// The versions of a capture.

/// Which version a capture's header names.
#[derive(Clone, Copy, Debug, PartialEq, Eq)]
pub enum CaptureVersion {
    /// Entries to the end of the input, without senders.
    One,
    /// Items, of which the last is the end item. Each entry has its sender.
    Two,
}
