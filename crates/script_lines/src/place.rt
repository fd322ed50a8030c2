/// Where a reader stands in a script.
#[derive(Clone, Copy, Debug, PartialEq, Eq)]
pub struct Place {
    /// Whether the line that a script begins with was read.
    pub begun: bool,
    /// How many lines were read, at most 2^32 - 1.
    pub count: u64,
}
