use count_spec::Entered;

/// What the ledger of a source answers to a sample.
#[derive(Debug, Clone, Copy, PartialEq, Eq)]
pub enum Booked {
    /// It is in a generation, whose window answered so.
    Entered(Entered),
    /// It comes from an earlier generation of its source, so it is in none.
    Past,
}
