use thiserror::Error;

/// Why a collector isn't opened.
#[derive(Debug, Clone, Copy, PartialEq, Eq, Error)]
pub enum OpenRefusal {
    /// A limit is out of its range: the least number of such a limit, from 1 to 5, as `Limits` numbers them.
    #[error("limit {number} is out of its range")]
    BadLimit { number: u32 },
    /// There is no memory for the tables.
    #[error("there is no memory for the tables")]
    Memory,
}
