//! Lists that are read from borrowed bytes and walked: words, and the segments of AS paths (sFlow Version 5, section 5).
#![tactic(auto)]

mod laws;
mod path;
mod segment;
mod words;

pub use laws::one_path_or_one_fault;
pub use path::AsPath;
pub use segment::Segment;
pub use words::Words;
