//! Further records of the standard (sFlow Version 5, section 5): users, URLs, MPLS label stacks and translated addresses
//! of a sampled packet, and the counters of a processor. Each is read from a frame's body and written as one. Lists are
//! read from the borrowed bytes.
#![tactic(auto)]

mod mpls;
mod nat;
mod processor;
mod url;
mod user;

pub use as_paths::Words;
pub use mpls::MplsRec;
pub use nat::NatRec;
pub use processor::ProcessorCounters;
pub use url::UrlRec;
pub use user::UserRec;

#[cfg(test)]
mod tests;
