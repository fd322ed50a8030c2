//! Datagrams go on to receivers that were handed in, by routes.
#![tactic(auto)]

pub mod laws;
mod parts;
mod progress;
mod receivers;
mod relay_lines;
mod route;
mod routes;
pub mod rows;

pub use data_format::Address;
pub use datagram_links::{Failed, Receiver};
pub use progress::Progress;
pub use receivers::Receivers;
pub use relay_lines::put_relays;
pub use routes::Routes;

#[cfg(test)]
mod tests;
