//! Links over which datagrams come and go, receivers of datagrams, and clocks: over memory, and over a UDP socket and
//! the clock of the machine. Each counts its own faults.
//!
//! A socket and the machine's clock tell nothing of what they give and take, so no clause ties it to the network or
//! to the time. Tests try sockets over the loopback of the machine, where it has one.
#![tactic(auto)]

mod clock;
mod link;
mod link_item;
mod list_clock;
mod list_receiver;
mod memory_link;
mod received;
mod receiver;
mod sockets;
mod system_clock;
mod udp_link;
mod udp_receiver;

pub use clock::Clock;
pub use link::Link;
pub use link_item::LinkItem;
pub use list_clock::ListClock;
pub use list_receiver::ListReceiver;
pub use memory_link::MemoryLink;
pub use received::Received;
pub use receiver::Receiver;
pub use system_clock::SystemClock;
pub use udp_link::UdpLink;
pub use udp_receiver::UdpReceiver;
pub use wire_spec::Failed;

#[cfg(test)]
mod tests;
