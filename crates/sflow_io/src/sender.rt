// Who sent a datagram.

use data_format::Address;

/// Who sent a datagram: the address, and the port (RFC 768).
#[derive(Clone, Copy, Debug, PartialEq, Eq)]
pub struct Sender {
    pub address: Address,
    pub port: u16,
}
