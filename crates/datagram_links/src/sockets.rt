// UDP sockets at the places that texts name: an IPv4 or an IPv6 address or the name of a host, with a port, as in
// `127.0.0.1:6343` and `[::1]:6343`.

use std::io;
use std::net::{Net, UdpSocket};
use std::time::Duration;

// How long a receive waits.
const WAIT_MS: u64 = 1000;

// A socket that listens at the place.
pub(crate) fn listening_socket<R: Net>(rt: &R, place: &str) -> io::Result<UdpSocket> {
    let socket = UdpSocket::bind(rt, place)?;
    socket.set_read_timeout(Some(Duration::from_millis(WAIT_MS)))?;
    Ok(socket)
}

fn connected_socket<R: Net>(rt: &R, own: &str, place: &str) -> io::Result<UdpSocket> {
    let socket = UdpSocket::bind(rt, own)?;
    socket.connect(place)?;
    Ok(socket)
}

// A socket that sends to the place, whichever of the two kinds of address that is.
pub(crate) fn aimed_socket<R: Net>(rt: &R, place: &str) -> io::Result<UdpSocket> {
    match connected_socket(rt, "0.0.0.0:0", place) {
        Ok(socket) => Ok(socket),
        Err(_) => connected_socket(rt, "[::]:0", place),
    }
}

// Sends one datagram, whole. False where that didn't go well.
pub(crate) fn sent(socket: &Option<UdpSocket>, bytes: &[u8]) -> bool {
    match socket {
        Some(socket) => matches!(socket.send(bytes), Ok(count) if count == bytes.len()),
        None => false,
    }
}
