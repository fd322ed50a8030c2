use crate::{Passed, PcapNext, PcapReader, Sender, read_payload};
use data_format::Address;
use sflow_io::MemorySource;
use std::alloc::AllocError;

// A file of one packet at 1.25 s, the lowest byte of a number first: a datagram of sFlow from port 49152 of 10.0.0.9.
const FILE: [u8; 110] = [
    0xd4, 0xc3, 0xb2, 0xa1, 2, 0, 4, 0, 0, 0, 0, 0, 0, 0, 0, 0, 0xff, 0xff, 0, 0, 1, 0, 0, 0, //
    1, 0, 0, 0, 0x90, 0xd0, 3, 0, 70, 0, 0, 0, 70, 0, 0, 0, //
    0, 0, 0, 0, 0, 0, 0, 0, 0, 0, 0, 0, 8, 0, //
    0x45, 0, 0, 56, 0, 0, 0, 0, 0x40, 17, 0, 0, 10, 0, 0, 9, 10, 0, 0, 0xfe, //
    0xc0, 0, 0x18, 0xc7, 0, 36, 0, 0, //
    0, 0, 0, 5, 0, 0, 0, 1, 10, 0, 0, 1, 0, 0, 0, 0, 0, 0, 0, 1, 0, 0, 3, 0xe8, 0, 0, 0, 0,
];

// The frame's sender, and how many bytes of payload it has.
fn sent_by(frame: &[u8]) -> Result<(Sender, usize), Passed> {
    let payload = read_payload(frame)?;
    Ok((payload.sender, payload.bytes.len()))
}

#[test]
fn a_file_is_read_in_pieces(rt: HostRuntime) -> Result<(), AllocError> {
    let bytes = Vec::from_slice(rt.alloc(), &FILE)?;
    let mut source = MemorySource::new(bytes, 7, Vec::new(rt.alloc()));
    let mut room = vec![in rt.alloc(); 0u8; 262144]?;
    let Ok(mut reader) = PcapReader::open(rt.alloc()) else {
        return Err(AllocError);
    };
    let first = reader.next(&mut source, &mut room);
    assert_eq!(rt; first, Ok(PcapNext::Packet { at: 1250, len: 70 }));
    let sender = Sender {
        address: Address::V4([10, 0, 0, 9]),
        port: 49152,
    };
    assert_eq!(rt; sent_by(&FILE[40..]), Ok((sender, 28)));
    let last = reader.next(&mut source, &mut room);
    assert_eq!(rt; last, Ok(PcapNext::End));
    Ok(())
}
