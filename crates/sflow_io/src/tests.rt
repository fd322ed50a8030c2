ghost use Rattle.std.specs.Prelude.{◌≡◌, IfOk, vec_len};

use crate::{
    CaptureReader, CaptureWriter, CaptureWriter2, MemorySink, MemorySource, Next, Sender, read_most,
};
use data_format::Address;
use std::alloc::{AllocError, Global};
use std::test::Fail;

// Datagrams of all paddings, and how many bytes their capture has.
const ENTRIES: [(u64, &[u8]); 4] = [(1000, b"abcd"), (0, b""), (u64::MAX, b"a"), (2, b"bcd")];

const LENGTH: usize = 8 + 16 + 12 + 16 + 16;

const ROOM: usize = 1 << 16;

fn new_room(alloc: Global) -> Result<Vec<u8>, AllocError>
    ensures { IfOk result (λ room. vec_len room ≡ 65536) }
{
    Ok(vec![in alloc; 0; ROOM]?)
}

fn open_reader(rt: &HostRuntime) -> Result<CaptureReader, AllocError> {
    CaptureReader::open(rt.alloc()).or(Err(AllocError))
}

#[test]
fn what_is_written_is_read(rt: HostRuntime) -> Result<(), Fail> {
    let mut memory = new_room(rt.alloc())?;
    let room = memory.as_mut_slice();
    let mut sink = MemorySink::new(rt.alloc(), 100, Vec::new(rt.alloc()));
    let begun = CaptureWriter::begin(&mut sink);
    assert!(rt; begun.is_ok());
    if let Ok(mut writer) = begun {
        for (at, bytes) in ENTRIES {
            assert!(rt; bytes.len() <= 65_535);
            assert_eq!(rt; writer.entry(&mut sink, at, bytes), Ok(()));
        }
    }
    let bytes = Vec::from_slice(rt.alloc(), sink.bytes())?;
    let mut source = MemorySource::new(bytes, 3, Vec::new(rt.alloc()));
    assert_eq!(rt; read_most(&mut source, room), Ok(LENGTH));

    let bytes = Vec::from_slice(rt.alloc(), sink.bytes())?;
    let mut source = MemorySource::new(bytes, 3, Vec::new(rt.alloc()));
    let mut reader = open_reader(&rt)?;
    for (at, bytes) in ENTRIES {
        let len = bytes.len();
        let next = Next::Entry {
            at,
            from: None,
            len,
        };
        assert_eq!(rt; reader.next(&mut source, room), Ok(next));
        assert!(rt; len <= room.len());
        assert_eq!(rt; &room[..len], bytes);
    }
    assert_eq!(rt; reader.next(&mut source, room), Ok(Next::End));
    Ok(())
}

const FROM: [Address; 3] = [
    Address::Unknown,
    Address::V4([10, 0, 0, 9]),
    Address::V6([7; 16]),
];

const SENT_LENGTH: usize = 8 + 28 + 32 + 44 + 12;

#[test]
fn what_is_written_with_senders_is_read(rt: HostRuntime) -> Result<(), Fail> {
    let mut memory = new_room(rt.alloc())?;
    let room = memory.as_mut_slice();
    let mut sink = MemorySink::new(rt.alloc(), 200, Vec::new(rt.alloc()));
    let begun = CaptureWriter2::begin(&mut sink);
    assert!(rt; begun.is_ok());
    if let Ok(mut writer) = begun {
        for address in FROM {
            let from = Sender {
                address,
                port: 6343,
            };
            assert!(rt; writer.entries() < 1 << 48);
            assert_eq!(rt; writer.entry(&mut sink, 1000, &from, b"abc"), Ok(()));
        }
        assert_eq!(rt; writer.end(&mut sink), Ok(()));
    }
    assert_eq!(rt; sink.bytes().len(), SENT_LENGTH);
    let bytes = Vec::from_slice(rt.alloc(), sink.bytes())?;
    let mut source = MemorySource::new(bytes, 3, Vec::new(rt.alloc()));
    let mut reader = open_reader(&rt)?;
    assert_eq!(rt; reader.version(), None);
    for address in FROM {
        let from = Some(Sender {
            address,
            port: 6343,
        });
        let next = Next::Entry {
            at: 1000,
            from,
            len: 3,
        };
        assert_eq!(rt; reader.next(&mut source, room), Ok(next));
        assert_eq!(rt; &room[..3], b"abc".as_slice());
    }
    assert_eq!(rt; reader.next(&mut source, room), Ok(Next::End));
    assert_eq!(rt; reader.version(), Some(2));
    Ok(())
}
