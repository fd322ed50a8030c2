use crate::{Page, Piece};
use byte_ends::MemorySink;
use data_format::{Address, Mac};
use wire_spec::FaultKind;

// 2001:db8::1
const DOCUMENTATION: [u8; 16] = [0x20, 0x01, 0x0d, 0xb8, 0, 0, 0, 0, 0, 0, 0, 0, 0, 0, 0, 1];

#[test]
fn prints_each_kind_of_piece(rt: HostRuntime) {
    let cases = [
        (Piece::Text("agent "), "agent "),
        (Piece::Number(0), "0"),
        (
            Piece::Number(u128::MAX),
            "340282366920938463463374607431768211455",
        ),
        (Piece::Address(Address::Unknown), "unknown"),
        (Piece::Address(Address::V4([10, 0, 0, 1])), "10.0.0.1"),
        (Piece::Address(Address::V4([255; 4])), "255.255.255.255"),
        (
            Piece::Address(Address::V6(DOCUMENTATION)),
            "2001:0db8:0000:0000:0000:0000:0000:0001",
        ),
        (
            Piece::Address(Address::V6([0xab; 16])),
            "abab:abab:abab:abab:abab:abab:abab:abab",
        ),
        (Piece::Hex(&[]), "-"),
        (Piece::Hex(&[0]), "00"),
        (Piece::Hex(&[0xde, 0xad, 0xbe, 0xef, 0x01]), "deadbeef01"),
        (
            Piece::Hex(&DOCUMENTATION),
            "20010db8000000000000000000000001",
        ),
        (
            Piece::Mac(Mac([0x02, 0, 0x5e, 0xff, 0x10, 0x0a])),
            "02:00:5e:ff:10:0a",
        ),
        (Piece::Kind(FaultKind::TooLong), "toolong"),
    ];
    for (piece, want) in cases {
        let mut sink = MemorySink::new(rt.alloc(), 100, Vec::new(rt.alloc()));
        let mut page = Page::new();
        assert_eq!(rt;
            page.put_line(&mut sink, &[piece, Piece::Text("\n")]),
            Ok(())
        );
        assert!(rt; sink.bytes().is_empty());
        assert_eq!(rt; page.flush(&mut sink), Ok(()));
        assert!(rt;
            sink.bytes().strip_suffix(b"\n") == Some(want.as_bytes()),
            "{want}"
        );
    }
}
