use crate::{ReadRefusal, ScriptLine, ScriptReader};
use byte_ends::MemorySource;
use std::alloc::AllocError;
use std::test::Fail;
use wire_spec::InputKind;

fn source(rt: &HostRuntime, bytes: &[u8]) -> Result<MemorySource, AllocError> {
    let bytes = Vec::from_slice(rt.alloc(), bytes)?;
    Ok(MemorySource::new(bytes, 3, Vec::new(rt.alloc())))
}

fn open(rt: &HostRuntime) -> Result<ScriptReader, AllocError> {
    ScriptReader::open(rt.alloc()).or(Err(AllocError))
}

#[test]
fn lines_are_given_from_pieces(rt: HostRuntime) -> Result<(), Fail> {
    let mut source = source(
        &rt,
        b"#\nsflow-script 1\n\nmax 600\npacket 0:5 in 5 out 6 vlan 9 length 64 00ff",
    )?;
    let mut reader = open(&rt)?;
    assert!(rt;
        matches!(
            reader.next(&mut source),
            Ok(Some(ScriptLine::Max { bytes: 600 }))
        )
    );
    assert_eq!(rt; reader.number(), 4);
    match reader.next(&mut source) {
        Ok(Some(ScriptLine::Packet { vlan, header, .. })) => {
            assert_eq!(rt; vlan, Some(9));
            assert_eq!(rt; header.as_slice(), b"\0\xff".as_slice());
        }
        _ => assert!(rt; false),
    }
    assert!(rt; matches!(reader.next(&mut source), Ok(None)));
    assert!(rt; matches!(reader.next(&mut source), Ok(None)));
    Ok(())
}

#[test]
fn a_line_without_shape_is_refused_again(rt: HostRuntime) -> Result<(), Fail> {
    let mut source = source(&rt, b"sflow-script 1\nsend 1 05\nsend 1 5\n")?;
    let mut reader = open(&rt)?;
    for _ in 0..2 {
        match reader.next(&mut source) {
            Err(refusal) => {
                let at = 2;
                let kind = InputKind::Script;
                assert_eq!(rt; refusal, ReadRefusal::BadInput { at, kind });
            }
            Ok(_) => assert!(rt; false),
        }
    }
    assert_eq!(rt; reader.number(), 0);
    Ok(())
}
