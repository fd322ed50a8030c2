use crate::{DatagramHead, DatagramWriter};
use data_format::Address;
use std::test::Fail;
use xdr_words::OutFull;

const AGENT: DatagramHead = DatagramHead {
    agent: Address::V4([10, 0, 0, 1]),
    sub_agent: 0,
    sequence: 1,
    uptime: 1000,
};

#[test]
fn a_refused_beginning_leaves_the_room(rt: HostRuntime) -> Result<(), Fail> {
    let mut room = [1; 27];
    assert_eq!(rt;
        DatagramWriter::begin(&mut room, &AGENT).err(),
        Some(OutFull { need: 28, room: 27 })
    );
    assert_eq!(rt; room, [1; 27]);
    Ok(())
}
