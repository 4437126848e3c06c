//! Many packets in one chunk. Each call of the reader gets the rest of it, and looks at the packet that it reads and at nothing after it.
use crate::expecting::expect;
use git_names::Steps;
use git_pkt::{Got, Packet, PacketReader};
use std::test::Fail;

const PACKETS: u64 = 1_000_000;

#[test]
fn a_million_packets_in_one_chunk_are_read_one_by_one(rt: HostRuntime) -> Result<(), Fail> {
    let mut chunk = Vec::new(rt.alloc());
    for _ in 0..PACKETS {
        chunk.extend_from_slice(b"0004")?;
    }
    let mut rest = chunk.as_slice();
    let mut reader = PacketReader::new();
    for number in 0..PACKETS {
        let fed = reader.feed(rest, &mut Steps::new());
        expect(&rt, &fed.used, &4);
        match fed.got {
            Got::Packet(Packet::Payload(payload), offset) => {
                expect(&rt, &payload.len(), &0);
                expect(&rt, &offset, &(4 * number));
            }
            _ => assert!(rt; false, "no packet where the one numbered {number} is"),
        }
        rest = &rest[fed.used..];
    }
    assert!(rt; rest.is_empty());
    expect(&rt, &reader.close(), &Ok(()));
    Ok(())
}
