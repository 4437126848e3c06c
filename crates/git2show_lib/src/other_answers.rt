//! Answers to commands that are not known, which pass as packets.

ghost use Rattle.std.specs.Prelude.{◌≡◌, false, None};
ghost use Rattle.git_pkt.specs.Machine.PacketReader.{fault_of, passes_of};
ghost use Rattle.git_pkt.specs.Packets.{seen};
ghost use Rattle.git2show_lib.specs.Others.{is_last};
ghost use Rattle.git2show_lib.specs.Machine.OtherAnswers.{ClosesAnswer, PassesChunk};

use git_client::Ending;
use git_names::Steps;
use git_pkt::{Fault, Got, Kind, Packet, PacketReader};

/// Passes over what the chunk has of an answer. Answers where its last packet ends in the chunk, if it does.
pub(crate) fn pass_chunk(
    packets: &mut PacketReader,
    ending: Ending,
    chunk: &[u8],
) -> Result<Option<usize>, Fault>
    requires sound { fault_of packets.old ≡ None }
    requires gathers { passes_of packets.old ≡ false }
    ensures { PassesChunk ending result packets.old packets.new chunk.now }
{
    let mut used = 0;
    while used < chunk.len() {
        let fed = packets.feed(&chunk[used..], &mut Steps::new());
        used += fed.used;
        match fed.got {
            Got::More => return Ok(None),
            Got::Failed(fault) => return Err(fault),
            Got::Packet(packet, _) => {
                if is_last(ending, packet) {
                    return Ok(Some(used));
                }
            }
        }
    }
    Ok(None)
}

/// Whether the packet ends a response.
fn is_last(ending: Ending, packet: Packet<'_>) -> bool
    ensures { result ≡ is_last ending (seen packet.entry) }
{
    match ending {
        Ending::FlushOnly => matches!(packet, Packet::Flush),
        Ending::ResponseEnd => matches!(packet, Packet::RespEnd),
    }
}

/// The input ends although more packets are expected: it is truncated, at the end of the last whole packet.
pub(crate) fn close(packets: &mut PacketReader) -> Fault
    requires { fault_of packets.old ≡ None }
    ensures { ClosesAnswer result packets.old }
{
    match packets.close() {
        Ok(()) => Fault {
            kind: Kind::Truncated,
            offset: packets.position(),
        },
        Err(fault) => fault,
    }
}
