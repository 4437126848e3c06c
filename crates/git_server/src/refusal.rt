//! The packet that reports an error to the peer.

ghost use Rattle.std.specs.Prelude.{◌≡◌, false};
ghost use Rattle.git_pkt.specs.Machine.PacketReader.{is_open};
ghost use Rattle.git_server.specs.Answers.{error_packet};
ghost use Rattle.git_server.specs.Machine.WrittenPackets.{Writes};

use crate::packets::write_line;
use git_pkt::{Fault, PacketReader};

/// Sets the reader's buffer to the error packet, gitprotocol-pack(5), that reports this error by its name and offset. The reader
/// must be between two packets.
pub(crate) fn write_error(reader: &mut PacketReader, fault: Fault)
    requires { is_open reader.old ≡ false }
    ensures { Writes reader.old (error_packet fault) reader.new }
{
    let text = fault.text();
    write_line(reader, b"ERR ", text.as_str().as_bytes());
}
