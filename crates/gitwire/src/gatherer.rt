//! A packet reader that only one call feeds.

ghost use Rattle.std.specs.Prelude.{◌≡◌, false};
ghost use Rattle.git_pkt.specs.Machine.PacketReader.{passes_of};

use git_pkt::PacketReader;

/// A packet reader that gathers each packet whole: no packet is open whose bytes pass as they come.
#[derive(Drop)]
pub(crate) struct Gatherer {
    pub(crate) reader: PacketReader,
    ghost gathers: { passes_of reader ≡ false },
}

impl Gatherer {
    ghost use Rattle.gitwire.specs.PayloadsLent.{payload_held};

    /// The payload of the packet that the reader gave last, which is in its hold after the four digits.
    pub(crate) fn payload(&self) -> &[u8]
        ensures { result.now ≡ payload_held self.now.reader }
    {
        let packet = self.reader.hold().as_slice();
        &packet[packet.len().min(4)..]
    }
}
