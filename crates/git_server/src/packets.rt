//! Writing packets into a buffer.

ghost use Rattle.std.specs.Prelude.{◌≡◌, ◌≤◌, ◌<◌, ◌+◌, ◌++◌, length, false};
ghost use Rattle.git_pkt.specs.Digits.{digits_of};
ghost use Rattle.git_pkt.specs.Packets.{body_of, seen, spelling_of, longest_payload};
ghost use Rattle.git_pkt.specs.Machine.PacketReader.{is_open};
ghost use Rattle.git_msg.specs.WrittenRequest.{text_line};
ghost use Rattle.git_server.specs.Machine.WrittenPackets.{Writes};

use git_msg::put_line;
use git_names::lower_digit;
use git_pkt::{Hold, Packet, PacketReader, append, put};

/// Sets the reader's buffer to the packet's spelling. The reader must be between two packets.
pub(crate) fn write_packet(reader: &mut PacketReader, packet: Packet<'_>)
    requires between { is_open reader.old ≡ false }
    requires fits { length (body_of (seen packet)) ≤ longest_payload }
    ensures { Writes reader.old (seen packet.entry) reader.new }
{
    put(reader.lend(), packet);
    let _ = reader.hold();
}

/// Sets the reader's buffer to the packet of a line: a word and the value after it. The reader must be between two packets.
pub(crate) fn write_line(reader: &mut PacketReader, word: &[u8], value: &[u8])
    requires between { is_open reader.old ≡ false }
    requires fits { length word.now + length value.now < longest_payload }
    ensures { Writes reader.old (text_line (word.now ++ value.now)) reader.new }
{
    put_line(reader.lend(), word, value);
    let _ = reader.hold();
}

/// Appends the packet's spelling. The buffer must have space for it.
pub(crate) fn append_packet(hold: &mut Hold, packet: Packet<'_>)
    requires { length hold.old.items + length (spelling_of (seen packet)) ≤ 65520 }
    ensures { hold.new.items ≡ hold.old.items ++ spelling_of (seen packet.entry) }
{
    match packet {
        Packet::Flush => append_spelling(hold, 0, b""),
        Packet::Delim => append_spelling(hold, 1, b""),
        Packet::RespEnd => append_spelling(hold, 2, b""),
        Packet::Payload(payload) => append_spelling(hold, payload.len() + 4, payload),
    }
}

/// Appends the packet of a line: a word and the value after it. The buffer must have space for it.
pub(crate) fn append_line(hold: &mut Hold, word: &[u8], value: &[u8])
    requires { length hold.old.items + length (spelling_of (text_line (word.now ++ value.now))) ≤ 65520 }
    ensures { hold.new.items ≡ hold.old.items ++ spelling_of (text_line (word.now ++ value.now)) }
{
    append_spelling(hold, word.len() + value.len() + 5, word);
    append(hold, value);
    append(hold, b"\n");
}

// Appends four digits and then the body.
fn append_spelling(hold: &mut Hold, field: usize, body: &[u8])
    requires digits { field < 65536 }
    requires space { length hold.old.items + 4 + length body.now ≤ 65520 }
    ensures { hold.new.items ≡ hold.old.items ++ (digits_of field ++ body.now) }
{
    append(
        hold,
        &[
            lower_digit(field / 4096),
            lower_digit(field / 256 % 16),
            lower_digit(field / 16 % 16),
            lower_digit(field % 16),
        ],
    );
    append(hold, body);
}
