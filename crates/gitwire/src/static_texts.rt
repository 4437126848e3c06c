//! Texts of the library's own, which C may read as long as the library is loaded: `c/gitwire.c` returns them to programs.

ghost use Rattle.std.specs.Prelude.{◌≡◌, Some};
ghost use Rattle.gitwire.specs.StaticTexts.{HasWords, version_text, words_of};

use crate::faults::kind_of;
use git_pkt::Kind;

/// A text of the library's own.
#[repr(C)]
#[derive(Drop)]
pub struct GitwireText {
    /// Its bytes, with the NULs that end it.
    pub bytes: &'static [u8],
}

/// The version of the library, and a NUL.
#[unsafe(no_mangle)]
pub extern "C" fn gitwire_version_text(text: &mut GitwireText)
    ensures { text.new.bytes.now ≡ version_text }
{
    *text = GitwireText { bytes: b"0.3.0\0" };
}

/// The name of the error with this number, a NUL, its sentence, which states what it means and what to look at, and a NUL. Both are
/// empty if no error has the number.
#[unsafe(no_mangle)]
pub extern "C" fn gitwire_fault_words(fault: u32, text: &mut GitwireText)
    ensures { HasWords fault text.new.bytes.now }
{
    let bytes: &'static [u8] = match kind_of(fault) {
        Some(kind) => words(kind),
        None => b"\0\0",
    };
    *text = GitwireText { bytes };
}

fn words(kind: Kind) -> &'static [u8]
    ensures { result.now ≡ words_of (Some kind) }
{
    match kind {
        Kind::BadDigit =>
            b"BadDigit\0a byte of a packet's length is no hexadecimal digit: look at the byte at the offset, and whether the peer sends packets at all\0",
        Kind::BadLength =>
            b"BadLength\0the length of a packet is 0003, which no packet has: look at the packet at the offset\0",
        Kind::TooLong =>
            b"TooLong\0a packet, or a payload that is to be written, is longer than a packet can be, which is 65,520 bytes: look at its length\0",
        Kind::Truncated =>
            b"Truncated\0the input ended inside a packet, or before all that was expected had come: look at why the peer or the connection ended\0",
        Kind::StreamTooLong =>
            b"StreamTooLong\0the stream has more than 9,223,372,036,854,775,807 bytes: begin a new one\0",
        Kind::NoBand =>
            b"NoBand\0a packet of the packfile section has no byte that names its side band: look at the packet at the offset\0",
        Kind::BadBand =>
            b"BadBand\0a packet of the packfile section is on a side band other than 1, 2 and 3: look at its first byte after the length\0",
        Kind::BadCapability =>
            b"BadCapability\0a line is no capability, which is a key, or a key, '=' and a value: look at the packet at the offset\0",
        Kind::UnknownCommand =>
            b"UnknownCommand\0the request has a command other than ls-refs, fetch and object-info: look at its line 'command='\0",
        Kind::TwoCommands =>
            b"TwoCommands\0the request has a second line 'command=': look at the packet at the offset\0",
        Kind::NoCommand =>
            b"NoCommand\0the request has no line 'command=': look at the packets before the offset\0",
        Kind::NotAdvertised =>
            b"NotAdvertised\0a command, a capability or an argument was used that the server did not advertise: compare the request with the advertisement\0",
        Kind::BadObjectName =>
            b"BadObjectName\0a text is no object name of the object format, 40 digits for SHA-1 and 64 for SHA-256: look at the line\0",
        Kind::BadRefName =>
            b"BadRefName\0a text is no reference name, by the rules of git check-ref-format: look at the line\0",
        Kind::BadNumber =>
            b"BadNumber\0a text is no decimal number, or one out of its range: look at the line\0",
        Kind::DeepenConflict =>
            b"DeepenConflict\0the request has 'deepen' beside 'deepen-since' or 'deepen-not': leave one of them out\0",
        Kind::NoWants =>
            b"NoWants\0the fetch has neither 'want' nor 'want-ref', and is no negotiation alone: add what it wants\0",
        Kind::NoSize => b"NoSize\0the object-info request has no 'size': add it\0",
        Kind::WrongFormat =>
            b"WrongFormat\0the object format is not the one of this side: choose the format that the peer has\0",
        Kind::UnknownArgument =>
            b"UnknownArgument\0the command of the request has no such argument: look at the line\0",
        Kind::TooMuchKept =>
            b"TooMuchKept\0the argument lines of the request have more bytes than the limit allows: raise the limit, or refuse such requests\0",
        Kind::UnexpectedPacket =>
            b"UnexpectedPacket\0a packet of this kind may not come here, as a flush in a section or bytes after the end: look at the packet at the offset\0",
        Kind::RemoteError => b"RemoteError\0the peer sent an error packet: its message says why\0",
        Kind::UnknownRef =>
            b"UnknownRef\0a 'want-ref' names a reference that the repository does not have: list the references again\0",
        Kind::NotOurs =>
            b"NotOurs\0a 'want' names an object that the repository does not have, or the host refused the request: list the references again\0",
        Kind::PackSource =>
            b"PackSource\0the pack could not be read or made: look at the host's store\0",
        Kind::NotVersion2 =>
            b"NotVersion2\0the server does not speak version 2 of the protocol: look at how it was asked for, as by GIT_PROTOCOL=version=2\0",
        Kind::UnexpectedSection =>
            b"UnexpectedSection\0a section of the response is unknown, comes twice, or is out of order: look at its header at the offset\0",
        Kind::BadLine =>
            b"BadLine\0a line is none that may stand there, or has a wrong length: look at the packet at the offset\0",
        Kind::OutOfMemory =>
            b"OutOfMemory\0there was no memory to keep an argument or a reference: lower the limit, or serve fewer at a time\0",
        Kind::RemoteFatal =>
            b"RemoteFatal\0the server ended the pack with an error on side band 3: its message says why\0",
        Kind::ReadFault =>
            b"ReadFault\0a read of the input failed: look at what the system reported\0",
        Kind::WriteFault =>
            b"WriteFault\0a write of the output failed: look at what the system reported\0",
        Kind::ReadLimit =>
            b"ReadLimit\0all reads that were allowed were made before the input ended: allow more\0",
    }
}
