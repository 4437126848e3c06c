//! The packets of a recording at an error and before it, which show more than the error's offset.

ghost use Rattle.std.specs.Prelude.{◌≡◌, false};
ghost use Rattle.git_pkt.specs.Machine.PacketReader.{passes_of};

use crate::reasons::Shown;
use crate::showing::look_on;
use crate::{CHUNK, TURNS};
use git_names::Steps;
use git_pkt::{Got, PacketReader, Recorded, Retries};
use git2show_lib::{Form, Tally, View, show_view};
use std::fs::{self, File};
use std::io::{self, IsTerminal, Read};

/// How many packets are shown before the one that is refused.
const BEFORE: usize = 4;

/// Which bytes of a recording are shown: whole packets.
#[derive(Clone, Copy, Debug)]
struct Extent {
    from: u64,
    end: u64,
}

/// Prints on standard error, in columns, the packet of a file at this offset and some packets before it. Nothing is printed if there are
/// none, nor of a pipe, which cannot be read again.
pub(crate) fn show_around(rt: &HostRuntime, path: &str, offset: u64) -> io::Result<()> {
    if !fs::metadata(rt, path)?.is_file() {
        return Ok(());
    }
    let mut chunk = [0; CHUNK];
    let file = &mut Retries::new(File::open(rt, path)?);
    let Some(extent) = extent_around(file, offset, &mut chunk)? else {
        return Ok(());
    };
    eprintln!(rt; "the packets of {} up to {offset}:", Shown(path.as_bytes()))?;
    let mut input = Front {
        inner: Retries::new(File::open(rt, path)?),
        left: extent.end,
    };
    let view = View {
        form: Form::Columns(look_on(rt, rt.stderr().is_terminal(), None)),
        from: extent.from,
        no_pack: false,
        only: None,
    };
    let output = &mut Recorded::new(rt.stderr());
    let tally = &mut Tally::START;
    // The error was reported already, and so was a stream that breaks off here.
    let _ = show_view(
        &mut Recorded::new(&mut input),
        output,
        &mut chunk,
        TURNS,
        view,
        tally,
    );
    Ok(())
}

/// The packets of an input up to the one at this offset, or up to its first malformed packet, if there are some.
fn extent_around<R: Read>(
    input: &mut R,
    offset: u64,
    chunk: &mut [u8],
) -> io::Result<Option<Extent>> {
    let mut packets = PacketReader::new();
    let mut last = LastPackets {
        offsets: [0; BEFORE + 1],
        has_any: false,
        end: u64::MAX,
    };
    for _ in 0..u64::MAX {
        let count = input.read(chunk)?;
        if count == 0 || last.note(&mut packets, &chunk[..count], offset) {
            break;
        }
    }
    if !last.has_any {
        return Ok(None);
    }
    let from = last.offsets[0];
    let end = last.end;
    Ok(Some(Extent { from, end }))
}

/// The offsets of the last packets up to one that is looked for, and where that ends.
#[derive(Clone, Copy, Debug)]
struct LastPackets {
    offsets: [u64; BEFORE + 1],
    has_any: bool,
    end: u64,
}

impl LastPackets {
    /// Notes the packets that a chunk completes. Returns whether the one at this offset was among them, or no other comes.
    fn note(&mut self, packets: &mut PacketReader, chunk: &[u8], offset: u64) -> bool
        requires gathers { passes_of packets.old ≡ false }
        ensures gathers { passes_of packets.new ≡ false }
    {
        let mut rest = chunk;
        while !rest.is_empty() {
            let fed = packets.feed(rest, &mut Steps::new());
            let used = fed.used;
            match fed.got {
                Got::More => return false,
                Got::Failed(_) => return true,
                Got::Packet(_, at) => self.push(at),
            }
            if self.offsets[BEFORE] >= offset {
                self.end = packets.position();
                return true;
            }
            rest = &rest[used..];
        }
        false
    }

    fn push(&mut self, at: u64) {
        let [_, second, third, fourth, fifth] = self.offsets;
        self.offsets = [second, third, fourth, fifth, at];
        self.has_any = true;
    }
}

/// The first bytes of a reader.
#[derive(Debug, Drop)]
struct Front<R> {
    inner: R,
    left: u64,
}

impl<R: Read> Read for Front<R> {
    fn read(&mut self, buf: &mut [u8]) -> io::Result<usize> {
        let most = self.left.min(buf.len() as u64) as usize;
        let count = self.inner.read(&mut buf[..most])?;
        self.left = self.left.saturating_sub(count as u64);
        Ok(count)
    }
}
