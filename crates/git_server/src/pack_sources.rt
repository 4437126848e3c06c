//! The readers of the packs of a repository, with their failures.

ghost use Rattle.std.specs.Prelude.{◌≡◌, ◌||◌, false, true, IfOk, OnErr};
ghost use Rattle.git_pkt.specs.Machine.Recorded.{has_failed, inner_of};
ghost use Rattle.git_server.specs.Machine.Growths.{has_refused};
ghost use Rattle.git_server.specs.Machine.PackSources.{AreReadFrom, IsReadFrom, has_failure, readers_of};
ghost use Rattle.git_server.specs.Repository.{bytes_of};

use crate::growths::Growths;
use crate::repo::PackFault;
use git_pkt::{Recorded, Retries};
use std::alloc::Global;
use std::io::Read;

/// The maximum number of bytes that a read of a pack returns.
const CHUNK: usize = 65_536;

/// The readers of the pack for each request, and of the pack for each request that has a filter, if that is a different one. An interrupted
/// read is tried again.
#[derive(Drop)]
pub(crate) struct PackSources<P> {
    pack: Recorded<Retries<P>>,
    filtered: Option<Recorded<Retries<P>>>,
    growths: Growths,
}

impl<P: Read + Drop> PackSources<P> {
    /// These readers, before anything was read.
    pub(crate) fn new(alloc: Global, pack: P, filtered: Option<P>) -> PackSources<P>
        ensures readers { readers_of result ≡ (pack, filtered) }
        ensures unfailed { has_failure result ≡ false }
    {
        PackSources {
            pack: Recorded::new(Retries::new(pack)),
            filtered: match filtered {
                Some(reader) => Some(Recorded::new(Retries::new(reader))),
                None => None,
            },
            growths: Growths::new(alloc),
        }
    }

    /// Reads the packs to their ends, both if there are two. It fails only if a read fails, or if memory for the bytes is refused.
    pub(crate) fn read(&mut self) -> Result<(Vec<u8>, Option<Vec<u8>>), PackFault>
        ensures read { IfOk result (λ read. AreReadFrom P.remaining (readers_of self.old) read.0.items (bytes_of read.1)) }
        ensures cause { OnErr result (has_failure self.new ≡ true) }
    {
        let pack = read_whole(&mut self.pack, &mut self.growths)?;
        let filtered = match &mut self.filtered {
            Some(reader) => Some(read_whole(reader, &mut self.growths)?),
            None => None,
        };
        Ok((pack, filtered))
    }
}

// Reads the rest of the bytes.
fn read_whole<R: Read>(
    reader: &mut Recorded<R>,
    growths: &mut Growths,
) -> Result<Vec<u8>, PackFault>
    ensures read { IfOk result (λ read. IsReadFrom (R.remaining (inner_of reader.old)) read.items) }
    ensures cause { OnErr result ((has_failed reader.new || has_refused growths.new) ≡ true) }
{
    let mut read = growths.list();
    let mut chunk = [0; CHUNK];
    loop {
        let Ok(count) = reader.read(&mut chunk) else {
            return Err(PackFault);
        };
        if count == 0 {
            return Ok(read);
        }
        let Ok(()) = growths.extend(&mut read, &chunk[..count]) else {
            return Err(PackFault);
        };
    }
}
