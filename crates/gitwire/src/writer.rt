//! A writer of packets that C holds: a buffer for one packet.

ghost use Rattle.std.specs.Prelude.{◌≡◌, None};
ghost use Rattle.gitwire.specs.Handles.{writer_in};
ghost use Rattle.gitwire.specs.WrittenForC.{BeginsToWrite};

use crate::answer::What;
use crate::handles::{GitwireWriter, Holds, fill};
use crate::machine::PacketBuffer;
use git_pkt::Hold;
use std::alloc::Global;
use std::mem::replace;

/// Makes the handle's writer a new one. What it had before is freed. `Done`; or `OutOfMemory`, and the handle has none.
#[unsafe(no_mangle)]
pub extern "C" fn gitwire_writer_init(alloc: Global, writer: &mut GitwireWriter) -> u32
    ensures { BeginsToWrite result (writer_in writer.new) }
{
    *writer = GitwireWriter::none(alloc);
    let buffer = PacketBuffer { hold: Hold::new() };
    let Ok(made) = Box::new(alloc, buffer) else {
        return What::OutOfMemory.number();
    };
    fill(writer, alloc, made).number()
}

/// Frees the writer. The handle has none from then on.
#[unsafe(no_mangle)]
pub extern "C" fn gitwire_writer_clear(alloc: Global, writer: &mut GitwireWriter)
    ensures { writer_in writer.new ≡ None }
{
    drop(replace(writer, GitwireWriter::none(alloc)));
}
