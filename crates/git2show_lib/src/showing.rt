//! Packets shown as lines.

ghost use Rattle.std.specs.Prelude.{◌≡◌, ◌<◌, ◌≤◌, [], ◌∷◌, Some, false, length, IsTrue, OnOk, IfErr};
ghost use Rattle.std.specs.Io.KnownBytes.{IsAtEnd};
ghost use Rattle.git_pkt.specs.Machine.Recorded.{inner_of, reads_of, has_failed, has_ended, has_wasted, IsNew};
ghost use Rattle.git_pkt.specs.Machine.Engine.{FailsAs, IsShownBy, IsSpent};
ghost use Rattle.git_pkt.specs.Streams.{flow, is_broken, Moves};
ghost use Rattle.git2show_lib.specs.declared.views.RequestState.{RequestState};
ghost use Rattle.git2show_lib.specs.Machine.ShownStream.{Shows, ShowsRequests, ShowsView};

use crate::renderers::{Plain, Renderer};
use crate::shower::Shower;
use crate::views::{Tally, View};
use git_loop::run;
use git_pkt::{Recorded, RunFault};
use std::io::{Read, Write};

/// Shows the packets that a reader gives, a line each, over at most `turns` reads into the chunk. Lines of whole
/// packets are written and flushed before a fault is answered, and before the next read.
///
/// Ok comes at the reader's end alone, between two packets. The faults are `Refused`, with what is wrong with the
/// stream; `ReadFault`, where a read failed; `WriteFault`, where a write or a flush did, and then a front of the
/// lines was written; and `ReadLimit`, where one read more would be needed.
pub fn show<R: Read, W: Write>(
    reader: &mut Recorded<R>,
    writer: &mut Recorded<W>,
    chunk: &mut [u8],
    turns: u64,
) -> Result<(), RunFault>
    requires space { 0 < length chunk.old }
    requires new_reader { IsNew reader.old }
    requires sound_writer { has_failed writer.old ≡ false }

    ensures reads { reads_of reader.new ≤ turns }
    ensures useful { has_wasted reader.new ≡ false }
    ensures ok { OnOk result (IsTrue (has_ended reader.new)) }
    ensures end { OnOk result (IsAtEnd (R.remaining (inner_of reader.new))) }
    ensures fault { IfErr result (IsShownBy (IsTrue (has_failed reader.new)) (IsTrue (has_failed writer.new)) (IsSpent reader.new turns)) }
    ensures announced { FailsAs result (has_failed reader.new) (has_failed writer.new) }
    ensures shown { Moves (is_broken result) (Shows result (has_ended reader.new) turns)
        (flow (R.remaining (inner_of reader.old)) (R.remaining (inner_of reader.new)) ∷ [])
        (flow (W.contents (inner_of writer.old)) (W.contents (inner_of writer.new)) ∷ []) }
{
    show_by(reader, writer, chunk, turns, Plain, &mut Tally::START)
}

/// Shows the packets that a reader gives as [`show`] does, by a view, and counts those that it read. What is left out is counted too, and
/// a malformed packet is refused wherever it is.
pub fn show_view<R: Read, W: Write>(
    reader: &mut Recorded<R>,
    writer: &mut Recorded<W>,
    chunk: &mut [u8],
    turns: u64,
    view: View<'_>,
    tally: &mut Tally,
) -> Result<(), RunFault>
    requires space { 0 < length chunk.old }
    requires new_reader { IsNew reader.old }
    requires sound_writer { has_failed writer.old ≡ false }

    ensures reads { reads_of reader.new ≤ turns }
    ensures useful { has_wasted reader.new ≡ false }
    ensures ok { OnOk result (IsTrue (has_ended reader.new)) }
    ensures end { OnOk result (IsAtEnd (R.remaining (inner_of reader.new))) }
    ensures fault { IfErr result (IsShownBy (IsTrue (has_failed reader.new)) (IsTrue (has_failed writer.new)) (IsSpent reader.new turns)) }
    ensures announced { FailsAs result (has_failed reader.new) (has_failed writer.new) }
    ensures shown { Moves (is_broken result) (ShowsView (Some view.entry) tally.old tally.new result (has_ended reader.new) turns)
        (flow (R.remaining (inner_of reader.old)) (R.remaining (inner_of reader.new)) ∷ [])
        (flow (W.contents (inner_of writer.old)) (W.contents (inner_of writer.new)) ∷ []) }
    ensures requests { tally.old.request ≡ RequestState.Between → tally.old.in_pack ≡ false
        → Moves (is_broken result) (ShowsRequests view.entry tally.old result (has_ended reader.new) turns)
        (flow (R.remaining (inner_of reader.old)) (R.remaining (inner_of reader.new)) ∷ [])
        (flow (W.contents (inner_of writer.old)) (W.contents (inner_of writer.new)) ∷ []) }
{
    show_by(reader, writer, chunk, turns, view, tally)
}

/// Shows the packets that a reader gives by a renderer.
fn show_by<R: Read, W: Write, V: Renderer>(
    reader: &mut Recorded<R>,
    writer: &mut Recorded<W>,
    chunk: &mut [u8],
    turns: u64,
    renderer: V,
    tally: &mut Tally,
) -> Result<(), RunFault>
    requires space { 0 < length chunk.old }
    requires new_reader { IsNew reader.old }
    requires sound_writer { has_failed writer.old ≡ false }

    ensures reads { reads_of reader.new ≤ turns }
    ensures useful { has_wasted reader.new ≡ false }
    ensures ok { OnOk result (IsTrue (has_ended reader.new)) }
    ensures end { OnOk result (IsAtEnd (R.remaining (inner_of reader.new))) }
    ensures fault { IfErr result (IsShownBy (IsTrue (has_failed reader.new)) (IsTrue (has_failed writer.new)) (IsSpent reader.new turns)) }
    ensures announced { FailsAs result (has_failed reader.new) (has_failed writer.new) }
    ensures shown { Moves (is_broken result) (ShowsView (V.view renderer) tally.old tally.new result (has_ended reader.new) turns)
        (flow (R.remaining (inner_of reader.old)) (R.remaining (inner_of reader.new)) ∷ [])
        (flow (W.contents (inner_of writer.old)) (W.contents (inner_of writer.new)) ∷ []) }
{
    let mut shower = Shower::new(renderer, *tally);
    let ran = run(&mut shower, reader, writer, chunk, turns);
    *tally = shower.tally();
    ran?;
    match shower.fault() {
        Some(fault) => Err(RunFault::Refused(fault)),
        None => Ok(()),
    }
}
