//! How a packet is shown: chosen once for a run, so that a run without options asks at no packet whether it has some.

ghost use Rattle.std.specs.Prelude.{◌≡◌, ◌≤◌, ◌<◌, ◌++◌, None, Option, Some, length};
ghost use Rattle.git_pkt.specs.Packets.{body_of, seen};
ghost use Rattle.git2show_lib.specs.PacketViews.{after, viewed};
ghost use Rattle.git2show_lib.specs.declared.views.View.{View};

use crate::lines::{FULL, Lines, PAYLOAD};
use crate::views::{Tally, View};
use git_pkt::Packet;

/// A way to show packets.
pub(crate) trait Renderer: Copy {
    /// Its options, if it has some.
    ghost view: { Self → Option View };

    /// Puts what is shown of a packet, after those that were counted, behind the other lines, and counts it.
    fn put(self, lines: &mut Lines, tally: &mut Tally, packet: Packet<'_>, offset: u64)
        requires space { length lines.old.waiting < FULL }
        requires fits { length (body_of (seen packet)) ≤ PAYLOAD }
        ensures put { lines.new.waiting
            ≡ lines.old.waiting ++ viewed (view self) tally.old (record { packet = seen packet.entry; offset = offset }) }
        ensures tally { tally.new ≡ after (view self) tally.old (record { packet = seen packet.entry; offset = offset }) };
}

/// The lines of [`show`](crate::show). Nothing is counted.
#[derive(Clone, Copy, Debug, PartialEq, Eq)]
pub(crate) struct Plain;

impl Renderer for Plain {
    ghost view = { λ plain. None };

    #[inline(always)]
    fn put(self, lines: &mut Lines, _tally: &mut Tally, packet: Packet<'_>, offset: u64) {
        lines.put(packet, offset)
    }
}

impl Renderer for View<'_> {
    ghost view = { λ view. Some view };

    fn put(self, lines: &mut Lines, tally: &mut Tally, packet: Packet<'_>, offset: u64) {
        let before = *tally;
        *tally = before.count(self.only, packet, offset);
        lines.put_viewed(self, before, packet, offset)
    }
}
