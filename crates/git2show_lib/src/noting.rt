//! The lines of an advertisement that have something which this project does not know, kept as its bytes come.
ghost use Rattle.std.specs.Prelude.{◌≡◌, ◌∷◌, ◌++◌, [], ℕ, List, None, Some, OnOk, IfErr, IfOk};
ghost use Rattle.git_pkt.specs.Packets.{seen};
ghost use Rattle.git2show_lib.specs.Machine.Noting.{IsLost, KeepsLine, LosesNone};

use crate::others::is_other_line;
use git_msg::Limits;
use git_names::Steps;
use git_pkt::{Got, Kind, Packet, PacketReader, text};
use std::alloc::{AllocError, Allocator};
use std::mem::replace;

/// How many bytes of them are kept at the most.
const MOST_KEPT: usize = Limits::DEFAULT_ARGS as usize;

/// Keeps such lines.
#[derive(Drop)]
pub(crate) struct Noting<A: Allocator + Copy> {
    packets: PacketReader,
    // The lines, each with an LF after it.
    text: Vec<u8, A>,
    // Why a line was not kept, if one was not.
    lost: Option<Kind>,
}

impl<A: Allocator + Copy> Noting<A> {
    ghost use Rattle.git2show_lib.specs.Machine.Noting.{Gathers, HasNotedLines};

    /// One that has no bytes yet. It takes memory from `alloc` only for a line that it keeps.
    pub(crate) fn new(alloc: A) -> Noting<A>
        ensures notes { HasNotedLines [] result }
        ensures gathers { Gathers result }
    {
        Noting {
            packets: PacketReader::new(),
            text: Vec::new(alloc),
            lost: None,
        }
    }

    /// Notes more bytes of the advertisement, which are not refused.
    pub(crate) fn note(&mut self, bytes: &[u8])
        requires { Gathers self.old }
        ensures gathers { Gathers self.new }
        ensures notes { (used : List ℕ) → HasNotedLines used self.old → HasNotedLines (used ++ bytes.now) self.new }
    {
        let mut done = 0;
        while done < bytes.len() {
            let fed = self.packets.feed(&bytes[done..], &mut Steps::new());
            done += fed.used;
            match fed.got {
                Got::More => {}
                Got::Failed(_) => {
                    self.lost = Some(Kind::OutOfMemory);
                    return;
                }
                Got::Packet(packet, _) => {
                    self.lost = note_packet(&mut self.text, self.lost, packet);
                }
            }
        }
    }

    /// Hands out the lines, each with an LF after it, and has none any more; or why one was not kept: `TooMuchKept` or `OutOfMemory`.
    pub(crate) fn take_text(&mut self, alloc: A) -> Result<Vec<u8, A>, Kind>
        ensures text { IfOk result (λ text. (self.old.lost ≡ None) × (text.items ≡ self.old.text.items)) }
        ensures why { IfErr result (λ kind. self.old.lost ≡ Some kind) }
    {
        match self.lost {
            Some(kind) => Err(kind),
            None => Ok(replace(&mut self.text, Vec::new(alloc))),
        }
    }
}

/// Keeps the packet's line if it has something that is not known. Answers why a line was not kept, now or before.
#[tactic(auto, unfolding(crate::specs::Others::line_kept))]
fn note_packet<A: Allocator + Copy>(
    kept: &mut Vec<u8, A>,
    lost: Option<Kind>,
    packet: Packet<'_>,
) -> Option<Kind>
    ensures { KeepsLine (seen packet.entry) kept.old.items lost kept.new.items result }
{
    match packet {
        Packet::Payload(payload) => note_line(kept, lost, text(payload)),
        Packet::Flush | Packet::Delim | Packet::RespEnd => lost,
    }
}

fn note_line<A: Allocator + Copy>(
    kept: &mut Vec<u8, A>,
    lost: Option<Kind>,
    line: &[u8],
) -> Option<Kind>
    ensures { LosesNone line.now kept.old.items lost kept.new.items result }
{
    if !is_other_line(line) {
        return lost;
    }
    match keep_line(kept, line) {
        Ok(()) => lost,
        Err(kind) => Some(kind),
    }
}

fn keep_line<A: Allocator + Copy>(kept: &mut Vec<u8, A>, line: &[u8]) -> Result<(), Kind>
    ensures ok { OnOk result (kept.new.items ≡ kept.old.items ++ (line.now ++ 10 ∷ [])) }
    ensures err { IfErr result IsLost }
{
    if line.len() >= MOST_KEPT || kept.len() >= MOST_KEPT - line.len() {
        return Err(Kind::TooMuchKept);
    }
    if push_line(kept, line).is_err() {
        return Err(Kind::OutOfMemory);
    }
    Ok(())
}

fn push_line<A: Allocator + Copy>(kept: &mut Vec<u8, A>, line: &[u8]) -> Result<(), AllocError>
    ensures { OnOk result (kept.new.items ≡ kept.old.items ++ (line.now ++ 10 ∷ [])) }
{
    kept.reserve(line.len() + 1)?;
    kept.extend_from_slice(line)?;
    kept.push_reserved(b'\n');
    Ok(())
}
