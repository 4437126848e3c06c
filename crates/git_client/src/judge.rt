//! The meaning of a packet if something is expected, and the reasons to refuse it.

ghost use Rattle.std.specs.Prelude.{◌≡◌, Err, ◌+◌, ◌*◌, false, length};
ghost use Rattle.git_names.specs.declared.object_format.Format.{Format};
ghost use Rattle.git_names.specs.Steps.{TakesAtMost};
ghost use Rattle.git_pkt.specs.Packets.{body_of, flush, delim, resp_end, payload as payload_of, seen};
ghost use Rattle.git_client.specs.Events.{events_of_band};
ghost use Rattle.git_client.specs.Machine.Turns.{Judges, JudgesLine, TakesLines, phase_after_response, phase_in, content_after_flush};
ghost use Rattle.git_msg.specs.declared.offers.Caps.{Caps};
ghost use Rattle.git_client.specs.declared.phase.Expected.{Expected};
ghost use Rattle.git_pkt.specs.Passed.{begins_band, is_on_band};
ghost use Rattle.git_client.specs.declared.events.Ending.{Ending};

use crate::events::Ending;
use crate::judge_lines::{
    judge_acknowledgment, judge_boundary, judge_capability, judge_header, judge_info,
    judge_reference, judge_size_line, judge_version, judge_wanted,
};
use crate::phase::{Expected, LineContent, Turn};
use crate::sections::Allowed;
use git_msg::{Caps, is_error};
use git_names::{Format, Steps};
use git_pkt::{Band, Kind, Packet, split_band, text};

// The maximum length of a word that is a whole line.
const LONGEST_WORD: usize = 15;

/// Judges a packet if `expected` is expected. Returns whose turn it is then, or why the packet is refused. Writes its contents to `content`, and
/// what the advertisement notes with it to `caps`: these are large, and are not moved. In the packfile section the packet is one
/// without bytes that pass.
pub(crate) fn judge(
    format: Format,
    ending: Ending,
    expected: Expected,
    caps: &mut Caps,
    packet: Packet<'_>,
    content: &mut LineContent,
    steps: &mut Steps,
) -> Result<Turn, Kind>
    requires on_no_band { expected ≡ Expected.Packfile → is_on_band (seen packet) ≡ false }
    ensures turn { Judges format ending expected caps.old (seen packet.entry) content.new caps.new result }
    ensures cost { TakesAtMost (48 * (length (body_of (seen packet.entry)) + 1)) steps.old steps.new }
{
    match packet {
        Packet::Payload(payload) => judge_payload(format, expected, caps, payload, content, steps),
        Packet::Flush => judge_flush(format, ending, expected, caps, content),
        Packet::Delim => judge_delimiter(expected, content),
        Packet::RespEnd => judge_response_end(expected, content),
    }
}

fn judge_payload(
    format: Format,
    expected: Expected,
    caps: &mut Caps,
    payload: &[u8],
    content: &mut LineContent,
    steps: &mut Steps,
) -> Result<Turn, Kind>
    requires on_no_band { expected ≡ Expected.Packfile → begins_band payload.now ≡ false }
    ensures turn { (ending : Ending) → Judges format ending expected caps.old (payload_of payload.now) content.new caps.new result }
    ensures cost { TakesAtMost (48 * (length payload.now + 1)) steps.old steps.new }
{
    match expected {
        Expected::Packfile => Err(refused_on_band(payload)),
        Expected::ResponseEnd => Err(Kind::UnexpectedPacket),
        _ => {
            let line = text(payload);
            // `ERR `, and four words that a line may be.
            steps.tick(5 * (line.len().min(LONGEST_WORD) + 1));
            if is_error(line) {
                return Err(Kind::RemoteError);
            }
            judge_line(format, expected, caps, line, content, steps)
        }
    }
}

/// A text line that is no error packet.
fn judge_line(
    format: Format,
    expected: Expected,
    caps: &mut Caps,
    line: &[u8],
    content: &mut LineContent,
    steps: &mut Steps,
) -> Result<Turn, Kind>
    requires { TakesLines expected }
    ensures turn { JudgesLine format expected caps.old line.now content.new caps.new result }
    ensures cost { TakesAtMost (40 * (length line.now + 1)) steps.old steps.new }
{
    match expected {
        Expected::Version => {
            judge_version(line)?;
            *content = LineContent::Nothing;
            Ok(Turn::Receiving(Expected::Capabilities))
        }
        Expected::Capabilities => {
            *content = LineContent::Capability(judge_capability(caps, line, steps)?);
            Ok(Turn::Receiving(expected))
        }
        Expected::References => {
            judge_reference(format, line, content, steps)?;
            Ok(Turn::Receiving(expected))
        }
        Expected::Header(allowed) => {
            let next = judge_header(allowed, line, content)?;
            Ok(Turn::Receiving(next))
        }
        Expected::Acknowledgments(announced) => {
            let after = judge_acknowledgment(format, announced, line, content, steps)?;
            Ok(Turn::Receiving(Expected::Acknowledgments(after)))
        }
        Expected::ShallowInfo(_) => {
            judge_boundary(format, line, content, steps)?;
            Ok(Turn::Receiving(expected))
        }
        Expected::WantedRefs(_) => {
            judge_wanted(format, line, content, steps)?;
            Ok(Turn::Receiving(expected))
        }
        Expected::SizeLine => {
            judge_size_line(line)?;
            *content = LineContent::Nothing;
            Ok(Turn::Receiving(Expected::Sizes))
        }
        Expected::Sizes => {
            judge_info(format, line, content, steps)?;
            Ok(Turn::Receiving(expected))
        }
        Expected::Packfile => Err(Kind::UnexpectedPacket),
        Expected::ResponseEnd => Err(Kind::UnexpectedPacket),
    }
}

/// Why a payload of the packfile section without bytes that pass is refused.
fn refused_on_band(payload: &[u8]) -> Kind
    requires on_no_band { begins_band payload.now ≡ false }
    ensures { events_of_band payload.now ≡ Err result }
{
    match split_band(payload) {
        Ok((Band::Fatal, _)) => Kind::RemoteFatal,
        Ok(_) => unreachable!(),
        Err(kind) => kind,
    }
}

fn judge_flush(
    format: Format,
    ending: Ending,
    expected: Expected,
    caps: &Caps,
    content: &mut LineContent,
) -> Result<Turn, Kind>
    ensures turn { Judges format ending expected caps.now flush content.new caps.now result }
{
    match expected {
        Expected::Version => Err(Kind::NotVersion2),
        Expected::Capabilities => {
            if !caps.speaks(format) {
                return Err(Kind::WrongFormat);
            }
            *content = LineContent::Offered;
            Ok(Turn::Ready)
        }
        Expected::References => Ok(after_flush(ending, content)),
        Expected::Header(_) => Err(Kind::UnexpectedPacket),
        Expected::Acknowledgments(announced) => {
            if announced.ready {
                return Err(Kind::UnexpectedPacket);
            }
            Ok(after_flush(ending, content))
        }
        Expected::ShallowInfo(_) => Err(Kind::UnexpectedPacket),
        Expected::WantedRefs(_) => Err(Kind::UnexpectedPacket),
        Expected::Packfile => Ok(after_flush(ending, content)),
        Expected::SizeLine => Ok(after_flush(ending, content)),
        Expected::Sizes => Ok(after_flush(ending, content)),
        Expected::ResponseEnd => Err(Kind::UnexpectedPacket),
    }
}

fn judge_delimiter(expected: Expected, content: &mut LineContent) -> Result<Turn, Kind>
    ensures turn { (format : Format) (ending : Ending) (caps : Caps) → Judges format ending expected caps delim content.new caps result }
{
    *content = LineContent::Nothing;
    match expected {
        Expected::Version => Err(Kind::NotVersion2),
        Expected::Acknowledgments(announced) => {
            if !announced.ready {
                return Err(Kind::UnexpectedPacket);
            }
            Ok(Turn::Receiving(Expected::Header(Allowed::AFTER_ACKNOWLEDGMENTS)))
        }
        Expected::ShallowInfo(allowed) => Ok(Turn::Receiving(Expected::Header(allowed))),
        Expected::WantedRefs(allowed) => Ok(Turn::Receiving(Expected::Header(allowed))),
        _ => Err(Kind::UnexpectedPacket),
    }
}

fn judge_response_end(expected: Expected, content: &mut LineContent) -> Result<Turn, Kind>
    ensures turn { (format : Format) (ending : Ending) (caps : Caps) → Judges format ending expected caps resp_end content.new caps result }
{
    *content = LineContent::Ended;
    match expected {
        Expected::Version => Err(Kind::NotVersion2),
        Expected::ResponseEnd => Ok(Turn::Ready),
        _ => Err(Kind::UnexpectedPacket),
    }
}

/// The flush of a response ends the response, or a response-end packet is expected after it.
fn after_flush(ending: Ending, content: &mut LineContent) -> Turn
    ensures content { content.new ≡ content_after_flush ending }
    ensures turn { phase_in result ≡ phase_after_response ending }
{
    *content = match ending {
        Ending::FlushOnly => LineContent::Ended,
        Ending::ResponseEnd => LineContent::Nothing,
    };
    match ending {
        Ending::FlushOnly => Turn::Ready,
        Ending::ResponseEnd => Turn::Receiving(Expected::ResponseEnd),
    }
}
