//! A client that asks and is fed: what it sends, the transcript of what it receives, the bytes of the side bands, how it ended, and the
//! capabilities that it noted.

use crate::escapes::escaped;
use crate::runs::Run;
use crate::script::{Script, append_sent};
use crate::setup::MANY;
use crate::texts::{append, append_str};
use crate::trouble::Trouble;
use crate::wordings::{Wording, shown};
use git_client::{Client, Ending, Event, ReceivedGot, Sent, write_asked, write_event};
use git_msg::{Agent, Caps};
use git_names::{Format, Steps};
use git_pkt::{Fault, Recorded};
use std::alloc::{AllocError, Global};

/// How a client is set up.
#[derive(Clone, Copy)]
pub struct Setup<'a> {
    /// The agent that it names.
    pub agent: Agent,
    pub format: Format,
    pub ending: Ending,
    /// The advertisement that it has received before its case, if the case does not begin with one.
    pub arrived: &'a [u8],
}

// Appends a word if its flag is set.
fn append_word(line: &mut String, is_set: bool, word: &str) -> Result<(), AllocError> {
    if is_set {
        append_str(line, " ")?;
        append_str(line, word)?;
    }
    Ok(())
}

/// Appends the line of the noted capabilities.
pub fn append_noted(line: &mut String, caps: &Caps) -> Result<(), AllocError> {
    append_str(line, "noted")?;
    append_word(line, caps.agent, "agent")?;
    append_word(line, caps.ls_refs, "ls-refs")?;
    append_word(line, caps.unborn, "unborn")?;
    append_word(line, caps.fetch, "fetch")?;
    append_word(line, caps.shallow, "shallow")?;
    append_word(line, caps.ref_in_want, "ref-in-want")?;
    append_word(line, caps.wait_for_done, "wait-for-done")?;
    append_word(line, caps.filter, "filter")?;
    append_word(line, caps.server_option, "server-option")?;
    append_word(line, caps.object_info, "object-info")?;
    append_word(line, caps.object_format, "object-format")?;
    append_word(line, caps.sha1, "sha1")?;
    append_word(line, caps.sha256, "sha256")?;
    append_str(line, "\n")
}

/// What a client sent and received.
#[derive(Drop)]
struct Notes {
    // A line for each packet that it sends and each event, and for each request that was refused.
    lines: Vec<u8>,
    // The bytes of the pack and of the progress, joined.
    pack: Vec<u8>,
    progress: Vec<u8>,
    // Where the bytes of the last response begin.
    pack_start: usize,
    progress_start: usize,
}

impl Notes {
    fn new(alloc: Global) -> Notes {
        Notes {
            lines: Vec::new(alloc),
            pack: Vec::new(alloc),
            progress: Vec::new(alloc),
            pack_start: 0,
            progress_start: 0,
        }
    }

    fn note(&mut self, alloc: Global, event: &Event<'_>) -> Result<(), Trouble> {
        let pack = self.pack.len().saturating_sub(self.pack_start) as u64;
        let progress = self.progress.len().saturating_sub(self.progress_start) as u64;
        let mut line = Vec::new(alloc);
        if write_event(&mut Recorded::new(&mut line), event, pack, progress).is_err() {
            return Err(Trouble::Breaks("a line is not written"));
        }
        append(&mut self.lines, line.as_slice())?;
        match event {
            Event::Pack([]) | Event::Progress([]) => {
                return Err(Trouble::Breaks("an event of no bytes"));
            }
            Event::Pack(bytes) => append(&mut self.pack, bytes)?,
            Event::Progress(bytes) => append(&mut self.progress, bytes)?,
            Event::Ended => {
                self.pack_start = self.pack.len();
                self.progress_start = self.progress.len();
            }
            _ => {}
        }
        Ok(())
    }
}

/// A client, the requests still to be asked, and its results so far.
#[derive(Drop)]
struct Talk<'a> {
    alloc: Global,
    client: Client<Global>,
    wordings: &'a [Wording],
    leaves: bool,
    // Whether the case states the packets that are sent.
    shows_sent: bool,
    notes: Notes,
}

impl<'a> Talk<'a> {
    // A client that has received the input before its case.
    fn new(alloc: Global, setup: &Setup<'_>, script: &'a Script) -> Result<Talk<'a>, Trouble> {
        let mut talk = Talk {
            alloc,
            client: Client::with_agent(setup.agent, Some(setup.format), setup.ending),
            wordings: &[],
            leaves: false,
            shows_sent: !script.asked.is_empty(),
            notes: Notes::new(alloc),
        };
        talk.receive_chunk(setup.arrived)?;
        if talk.client.position() != setup.arrived.len() as u64 {
            return Err(Trouble::BadCase("more than an advertisement was received before"));
        }
        talk.notes = Notes::new(alloc);
        talk.wordings = script.wordings.as_slice();
        talk.leaves = script.leaves;
        talk.send_all()?;
        Ok(talk)
    }

    // Whether it uses bytes passed to it.
    fn uses_more(&mut self) -> bool {
        self.client.feed(b"0000", &mut Steps::new()).used != 0
    }

    // A client that does not wait for input uses none.
    fn check_waiting(&mut self) -> Result<(), Trouble> {
        if !self.client.wants_input() && self.uses_more() {
            return Err(Trouble::Breaks("a client uses bytes that it does not want"));
        }
        Ok(())
    }

    // Sends everything that has to be sent, and asks all requests that can be asked now.
    fn send_all(&mut self) -> Result<(), Trouble> {
        for _ in 0..MANY {
            self.check_waiting()?;
            match self.client.pull() {
                Sent::Packet(packet) => {
                    if self.shows_sent {
                        append_sent(self.alloc, &mut self.notes.lines, packet)?;
                    }
                }
                Sent::CanAsk => {
                    if !self.ask()? {
                        return Ok(());
                    }
                }
                Sent::NeedInput | Sent::Finished | Sent::Failed(_) => return Ok(()),
            }
        }
        Err(Trouble::Breaks("a client sends without an end"))
    }

    // Asks the next request, or leaves. Returns whether there was something to do.
    fn ask(&mut self) -> Result<bool, Trouble> {
        if !self.client.can_ask() {
            return Err(Trouble::Breaks("a client that can ask reports that it cannot"));
        }
        let Some((wording, rest)) = self.wordings.split_first() else {
            if self.leaves {
                self.leaves = false;
                self.client.leave();
                return Ok(true);
            }
            return Ok(false);
        };
        self.wordings = rest;
        self.ask_one(wording)?;
        Ok(true)
    }

    fn ask_one(&mut self, wording: &Wording) -> Result<(), Trouble> {
        let request = wording.request(self.alloc)?;
        let asked = shown(self.alloc, &request)?;
        if !self.client.can_ask() {
            return Ok(());
        }
        match self.client.ask(request) {
            Ok(()) => {
                let mut line = Vec::new(self.alloc);
                if write_asked(&mut Recorded::new(&mut line), wording.command).is_err() {
                    return Err(Trouble::Breaks("a line is not written"));
                }
                append(&mut self.notes.lines, line.as_slice())?;
            }
            Err((request, fault)) => {
                if shown(self.alloc, &request)?.as_slice() != asked.as_slice() {
                    return Err(Trouble::Breaks("another request comes back"));
                }
                if !self.client.can_ask() {
                    return Err(Trouble::Breaks("a refused request changes the client"));
                }
                let line = format!(in self.alloc; "refused {fault}\n")?;
                append(&mut self.notes.lines, line.as_bytes())?;
            }
        }
        Ok(())
    }

    // Receives bytes of a chunk up to an event, and notes the event. Returns the rest of the chunk, if there was an event.
    fn receive_event<'p>(&mut self, chunk: &'p [u8]) -> Result<Option<&'p [u8]>, Trouble> {
        let is_wanted = self.client.wants_input();
        let arrived = self.client.feed(chunk, &mut Steps::new());
        let rest = &chunk[arrived.used..];
        match arrived.got {
            ReceivedGot::More if is_wanted && !rest.is_empty() => {
                Err(Trouble::Breaks("a chunk is not used up"))
            }
            ReceivedGot::More | ReceivedGot::Failed(_) => Ok(None),
            ReceivedGot::Event(event) => {
                self.notes.note(self.alloc, &event)?;
                Ok(Some(rest))
            }
        }
    }

    // Receives a chunk up to the point where no more input is needed, and sends what has to be sent in between.
    fn receive_chunk(&mut self, chunk: &[u8]) -> Result<(), Trouble> {
        let mut rest = chunk;
        for _ in 0..=chunk.len() {
            let Some(left) = self.receive_event(rest)? else {
                return Ok(());
            };
            rest = left;
            self.send_all()?;
        }
        Err(Trouble::Breaks("a chunk has events without an end"))
    }

    // Whether it reports that it needs input.
    fn needs_input(&mut self) -> bool {
        matches!(self.client.pull(), Sent::NeedInput)
    }

    // The error that it reports, if it failed.
    fn fault(&mut self) -> Option<Fault> {
        match self.client.pull() {
            Sent::Failed(fault) => Some(fault),
            _ => None,
        }
    }

    // The input ends here.
    fn close(&mut self) -> Result<(), Trouble> {
        if !self.client.wants_input() {
            return Ok(());
        }
        if !self.needs_input() {
            return Err(Trouble::Breaks("a client that wants input does not report it"));
        }
        if !self.client.wants_input() {
            return Err(Trouble::Breaks("a client wants no more input once it reported that"));
        }
        let fault = self.client.close();
        if self.fault() != Some(fault) {
            return Err(Trouble::Breaks("a client that was closed reports another fault"));
        }
        Ok(())
    }

    // How many bytes a client uses at its end, and the error that it reports then.
    fn feed_more(&mut self) -> Result<(usize, Option<Fault>), Trouble> {
        let arrived = self.client.feed(b"0000", &mut Steps::new());
        match arrived.got {
            ReceivedGot::More => Ok((arrived.used, None)),
            ReceivedGot::Failed(fault) => Ok((arrived.used, Some(fault))),
            ReceivedGot::Event(_) => Err(Trouble::Breaks("an event of no bytes")),
        }
    }

    // How a client ended: whether it can ask, its error, and the line that reports the end.
    fn ending(&mut self) -> Result<(bool, Option<Fault>, String), Trouble> {
        match self.client.pull() {
            Sent::CanAsk => Ok((true, None, String::from_str(self.alloc, "can ask\n")?)),
            Sent::Finished => Ok((false, None, String::from_str(self.alloc, "left\n")?)),
            Sent::Failed(fault) => {
                let line = format!(in self.alloc; "refused {fault}\n")?;
                Ok((false, Some(fault), line))
            }
            _ => Err(Trouble::Breaks("a client wants to send or to read")),
        }
    }

    // A client at its end uses nothing more, and each of its functions reports the end. Returns how it ended.
    fn ended(&mut self) -> Result<String, Trouble> {
        let position = self.client.position();
        let (used, announced) = self.feed_more()?;
        let (can_ask, fault, ending) = self.ending()?;
        if used != 0 || announced != fault {
            return Err(Trouble::Breaks("a client goes on after its end"));
        }
        if self.client.can_ask() != can_ask
            || self.client.wants_input()
            || self.client.position() != position
        {
            return Err(Trouble::Breaks("a client is not at its end"));
        }
        Ok(ending)
    }
}

// Appends the line of the message that ended a conversation.
fn append_message(alloc: Global, ending: &mut String, message: &[u8]) -> Result<(), AllocError> {
    append_str(ending, "message")?;
    if !message.is_empty() {
        append_str(ending, " ")?;
        let message = escaped(alloc, message)?;
        append_str(
            ending,
            String::from_utf8_lossy(alloc, message.as_slice())?.as_str(),
        )?;
    }
    append_str(ending, "\n")
}

/// Feeds the chunks to a client, which sends the requests of the case as soon as it can. Then the input ends.
pub fn fed(
    alloc: Global,
    setup: &Setup<'_>,
    script: &Script,
    chunks: &[&[u8]],
) -> Result<Run, Trouble> {
    let mut talk = Talk::new(alloc, setup, script)?;
    for chunk in chunks {
        talk.receive_chunk(chunk)?;
    }
    talk.close()?;
    let mut ending = talk.ended()?;
    if let Some(message) = talk.client.message() {
        append_message(alloc, &mut ending, message)?;
    }
    append_noted(&mut ending, &talk.client.caps())?;
    let used = (talk.client.position() as usize).saturating_sub(setup.arrived.len());
    Ok(Run {
        given: talk.notes.lines,
        pack: talk.notes.pack,
        progress: talk.notes.progress,
        ending,
        used: Some(used),
    })
}
