//! The lines of a case: the input, the output for it, and how it ends.

use crate::escapes::{append_unescaped, escaped};
use crate::texts::{append, append_str, copied};
use crate::trouble::Trouble;
use crate::wordings::Wording;
use std::alloc::{AllocError, Global};

/// How a line of output is written.
#[derive(Clone, Copy, PartialEq, Eq)]
pub enum Given {
    /// Escaped bytes, one line after another with nothing between.
    Bytes,
    /// The same, and beside them what a host reports of its store.
    Reports,
    /// Lines of text as they are, each with its LF.
    Lines,
    /// Such lines, and beside them the packets that are sent and the bytes of the side bands, in their escaped form.
    Talk,
}

/// Where a step ends, in the input and in the output.
#[derive(Clone, Copy, Default, PartialEq, Eq)]
pub struct Step {
    pub input: usize,
    pub given: usize,
    pub pack: usize,
    pub progress: usize,
}

/// What a line with a plus sign continues.
#[derive(Clone, Copy, PartialEq, Eq)]
enum Last {
    Nothing,
    Input,
    Given,
    Asked,
    Report,
    Pack,
    Progress,
    Ending,
}

/// What a host is asked of its store, and what it reports.
#[derive(Drop)]
pub struct Reply {
    pub asked: String,
    pub reported: String,
    /// The name of the refusal, if the report is refused.
    pub refused: Option<String>,
}

/// The recording of a client and a server: what each of them sent, and the pack bytes among it.
#[derive(Drop)]
pub struct Recording {
    pub requests: Vec<u8>,
    pub responses: Vec<u8>,
    pub pack: Vec<u8>,
}

/// What the lines of a case contain.
#[derive(Drop)]
pub struct Script {
    /// The whole input: the steps, and after them what is left unread.
    pub input: Vec<u8>,
    /// The whole output.
    pub given: Vec<u8>,
    /// The whole output of pack and progress bytes.
    pub pack: Vec<u8>,
    pub progress: Vec<u8>,
    /// Where each step ends.
    pub steps: Vec<Step>,
    /// The output before the first step.
    pub greeting: Step,
    /// Whether the steps are not known, because all of the input was recorded.
    pub is_recorded: bool,
    /// The whole second stream, and how much of it is read; for a client, what it sends.
    pub asked: Vec<u8>,
    pub asked_read: usize,
    /// What a client has to ask, and whether it leaves then.
    pub wordings: Vec<Wording>,
    pub leaves: bool,
    /// What a host reports.
    pub replies: Vec<Reply>,
    // How a host's server refuses the request in place of the ending, if it does so otherwise.
    at_flush: Option<String>,
    /// The lines that state how it ends, each with its LF.
    pub ending: String,
    last: Last,
}

impl Script {
    /// Reads the lines of a case.
    pub fn read(alloc: Global, lines: &[&str], form: Given) -> Result<Script, Trouble> {
        let mut script = Script {
            input: Vec::new(alloc),
            given: Vec::new(alloc),
            pack: Vec::new(alloc),
            progress: Vec::new(alloc),
            steps: Vec::new(alloc),
            greeting: Step::default(),
            is_recorded: false,
            asked: Vec::new(alloc),
            asked_read: 0,
            wordings: Vec::new(alloc),
            leaves: false,
            replies: Vec::new(alloc),
            at_flush: None,
            ending: String::new(alloc),
            last: Last::Nothing,
        };
        for line in lines {
            script.take(alloc, line, form)?;
        }
        Ok(script)
    }

    fn take(&mut self, alloc: Global, line: &str, form: Given) -> Result<(), Trouble> {
        let (word, text) = line.split_once(' ').unwrap_or((line, ""));
        match (word, form) {
            (">", _) => self.take_input(text),
            ("<", _) => self.take_given(text, form),
            ("?", Given::Talk) => self.take_sent(alloc, text),
            ("?", Given::Reports) => self.take_report(alloc, text),
            ("!", Given::Reports) => self.take_refused(alloc, text),
            ("host", Given::Bytes) => self.take_host(alloc, text),
            ("?", _) => self.take_asked(text),
            ("+", _) => self.take_more(text, form),
            ("again", _) => self.take_again(alloc, text),
            ("ask", Given::Talk) => self.take_question(alloc, text),
            ("with", Given::Talk) => self.take_argument(alloc, text),
            ("leave", Given::Talk) => {
                self.leaves = true;
                Ok(())
            }
            ("pack", Given::Talk) => self.take_pack(text),
            ("progress", Given::Talk) => self.take_progress(text),
            _ => self.take_ending(line),
        }
    }

    fn take_ending(&mut self, line: &str) -> Result<(), Trouble> {
        append_str(&mut self.ending, line)?;
        append_str(&mut self.ending, "\n")?;
        self.last = Last::Ending;
        Ok(())
    }

    // A step, or the bytes left after the end.
    fn take_input(&mut self, text: &str) -> Result<(), Trouble> {
        append_unescaped(&mut self.input, text)?;
        self.last = Last::Input;
        match self.ending.is_empty() {
            true => self.end_step(),
            false => Ok(()),
        }
    }

    // A step ends where the bytes so far end.
    fn end_step(&mut self) -> Result<(), Trouble> {
        let step = self.reached();
        self.steps.push(step).map_err(|_| Trouble::OutOfMemory)
    }

    // Where the bytes so far end.
    fn reached(&self) -> Step {
        Step {
            input: self.input.len(),
            given: self.given.len(),
            pack: self.pack.len(),
            progress: self.progress.len(),
        }
    }

    fn take_given(&mut self, text: &str, form: Given) -> Result<(), Trouble> {
        match form {
            Given::Bytes | Given::Reports => append_unescaped(&mut self.given, text)?,
            Given::Lines | Given::Talk => {
                append(&mut self.given, text.as_bytes())?;
                append(&mut self.given, b"\n")?;
            }
        }
        self.last = Last::Given;
        self.mark();
        Ok(())
    }

    fn take_asked(&mut self, text: &str) -> Result<(), Trouble> {
        append_unescaped(&mut self.asked, text)?;
        if self.ending.is_empty() {
            self.asked_read = self.asked.len();
        }
        self.last = Last::Asked;
        Ok(())
    }

    // A packet that is sent: a line of the output.
    fn take_sent(&mut self, alloc: Global, text: &str) -> Result<(), Trouble> {
        let start = self.asked.len();
        append_unescaped(&mut self.asked, text)?;
        let packet = self.asked.as_slice().get(start..).unwrap_or(&[]);
        append_sent(alloc, &mut self.given, packet)?;
        self.last = Last::Nothing;
        self.mark();
        Ok(())
    }

    // What a host is asked, and after a colon what it reports.
    fn take_report(&mut self, alloc: Global, text: &str) -> Result<(), Trouble> {
        let Some((asked, reported)) = text.split_once(": ") else {
            return Err(Trouble::BadCase("nothing is reported"));
        };
        let reply = Reply {
            asked: String::from_str(alloc, asked)?,
            reported: String::from_str(alloc, reported)?,
            refused: None,
        };
        self.last = Last::Report;
        self.replies.push(reply).map_err(|_| Trouble::OutOfMemory)
    }

    // The last report is refused by this name.
    fn take_refused(&mut self, alloc: Global, name: &str) -> Result<(), Trouble> {
        let Some(reply) = self.replies.as_mut_slice().last_mut() else {
            return Err(Trouble::BadCase("no report is refused"));
        };
        reply.refused = Some(String::from_str(alloc, name)?);
        Ok(())
    }

    fn take_host(&mut self, alloc: Global, refusal: &str) -> Result<(), Trouble> {
        self.at_flush = Some(String::from_str(alloc, refusal)?);
        Ok(())
    }

    fn take_question(&mut self, alloc: Global, words: &str) -> Result<(), Trouble> {
        let wording = Wording::new(alloc, words)?;
        self.wordings
            .push(wording)
            .map_err(|_| Trouble::OutOfMemory)
    }

    // An argument of the last request.
    fn take_argument(&mut self, alloc: Global, text: &str) -> Result<(), Trouble> {
        let mut argument = Vec::new(alloc);
        append_unescaped(&mut argument, text)?;
        match self.wordings.as_mut_slice().last_mut() {
            Some(wording) => wording
                .arguments
                .push(argument)
                .map_err(|_| Trouble::OutOfMemory),
            None => Err(Trouble::BadCase("an argument of nothing")),
        }
    }

    fn take_pack(&mut self, text: &str) -> Result<(), Trouble> {
        append_unescaped(&mut self.pack, text)?;
        self.last = Last::Pack;
        self.mark();
        Ok(())
    }

    fn take_progress(&mut self, text: &str) -> Result<(), Trouble> {
        append_unescaped(&mut self.progress, text)?;
        self.last = Last::Progress;
        self.mark();
        Ok(())
    }

    /// Takes a recording: what was sent, which has to be what the lines state, all input, and its pack.
    pub fn take_recording(&mut self, recording: Recording) -> Result<(), Trouble> {
        if self.asked.as_slice() != recording.requests.as_slice() {
            return Err(Trouble::BadCase("other requests than were recorded"));
        }
        if !self.steps.is_empty() {
            return Err(Trouble::BadCase("more comes than was recorded"));
        }
        self.is_recorded = true;
        self.input = recording.responses;
        self.pack = recording.pack;
        self.end_step()
    }

    /// Takes a recording as the streams that are checked against each other: all of both.
    pub fn take_conversation(&mut self, recording: Recording) -> Result<(), Trouble> {
        if !self.asked.is_empty() || !self.steps.is_empty() {
            return Err(Trouble::BadCase("more comes than was recorded"));
        }
        self.is_recorded = true;
        self.asked_read = recording.requests.len();
        self.asked = recording.requests;
        self.input = recording.responses;
        self.end_step()
    }

    // Continues the output. If that is lines, its last line has no end yet.
    fn give_more(&mut self, count: u32, text: &str, form: Given) -> Result<(), Trouble> {
        if form == Given::Bytes || form == Given::Reports {
            return append_often(&mut self.given, count, text);
        }
        self.given.pop();
        append_often(&mut self.given, count, text)?;
        Ok(append(&mut self.given, b"\n")?)
    }

    // Continues the last line of the ending.
    fn end_more(&mut self, count: u32, text: &str) -> Result<(), Trouble> {
        self.ending.pop();
        for _ in 0..count {
            append_str(&mut self.ending, text)?;
        }
        Ok(append_str(&mut self.ending, "\n")?)
    }

    // Continues the last report.
    fn report_more(&mut self, count: u32, text: &str) -> Result<(), Trouble> {
        let Some(reply) = self.replies.as_mut_slice().last_mut() else {
            return Err(Trouble::BadCase("nothing is reported before +"));
        };
        for _ in 0..count {
            append_str(&mut reply.reported, text)?;
        }
        Ok(())
    }

    // Continues the line before: this many times these bytes.
    fn take_more(&mut self, text: &str, form: Given) -> Result<(), Trouble> {
        let (count, text) = text.split_once(' ').unwrap_or((text, ""));
        let count = count
            .parse::<u32>()
            .map_err(|_| Trouble::BadCase("no count after +"))?;
        match self.last {
            Last::Input => append_often(&mut self.input, count, text)?,
            Last::Asked => append_often(&mut self.asked, count, text)?,
            Last::Pack => append_often(&mut self.pack, count, text)?,
            Last::Progress => append_often(&mut self.progress, count, text)?,
            Last::Given => self.give_more(count, text, form)?,
            Last::Report => self.report_more(count, text)?,
            Last::Ending => self.end_more(count, text)?,
            Last::Nothing => return Err(Trouble::BadCase("nothing before +")),
        }
        if self.ending.is_empty() {
            self.asked_read = self.asked.len();
            self.mark();
        }
        Ok(())
    }

    // The packet before comes this many times more, each a step without output.
    fn take_again(&mut self, alloc: Global, count: &str) -> Result<(), Trouble> {
        let count = count
            .parse::<u32>()
            .map_err(|_| Trouble::BadCase("no count after again"))?;
        let Some((last, before)) = self.steps.as_slice().split_last() else {
            return Err(Trouble::BadCase("nothing before again"));
        };
        let start = before.last().copied().unwrap_or_default().input;
        let packet = self.input.as_slice().get(start..last.input);
        let packet = copied(alloc, packet.unwrap_or(&[]))?;
        for _ in 0..count {
            append(&mut self.input, packet.as_slice())?;
            self.end_step()?;
        }
        self.last = Last::Nothing;
        Ok(())
    }

    /// The input between the ends of two steps.
    pub fn between(&self, last: Step, next: Step) -> &[u8] {
        let bytes = self.input.as_slice().get(last.input..next.input);
        bytes.unwrap_or(&[])
    }

    // The last step ends where the bytes so far end.
    fn mark(&mut self) {
        if !self.ending.is_empty() {
            return;
        }
        let reached = self.reached();
        match self.steps.as_mut_slice().last_mut() {
            Some(step) => *step = reached,
            None => self.greeting = reached,
        }
    }

    /// How many bytes all steps have together.
    pub fn length(&self) -> usize {
        match self.steps.as_slice().last() {
            Some(step) => step.input,
            None => 0,
        }
    }
}

impl Script {
    /// Makes this what a host's server does for the same packets.
    ///
    /// A server of a repository looks for what a request wants as soon as its line comes, and refuses the line (`NotOurs`, `UnknownRef`). A
    /// host's server asks its host once the request is whole, and refuses it at its flush. Nothing else differs. So a case that is refused
    /// at such a line states the refusal of a host's server where a flush follows that line: at this flush, or at the line itself if that
    /// is refused without a look at the store, as for `TooMuchKept`.
    pub fn wait_for_flush(&mut self, alloc: Global) -> Result<(), Trouble> {
        let Some(refusal) = self.at_flush.take() else {
            return Ok(());
        };
        if !asks_the_store(self.ending.as_str()) {
            return Err(Trouble::BadCase("a host refuses this as any server does"));
        }
        let end = self.length();
        let rest = self.input.as_slice().get(end..).unwrap_or(&[]);
        let rest = copied(alloc, rest)?;
        self.input.truncate(end);
        self.forget_refusal();
        let flush = format!(in alloc; " at {end}")?;
        if refusal.as_str().ends_with(flush.as_str()) {
            append(&mut self.input, b"0000")?;
            self.end_step()?;
        }
        append_error(alloc, &mut self.given, refusal.as_str())?;
        self.mark();
        self.ending = format!(in alloc; "refused {refusal}\n")?;
        Ok(append(&mut self.input, rest.as_slice())?)
    }

    // Removes what the last step sends, and the ending.
    fn forget_refusal(&mut self) {
        let before = match self.steps.as_slice() {
            [.., before, _] => before.given,
            _ => self.greeting.given,
        };
        self.given.truncate(before);
        self.ending.clear();
        self.mark();
    }
}

// Whether this ending is a refusal that depends on what the store has.
fn asks_the_store(ending: &str) -> bool {
    ending.starts_with("refused NotOurs at ") || ending.starts_with("refused UnknownRef at ")
}

/// Appends the error packet with this text.
pub fn append_error(alloc: Global, packets: &mut Vec<u8>, text: &str) -> Result<(), AllocError> {
    let line = format!(in alloc; "ERR {text}\n")?;
    let packet = format!(in alloc; "{:04x}{line}", line.len().saturating_add(4))?;
    append(packets, packet.as_bytes())
}

/// Appends the line of a packet that is sent.
pub fn append_sent(alloc: Global, lines: &mut Vec<u8>, packet: &[u8]) -> Result<(), AllocError> {
    append(lines, b"? ")?;
    append(lines, escaped(alloc, packet)?.as_slice())?;
    append(lines, b"\n")
}

fn append_often(bytes: &mut Vec<u8>, count: u32, text: &str) -> Result<(), Trouble> {
    for _ in 0..count {
        append_unescaped(bytes, text)?;
    }
    Ok(())
}
