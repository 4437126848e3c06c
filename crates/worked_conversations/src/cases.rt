//! Cases, as a text contains them: a name, what is run and how it is set up, the input and output, line by line.

use crate::asking::Asking;
use crate::ends::End;
use crate::script::{Given, Recording, Script};
use crate::sessions::{Contents, Reads, Setup};
use crate::tables::Table;
use crate::trouble::Trouble;
use crate::{checks, clients, hosts, plays, runs};
use git_client::Ending;
use git_msg::{Agent, Command};
use git_names::Format;
use git2show_lib::{Form, Look, View};
use std::alloc::{AllocError, Global};
use std::fs;

/// The default limit of a request's arguments.
const DEFAULT_LIMIT: u32 = 16_777_216;

/// The default number of columns of a line.
const COLUMNS: u32 = 80;

/// The files that a case names.
#[derive(Drop)]
struct Files {
    /// The text of a server's repository, and its packs.
    repository: Vec<u8>,
    pack: Vec<u8>,
    filtered: Option<Vec<u8>>,
    /// The input of a client before its case.
    arrived: Vec<u8>,
    recording: Option<Recording>,
}

/// What a case runs.
#[derive(Drop)]
enum Subject<'a> {
    End(End<'a>),
    Play(Contents<'a>),
    Table(Table),
    Asking(Asking),
}

/// The words of a case that state what is run.
#[derive(Clone, Copy)]
struct Words<'a> {
    text: &'a str,
}

impl<'a> Words<'a> {
    fn has(self, word: &str) -> bool {
        self.text.split_whitespace().any(|one| one == word)
    }

    // The word after this one.
    fn after(self, word: &str) -> Option<&'a str> {
        let mut words = self.text.split_whitespace();
        while let Some(one) = words.next() {
            if one == word {
                return words.next();
            }
        }
        None
    }

    fn format(self) -> Format {
        match self.has("sha256") {
            true => Format::Sha256,
            false => Format::Sha1,
        }
    }

    // How each response ends.
    fn ending(self) -> Ending {
        match self.has("stateless") {
            true => Ending::ResponseEnd,
            false => Ending::FlushOnly,
        }
    }

    // The agent of the name after `by`, or this library's own.
    fn agent(self) -> Result<Agent, Trouble> {
        let Some(name) = self.after("by") else {
            return Ok(Agent::own());
        };
        match Agent::new(name.as_bytes()) {
            Some(agent) => Ok(agent),
            None => Err(Trouble::BadCase("no name of an agent after `by`")),
        }
    }

    // The word before the name of the repository's file.
    fn before_repository(self) -> &'static str {
        match self.text.split_whitespace().next() {
            Some("play") => "play",
            Some("host") => "as",
            _ => "server",
        }
    }

    fn command(self) -> Command {
        if self.has("fetch") {
            return Command::Fetch;
        }
        if self.has("object-info") {
            return Command::ObjectInfo;
        }
        Command::LsRefs
    }

    // The number after this word, if the case has the word.
    fn number(self, word: &str) -> Result<Option<u32>, Trouble> {
        match self.after(word) {
            Some(number) => match number.parse::<u32>() {
                Ok(number) => Ok(Some(number)),
                Err(_) => Err(Trouble::BadCase("no number after a word")),
            },
            None => Ok(None),
        }
    }

    fn limit(self) -> Result<u32, Trouble> {
        Ok(self.number("limit")?.unwrap_or(DEFAULT_LIMIT))
    }

    // How a pack is read. If no failing read is named, the first to fail is one that no run makes.
    fn reads(self) -> Result<Option<Reads>, Trouble> {
        let (fail_from, most) = (self.number("failing")?, self.number("most")?);
        if fail_from.is_none() && most.is_none() {
            return Ok(None);
        }
        Ok(Some(Reads {
            fail_from: fail_from.unwrap_or(u32::MAX),
            most: most.unwrap_or(u32::MAX) as usize,
        }))
    }

    // Whether the features of `fetch` and the command `object-info` are advertised.
    fn features(self) -> bool {
        !self.has("no-features")
    }

    // The offset after this word, or 0.
    fn offset(self, word: &str) -> Result<u64, Trouble> {
        match self.after(word) {
            Some(offset) => offset
                .parse::<u64>()
                .map_err(|_| Trouble::BadCase("no offset")),
            None => Ok(0),
        }
    }
}

// The table that these words name.
fn table_of(words: Words<'_>) -> Option<Table> {
    let format = words.format();
    match words.text.split_whitespace().next()? {
        "payloads" => Some(Table::Payloads),
        "object-names" => Some(Table::ObjectNames(format)),
        "reference-names" => Some(Table::ReferenceNames),
        "capability-lines" => Some(Table::CapabilityLines),
        "notes" => Some(Table::Notes),
        "arguments" => Some(Table::Arguments(words.command(), format, words.features())),
        "reference-lines" => Some(Table::ReferenceLines(format)),
        "repository-texts" => Some(Table::RepositoryTexts),
        "scripts" => Some(Table::Scripts(format, words.limit().ok()?)),
        "lists" => Some(Table::Lists(format)),
        _ => None,
    }
}

// The contents that a server has with these files.
fn contents_of<'a>(files: &'a Files) -> Contents<'a> {
    Contents {
        text: files.repository.as_slice(),
        pack: files.pack.as_slice(),
        filtered: files.filtered.as_deref(),
    }
}

// The server set up by these words.
fn server_of<'a>(words: Words<'_>, files: &'a Files) -> Result<Setup<'a>, Trouble> {
    Ok(Setup {
        contents: contents_of(files),
        reads: words.reads()?,
        limit: words.limit()?,
        features: words.features(),
        advertises: words.has("advertises"),
        agent: words.agent()?,
    })
}

// The host's server set up by these words.
fn host_of(words: Words<'_>) -> Result<hosts::Setup, Trouble> {
    Ok(hosts::Setup {
        format: words.format(),
        limit: words.limit()?,
        features: words.features(),
        advertises: words.has("advertises"),
        agent: words.agent()?,
    })
}

// The client set up by these words.
fn client_of<'a>(words: Words<'_>, files: &'a Files) -> Result<clients::Setup<'a>, Trouble> {
    Ok(clients::Setup {
        agent: words.agent()?,
        format: words.format(),
        ending: words.ending(),
        arrived: files.arrived.as_slice(),
    })
}

// The conversation to check, set up by these words.
fn check_of(words: Words<'_>) -> checks::Setup {
    checks::Setup {
        format: words.format(),
        ending: words.ending(),
    }
}

// The request that these words begin.
fn asking_of(words: Words<'_>) -> Result<Asking, Trouble> {
    Ok(Asking {
        command: words.command(),
        format: words.format(),
        limit: words.limit()?,
        agent: words.has("agent"),
        object_format: words.has("object-format"),
    })
}

// What the line of a packet is, by these words.
fn form_of(words: Words<'_>) -> Result<Form, Trouble> {
    if words.has("pretty") {
        return Ok(Form::Columns(Look {
            colours: false,
            width: words.number("width")?.unwrap_or(COLUMNS),
        }));
    }
    match words.has("json") {
        true => Ok(Form::Json),
        false => Ok(Form::Lines),
    }
}

// How packets are shown, by these words.
fn view_of<'a>(words: Words<'a>) -> Result<View<'a>, Trouble> {
    Ok(View {
        form: form_of(words)?,
        from: words.offset("from")?,
        no_pack: words.has("no-pack"),
        only: words.after("only").map(|command| command.as_bytes()),
    })
}

// The side that these words name.
fn end_of<'a>(words: Words<'a>, files: &'a Files) -> Result<End<'a>, Trouble> {
    let format = words.format();
    match words.text.split_whitespace().next() {
        Some("packets") => Ok(End::Packets(words.offset("at")?)),
        Some("view") => Ok(End::View(view_of(words)?)),
        Some("requests") => Ok(End::Requests(format, words.limit()?, words.features())),
        Some("client") => Ok(End::Client(client_of(words, files)?)),
        Some("check") => Ok(End::Check(check_of(words))),
        Some("server") => Ok(End::Server(server_of(words, files)?)),
        Some("host") => Ok(End::Host(host_of(words)?)),
        _ => Err(Trouble::BadCase("nothing to run")),
    }
}

// What these words name.
fn subject_of<'a>(words: Words<'a>, files: &'a Files) -> Result<Subject<'a>, Trouble> {
    if let Some(table) = table_of(words) {
        return Ok(Subject::Table(table));
    }
    if words.text.split_whitespace().next() == Some("asking") {
        return Ok(Subject::Asking(asking_of(words)?));
    }
    if words.has("play") {
        return Ok(Subject::Play(contents_of(files)));
    }
    Ok(Subject::End(end_of(words, files)?))
}

// The file named after this word, if the case has the word.
fn named_file(rt: &HostRuntime, words: Words<'_>, word: &str) -> Result<Option<Vec<u8>>, Trouble> {
    match words.after(word) {
        Some(path) => Ok(Some(fs::read(rt, path)?)),
        None => Ok(None),
    }
}

// The same, or an empty file.
fn file_after(
    rt: &HostRuntime,
    alloc: Global,
    words: Words<'_>,
    word: &str,
) -> Result<Vec<u8>, Trouble> {
    match named_file(rt, words, word)? {
        Some(file) => Ok(file),
        None => Ok(Vec::new(alloc)),
    }
}

// One of the files of a recording of this name.
fn read_recorded(
    rt: &HostRuntime,
    alloc: Global,
    name: &str,
    file: &str,
) -> Result<Vec<u8>, Trouble> {
    let path = format!(in alloc; "sessions/{name}{file}")?;
    Ok(fs::read(rt, path.as_str())?)
}

// The recording, if these words name one.
fn read_recording(
    rt: &HostRuntime,
    alloc: Global,
    words: Words<'_>,
) -> Result<Option<Recording>, Trouble> {
    let Some(name) = words.after("recorded") else {
        return Ok(None);
    };
    Ok(Some(Recording {
        requests: read_recorded(rt, alloc, name, "-requests.pkt")?,
        responses: read_recorded(rt, alloc, name, "-responses.pkt")?,
        pack: read_recorded(rt, alloc, name, ".pack")?,
    }))
}

// The files that these words name.
fn read_files(rt: &HostRuntime, alloc: Global, words: Words<'_>) -> Result<Files, Trouble> {
    Ok(Files {
        repository: file_after(rt, alloc, words, words.before_repository())?,
        pack: file_after(rt, alloc, words, "pack")?,
        filtered: named_file(rt, words, "filtered")?,
        arrived: file_after(rt, alloc, words, "after")?,
        recording: read_recording(rt, alloc, words)?,
    })
}

// The server that a case is run with beside the one that it names: a host's server in place of a repository's, and where a case of a host
// names a repository, a server of that.
fn other_end<'a>(
    words: Words<'_>,
    files: &'a Files,
    end: &End<'a>,
) -> Result<Option<End<'a>>, Trouble> {
    match end {
        End::Server(setup) => Ok(Some(End::HostOfRepository(*setup))),
        End::Host(_) if words.has("as") => Ok(Some(End::Server(server_of(words, files)?))),
        _ => Ok(None),
    }
}

// Runs a side with these lines. Returns how many runs were made.
fn end_goes(
    alloc: Global,
    (end, other): (&End<'_>, Option<&End<'_>>),
    recording: Option<Recording>,
    lines: &[&str],
) -> Result<usize, Trouble> {
    let mut script = Script::read(alloc, lines, end.form())?;
    match (end, recording) {
        (_, None) => {}
        (End::Check(_), Some(recording)) => script.take_conversation(recording)?,
        (_, Some(recording)) => script.take_recording(recording)?,
    }
    let runs = runs::goes(alloc, end, &script)?;
    let Some(other) = other else {
        return Ok(runs);
    };
    script.wait_for_flush(alloc)?;
    let others = runs::goes(alloc, other, &script)?;
    Ok(runs.saturating_add(others))
}

// Runs a case with these lines after its name. Returns how many runs were made.
fn goes(rt: &HostRuntime, alloc: Global, setup: &str, lines: &[&str]) -> Result<usize, Trouble> {
    let words = Words { text: setup };
    let mut files = read_files(rt, alloc, words)?;
    let recording = files.recording.take();
    match subject_of(words, &files)? {
        Subject::End(end) => {
            let other = other_end(words, &files, &end)?;
            end_goes(alloc, (&end, other.as_ref()), recording, lines)
        }
        Subject::Play(contents) => {
            let script = Script::read(alloc, lines, Given::Talk)?;
            plays::goes(alloc, contents, &script)
        }
        Subject::Table(table) => {
            let script = Script::read(alloc, lines, Given::Lines)?;
            table.goes(alloc, &script)
        }
        Subject::Asking(asking) => {
            let script = Script::read(alloc, lines, Given::Lines)?;
            asking.goes(alloc, &script)
        }
    }
}

// The line that reports the result of a case.
fn line_of(alloc: Global, name: &str, went: &Result<usize, Trouble>) -> Result<String, AllocError> {
    match went {
        Ok(runs) => format!(in alloc; "ok: {name} ({runs})"),
        Err(Trouble::Differs(how)) => format!(in alloc; "DIFFERS: {name}: {how}"),
        Err(Trouble::Breaks(what)) => format!(in alloc; "BROKEN: {name}: {what}"),
        Err(Trouble::BadCase(why)) => format!(in alloc; "NO CASE: {name}: {why}"),
        Err(Trouble::OutOfMemory) => format!(in alloc; "OUT OF MEMORY: {name}"),
        Err(Trouble::NoFile) => format!(in alloc; "NO FILE: {name}"),
    }
}

/// How many cases passed, and how many did not.
#[derive(Clone, Copy, Default)]
pub struct Count {
    pub passed: u32,
    pub failed: u32,
}

impl Count {
    // Runs a case, and prints its line.
    fn run(&mut self, rt: &HostRuntime, lines: &[&str]) -> Result<(), Trouble> {
        let alloc = rt.alloc();
        let Some((name, lines)) = lines.split_first() else {
            return Ok(());
        };
        let went = match lines.split_first() {
            Some((setup, lines)) => goes(rt, alloc, setup, lines),
            None => Err(Trouble::BadCase("a name alone")),
        };
        match went {
            Ok(_) => self.passed = self.passed.saturating_add(1),
            Err(_) => self.failed = self.failed.saturating_add(1),
        }
        rt.println(line_of(alloc, name, &went)?)?;
        Ok(())
    }

    /// Runs the cases of a text, separated by empty lines. A line that begins with `#` is a comment.
    pub fn run_all(&mut self, rt: &HostRuntime, text: &str) -> Result<(), Trouble> {
        let mut lines: Vec<&str> = Vec::new(rt.alloc());
        for line in text.lines() {
            if line.is_empty() {
                self.run(rt, lines.as_slice())?;
                lines.clear();
            } else if !line.starts_with('#') {
                lines.push(line).map_err(|_| Trouble::OutOfMemory)?;
            }
        }
        self.run(rt, lines.as_slice())
    }
}
