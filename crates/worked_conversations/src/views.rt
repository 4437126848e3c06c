//! `show` with options: a line for each packet that they do not leave out, and what is reported below the lines.

use crate::packets::ending_of;
use crate::runs::Run;
use crate::setup::TURNS;
use crate::texts::append_str;
use crate::trouble::Trouble;
use git_pkt::Recorded;
use git2show_lib::{Form, Tally, View, show_view, summarize};
use std::alloc::Global;
use test_streams::{Chunks, Sink};

// Appends what is reported once the whole stream was read: its first packet that begins no request, if requests are looked for, or below
// columns what was counted.
fn append_tally(
    alloc: Global,
    ending: &mut String,
    form: Form,
    tally: Tally,
) -> Result<(), Trouble> {
    if let Some(offset) = tally.stray {
        let line = format!(in alloc; "NoCommand at {offset}\n")?;
        return Ok(append_str(ending, line.as_str())?);
    }
    if !matches!(form, Form::Columns(_)) {
        return Ok(());
    }
    let mut sink = Sink::new(Vec::new(alloc), usize::MAX, u32::MAX);
    if summarize(tally, &mut Recorded::new(&mut sink)).is_err() {
        return Err(Trouble::Breaks("what was counted is not written"));
    }
    let line = String::from_utf8_lossy(alloc, sink.taken.as_slice())?;
    Ok(append_str(ending, line.as_str())?)
}

/// Shows the chunks by a view.
pub fn viewed(alloc: Global, view: View<'_>, chunks: &[&[u8]]) -> Result<Run, Trouble> {
    let mut sink = Sink::new(Vec::new(alloc), usize::MAX, u32::MAX);
    let mut chunk = [0; 4_096];
    let mut tally = Tally::START;
    let answer = show_view(
        &mut Recorded::new(Chunks::new(chunks)),
        &mut Recorded::new(&mut sink),
        &mut chunk,
        TURNS,
        view,
        &mut tally,
    );
    let is_read = answer.is_ok();
    let mut ending = ending_of(alloc, answer)?;
    if is_read {
        append_tally(alloc, &mut ending, view.form, tally)?;
    }
    Ok(Run::new(alloc, sink.taken, ending, None))
}
