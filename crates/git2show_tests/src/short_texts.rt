//! Many short texts: they are in one vector with their ends in another, and none has a block of its own.
use crate::adding::{add_name, add_prefix, bytes_kept, new_request};
use crate::expecting::expect;
use git_msg::{Command, Limits, Request};
use git_pkt::Kind;
use linked_list_allocator::LocalHeap;
use std::alloc::{Allocator, Global};
use std::process::Abort;
use std::test::Fail;

/// A text, and what is compared for it.
#[derive(Clone, Copy)]
struct Text {
    command: Command,
    bytes: &'static [u8],
    /// What the limit counts for it: the bytes of its line.
    counted: usize,
    /// How many halves of that it may take. Each vector has space for at most twice its contents, and while one of them moves, the old
    /// block is still taken.
    halves: usize,
}

/// Prefixes of no byte and of one, and the shortest reference name.
const TEXTS: [Text; 3] = [
    Text {
        command: Command::LsRefs,
        bytes: b"",
        counted: 11,
        halves: 4,
    },
    Text {
        command: Command::LsRefs,
        bytes: b"a",
        counted: 12,
        halves: 4,
    },
    Text {
        command: Command::Fetch,
        bytes: b"HEAD",
        counted: 13,
        halves: 5,
    },
];

// Adds a text as an argument of its command.
fn add_text<A: Allocator + Copy>(request: &mut Request<A>, text: &Text) -> Result<(), Kind> {
    match text.command {
        Command::Fetch => add_name(request, text.bytes),
        _ => add_prefix(request, text.bytes),
    }
}

// Adds a text this many times.
fn add_times<A: Allocator + Copy>(
    request: &mut Request<A>,
    text: &Text,
    times: usize,
) -> Result<(), Kind> {
    for _ in 0..times {
        add_text(request, text)?;
    }
    Ok(())
}

// Expects that a text is kept this many times if only as much memory is left as it may take.
fn check_kept(rt: &impl Abort, alloc: Global, text: &Text, times: usize) -> Result<(), Fail> {
    let counted = text.counted.saturating_mul(times);
    let heap = LocalHeap::new(alloc, counted.saturating_mul(text.halves) / 2)?;
    let mut request = new_request(&heap, text.command, Limits::DEFAULT);
    assert_eq!(rt;
        add_times(&mut request, text, times),
        Ok(()),
        "{times} texts"
    );
    expect(rt, &(bytes_kept(&request) as usize), &counted);
    Ok(())
}

#[test]
fn short_texts_take_little_more_than_they_are_counted_for(rt: HostRuntime) -> Result<(), Fail> {
    for text in &TEXTS {
        for times in 1..=500 {
            check_kept(&rt, rt.alloc(), text, times)?;
        }
        // A few more than fit before the last move of either vector.
        for times in [8_193, 10_923, 16_385, 43_691] {
            check_kept(&rt, rt.alloc(), text, times)?;
        }
    }
    Ok(())
}
