//! Memory that is refused while the text of a repository is read, at each growth in turn.
use crate::expecting::expect;
use git_repository::{Packs, RepositoryReader, TextFault, read_repo};
use git_server::{ListRepo, Pack, Repo, RepoMemory};
use std::alloc::{AllocError, Global};
use std::cell::Cell;
use std::process::Abort;

/// The text of a repository with lines of each kind, and with names that have memory of their own.
const TEXT: &[u8] = b"format sha1\n\
ref aaaaaaaaaaaaaaaaaaaaaaaaaaaaaaaaaaaaaaaa HEAD symref-target:refs/heads/main\n\
ref aaaaaaaaaaaaaaaaaaaaaaaaaaaaaaaaaaaaaaaa refs/heads/main\n\
ref aaaaaaaaaaaaaaaaaaaaaaaaaaaaaaaaaaaaaaaa refs/tags/a-name-that-is-longer-than-32-bytes\n\
object aaaaaaaaaaaaaaaaaaaaaaaaaaaaaaaaaaaaaaaa 12\n\
ready 1\n\
shallow aaaaaaaaaaaaaaaaaaaaaaaaaaaaaaaaaaaaaaaa\n";

/// More growths than the text takes.
const ENOUGH: u32 = 100;

/// Memory that allows this many growths of lists, and refuses each later one.
#[derive(Drop)]
struct Growths {
    alloc: Global,
    left: Cell<u32>,
    refused: Cell<bool>,
}

impl Growths {
    fn new(alloc: Global, left: u32) -> Growths {
        Growths {
            alloc,
            left: Cell::new(left),
            refused: Cell::new(false),
        }
    }
}

impl RepoMemory for &Growths {
    ghost refuses = { λ bytes. Unit {0} };

    fn alloc(&self) -> Global {
        self.alloc
    }

    fn reserve<T>(&self, list: &mut Vec<T>, more: usize) -> Result<(), AllocError> {
        if more <= list.capacity() - list.len() {
            return Ok(());
        }
        let left = self.left.get();
        if left == 0 {
            self.refused.set(true);
            return Err(AllocError);
        }
        self.left.set(left - 1);
        list.reserve(more)
    }
}

/// No packs.
fn no_packs(alloc: Global) -> Packs {
    Packs {
        pack: Pack::Owned(Vec::new(alloc)),
        filtered: None,
    }
}

/// The result of a reader that is fed the text in chunks of this many bytes.
fn read_in_chunks(memory: &Growths, size: usize) -> Result<ListRepo, TextFault> {
    let mut reader = RepositoryReader::new(memory);
    for chunk in TEXT.chunks(size.max(1)) {
        if reader.feed(chunk).is_err() {
            return Err(TextFault::OutOfMemory);
        }
    }
    reader.finish(no_packs(memory.alloc))
}

/// Expects that the text is read if no growth was refused, and otherwise that memory ran out. Returns whether it is read.
fn is_read(rt: &impl Abort, memory: &Growths, read: Result<ListRepo, TextFault>) -> bool {
    match read {
        Ok(repo) => {
            assert!(rt; !memory.refused.get());
            assert_eq!(rt; repo.refs().len(), 3);
            true
        }
        Err(fault) => {
            assert!(rt; memory.refused.get());
            expect(rt, &fault, &TextFault::OutOfMemory);
            false
        }
    }
}

#[test]
fn each_growth_of_a_text_is_refused_in_turn(rt: HostRuntime) {
    let mut least = ENOUGH;
    for growths in 0..ENOUGH {
        let memory = Growths::new(rt.alloc(), growths);
        let read = read_repo(&memory, TEXT, no_packs(rt.alloc()));
        if is_read(&rt, &memory, read) {
            least = least.min(growths);
        } else {
            assert_eq!(&rt; least, ENOUGH);
        }
    }
    // A list of each of three kinds, a target and a name.
    assert_eq!(&rt; least, 5);
}

#[test]
fn each_growth_of_a_text_in_chunks_is_refused_in_turn(rt: HostRuntime) {
    for size in [1, 7, TEXT.len()] {
        let mut least = ENOUGH;
        for growths in 0..ENOUGH {
            let memory = Growths::new(rt.alloc(), growths);
            let read = read_in_chunks(&memory, size);
            if is_read(&rt, &memory, read) {
                least = least.min(growths);
            } else {
                assert_eq!(&rt; least, ENOUGH);
            }
        }
        assert!(&rt; 5 < least && least < ENOUGH);
    }
}
