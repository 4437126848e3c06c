//! Reads and writes a million object names, checks a million reference names, and prints a checksum, to be measured beside `bench/names.c`.

use git_names::{Format, Oid, RefName, Steps};
use std::alloc::{AllocError, Global};
use std::io;
use std::process::ExitCode;

/// How often each is done.
const TURNS: usize = 1_000_000;

/// How many names there are; the turns use them over and over.
const NAMES: usize = 1024;

/// The next number of the sequence that the C program draws too (xorshift64).
fn next(state: u64) -> u64 {
    let mut x = state;
    x ^= x << 13;
    x ^= x >> 7;
    x ^= x << 17;
    x
}

fn digit(state: u64) -> u8 {
    b"0123456789abcdef"[(state % 16) as usize]
}

fn letter(state: u64) -> u8 {
    b"abcdefghijklmnopqrstuvwxyz-_0123"[(state % 32) as usize]
}

fn head(i: usize) -> &'static [u8] {
    match i % 4 {
        0 => b"refs/heads/",
        1 => b"refs/tags/v",
        2 => b"refs/remotes/origin/",
        _ => b"refs/pull/1/",
    }
}

/// Texts of object names, and of reference names.
#[derive(Drop)]
struct Texts {
    object_names: Vec<Vec<u8>>,
    ref_names: Vec<Vec<u8>>,
}

impl Texts {
    fn new(alloc: Global) -> Result<Texts, AllocError> {
        let mut state = 88_172_645_463_325_252;
        let mut object_names = Vec::new(alloc);
        let mut ref_names = Vec::new(alloc);
        for i in 0..NAMES {
            let mut object_name = Vec::new(alloc);
            for _ in 0..40 {
                state = next(state);
                object_name.push(digit(state))?;
            }
            object_names.push(object_name)?;
            let mut ref_name = Vec::from_slice(alloc, head(i))?;
            state = next(state);
            for _ in 0..4 + state % 16 {
                state = next(state);
                ref_name.push(letter(state))?;
            }
            ref_names.push(ref_name)?;
        }
        Ok(Texts {
            object_names,
            ref_names,
        })
    }
}

/// Reads and writes object names. Adds to the checksum.
fn run_object_names(texts: &[Vec<u8>], start: u64) -> u64 {
    let mut sum = start;
    if texts.is_empty() {
        return sum;
    }
    for turn in 0..TURNS {
        if let Ok(id) = Oid::read(
            Format::Sha1,
            texts[turn % texts.len()].as_slice(),
            &mut Steps::new(),
        ) {
            let mut out = [0; 64];
            let count = id.write(&mut out);
            sum = sum
                .wrapping_mul(31)
                .wrapping_add(u64::from(out[turn * 7 % 40.min(count.max(1))]));
        }
    }
    sum
}

/// Checks reference names. Adds to the checksum.
fn run_ref_names(texts: &[Vec<u8>], start: u64) -> u64 {
    let mut sum = start;
    if texts.is_empty() {
        return sum;
    }
    for turn in 0..TURNS {
        if let Ok(name) = RefName::read(texts[turn % texts.len()].as_slice(), &mut Steps::new()) {
            sum = sum
                .wrapping_mul(31)
                .wrapping_add(name.as_bytes().len() as u64);
        }
    }
    sum
}

/// Prints the checksum of both kinds of names. Returns the exit status.
pub(crate) fn run_names(rt: &HostRuntime) -> io::Result<ExitCode> {
    let texts = Texts::new(rt.alloc())?;
    let sum = run_object_names(texts.object_names.as_slice(), 0);
    let sum = run_ref_names(texts.ref_names.as_slice(), sum);
    println!(rt; "{sum}")?;
    Ok(ExitCode::SUCCESS)
}
