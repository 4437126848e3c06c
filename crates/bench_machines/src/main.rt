//! Runs the machine that its first argument names, as a caller uses it, for `bench/run.sh` to measure beside the C programs of `bench/`.
#![tactic(auto)]

mod client;
mod names;
mod packets;

use crate::client::run_client;
use crate::names::run_names;
use crate::packets::{run_bands, run_copied, run_packets};
use std::process::ExitCode;
use std::{env, io};

/// How many bytes of input are read at a time.
const CHUNK_BYTES: usize = 65_536;

fn main(rt: HostRuntime) -> io::Result<ExitCode> {
    let word = env::args(&rt)?.nth(1);
    match word.as_deref() {
        Some("packets") => run_packets(&rt),
        Some("copied") => run_copied(&rt),
        Some("bands") => run_bands(&rt),
        Some("client") => run_client(&rt),
        Some("names") => run_names(&rt),
        _ => {
            eprintln!(rt; "usage: bench_machines packets|copied|bands|client|names")?;
            Ok(ExitCode::FAILURE)
        }
    }
}
