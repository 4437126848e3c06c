//! A pack that is read in parts, and reads of it that fail.

ghost use Rattle.std.specs.Prelude.{◌≤◌};

use git_msg::{Command, Fetch, Limits, Request};
use git_names::Format;
use git_server::{Faulty, ListRepo, Pack, PackFault, Repo};
use std::alloc::{AllocError, Allocator};
use std::process::Abort;
use std::test::Fail;

const PACK: &[u8] = b"PACK of 17 bytes.";

fn repository(rt: &(impl Abort + AllocGlobal)) -> Result<ListRepo, Fail> {
    let repo = ListRepo::new(
        Format::Sha1,
        Vec::new(rt.alloc()),
        Vec::new(rt.alloc()),
        None,
        Vec::new(rt.alloc()),
        Pack::Lent(PACK),
        None,
        None,
    );
    Ok(repo.expect(rt, "a repository"))
}

// Reads the pack for the request from its start, until it ends or a read fails. Returns how many reads gave bytes, and the error.
fn read_pack<R: Repo, A: Allocator + Copy>(
    repo: &mut R,
    request: &Fetch<A>,
    pack: &mut Vec<u8>,
) -> Result<(u32, Option<PackFault>), AllocError> {
    let mut out = [0; 8];
    for reads in 0..100 {
        match repo.pack_read(request, pack.len() as u64, &mut out) {
            Ok(0) => return Ok((reads, None)),
            Ok(count) => pack.extend_from_slice(&out[..count])?,
            Err(fault) => return Ok((reads, Some(fault))),
        }
    }
    Ok((100, None))
}

// Expects the result of reading a repository's pack: the bytes, how many reads gave some, and the error.
fn check_read<R: Repo>(
    rt: &(impl Abort + AllocGlobal),
    repo: &mut R,
    expected: (&[u8], u32, Option<PackFault>),
) -> Result<(), Fail> {
    let request = Request::new(rt.alloc(), Command::Fetch, repo.format(), Limits::DEFAULT);
    let mut pack = Vec::new(rt.alloc());
    if let Request::Fetch(fetch) = &request {
        let (reads, fault) = read_pack(repo, fetch, &mut pack)?;
        assert!(rt; (pack.as_slice(), reads, fault) == expected);
        return Ok(());
    }
    assert!(rt; false, "a request of another command");
    Ok(())
}

// Expects that the whole pack comes in parts of this many bytes, with this many reads.
fn check_parts(rt: &(impl Abort + AllocGlobal), most: usize, reads: u32) -> Result<(), Fail>
    requires { 1 ≤ most }
{
    let mut faulty = Faulty::new(repository(rt)?, 100, most);
    check_read(rt, &mut faulty, (PACK, reads, None))
}

#[test]
fn a_pack_comes_in_parts(rt: HostRuntime) -> Result<(), Fail> {
    check_read(&rt, &mut repository(&rt)?, (PACK, 3, None))?;
    check_parts(&rt, 5, 4)?;
    check_parts(&rt, 1, 17)
}

#[test]
fn reads_of_a_pack_fail(rt: HostRuntime) -> Result<(), Fail> {
    let mut faulty = Faulty::new(repository(&rt)?, 2, 5);
    check_read(&rt, &mut faulty, (b"PACK of 17", 2, Some(PackFault)))?;
    check_read(&rt, &mut faulty, (b"", 0, Some(PackFault)))?;
    check_read(&rt, &mut faulty.into_inner(), (PACK, 3, None))
}

#[test]
fn a_fault_of_a_pack_has_a_text(rt: HostRuntime) -> Result<(), Fail> {
    assert_eq!(rt; PackFault.to_string(rt.alloc())?.as_str(), "PackSource");
    Ok(())
}
