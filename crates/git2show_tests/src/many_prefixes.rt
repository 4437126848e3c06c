//! A request of many prefixes is answered with the references that begin with one of them, in their order, whatever the order of the
//! prefixes, however often each comes, and whether or not one begins with another.
use crate::servers::{converse, default_setup, object};
use git_msg::Offer;
use git_names::Format;
use git_server::{ListRepo, Outcome, Pack, RefEntry, Repo, Server};
use std::alloc::{AllocError, Global};
use std::process::Abort;
use std::test::Fail;

/// The branches of the repository: each twentieth number below this, as a name of five digits.
const NUMBERS: u32 = 60_000;

/// How many prefixes are in a request: the names of the branches of each third number. One in twenty of them exists.
const PREFIXES: u32 = 20_000;

/// The order of the prefixes in a request.
#[derive(Clone, Copy, Debug)]
struct Order {
    /// The distance between two consecutive prefixes.
    step: u32,
    /// How often all of them are repeated.
    rounds: u32,
    /// Whether there is also a prefix of four digits for each seventh ten of the branches.
    tens: bool,
}

fn repository(rt: &(impl Abort + AllocGlobal)) -> Result<ListRepo, Fail> {
    let id = object(rt, Format::Sha1, b'a');
    let mut refs = Vec::new(rt.alloc());
    for number in (0..NUMBERS).step_by(20) {
        let name = format!(in rt.alloc(); "refs/heads/{number:05}")?;
        let entry = RefEntry::new(name.into_bytes(), id, None, None);
        refs.push(entry.expect(rt, "a reference"))?;
    }
    let objects = Vec::new(rt.alloc());
    let boundaries = Vec::new(rt.alloc());
    let repo = ListRepo::new(
        Format::Sha1,
        refs,
        objects,
        None,
        boundaries,
        Pack::Owned(Vec::new(rt.alloc())),
        None,
        None,
    );
    Ok(repo.expect(rt, "a repository"))
}

// The request. Each of its packets has its length in digits before it.
fn request(alloc: Global, order: Order) -> Result<Vec<u8>, AllocError> {
    let mut request = Vec::from_slice(alloc, b"0014command=ls-refs\n0001")?;
    for turn in 0..PREFIXES.saturating_mul(order.rounds) {
        let number = turn.wrapping_mul(order.step) % PREFIXES * 3;
        let packet = format!(in alloc; "0020ref-prefix refs/heads/{number:05}\n")?;
        request.extend_from_slice(packet.as_bytes())?;
        let ten = number / 10;
        if order.tens && ten % 7 == 0 {
            let packet = format!(in alloc; "001fref-prefix refs/heads/{ten:04}\n")?;
            request.extend_from_slice(packet.as_bytes())?;
        }
    }
    request.extend_from_slice(b"0000")?;
    Ok(request)
}

// The expected packets: a branch is shown if its number is a multiple of three, or if its ten is requested.
fn expected(alloc: Global, tens: bool) -> Result<Vec<u8>, AllocError> {
    let mut expected = Vec::new(alloc);
    for number in (0..NUMBERS).step_by(20) {
        if number % 3 == 0 || (tens && number / 10 % 7 == 0) {
            expected.extend_from_slice(b"003eaaaaaaaaaaaaaaaaaaaaaaaaaaaaaaaaaaaaaaaa")?;
            let name = format!(in alloc; " refs/heads/{number:05}\n")?;
            expected.extend_from_slice(name.as_bytes())?;
        }
    }
    expected.extend_from_slice(b"0000")?;
    Ok(expected)
}

fn check_answer(rt: &(impl Abort + AllocGlobal), order: Order) -> Result<(), Fail> {
    let repo = repository(rt)?;
    let offer = Offer::nothing(repo.format());
    let mut server = Server::new(rt.alloc(), repo, offer, default_setup().limits, false);
    let request = request(rt.alloc(), order)?;
    let (given, ended) = converse(&mut server, rt.alloc(), &[request.as_slice()])?;
    assert_eq!(rt; ended, Some(Outcome::Closed), "{order:?}");
    assert!(rt;
        given.as_slice() == expected(rt.alloc(), order.tens)?.as_slice(),
        "{order:?}"
    );
    Ok(())
}

/// The prefixes ascending, descending and far apart; with prefixes of others among them; and all of that twice.
const ORDERS: [Order; 3] = [
    Order {
        step: 1,
        rounds: 1,
        tens: false,
    },
    Order {
        step: 19_999,
        rounds: 1,
        tens: true,
    },
    Order {
        step: 7_919,
        rounds: 2,
        tens: true,
    },
];

#[test]
fn references_are_answered_for_many_prefixes_in_any_order(rt: HostRuntime) -> Result<(), Fail> {
    for order in ORDERS {
        check_answer(&rt, order)?;
    }
    Ok(())
}
