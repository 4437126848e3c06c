//! The names and numbers of the refusals, and how errors print.
use crate::expecting::{expect, expect_bytes};
use git_pkt::{Fault, Kind, RunFault};
use std::test::Fail;

// Every refusal with its published name and number.
const TABLE: [(Kind, &[u8], u8); 34] = [
    (Kind::BadDigit, b"BadDigit", 1),
    (Kind::BadLength, b"BadLength", 2),
    (Kind::TooLong, b"TooLong", 3),
    (Kind::Truncated, b"Truncated", 4),
    (Kind::StreamTooLong, b"StreamTooLong", 5),
    (Kind::NoBand, b"NoBand", 6),
    (Kind::BadBand, b"BadBand", 7),
    (Kind::BadCapability, b"BadCapability", 8),
    (Kind::UnknownCommand, b"UnknownCommand", 9),
    (Kind::TwoCommands, b"TwoCommands", 10),
    (Kind::NoCommand, b"NoCommand", 11),
    (Kind::NotAdvertised, b"NotAdvertised", 12),
    (Kind::BadObjectName, b"BadObjectName", 13),
    (Kind::BadRefName, b"BadRefName", 14),
    (Kind::BadNumber, b"BadNumber", 15),
    (Kind::DeepenConflict, b"DeepenConflict", 16),
    (Kind::NoWants, b"NoWants", 17),
    (Kind::NoSize, b"NoSize", 18),
    (Kind::WrongFormat, b"WrongFormat", 19),
    (Kind::UnknownArgument, b"UnknownArgument", 20),
    (Kind::TooMuchKept, b"TooMuchKept", 21),
    (Kind::UnexpectedPacket, b"UnexpectedPacket", 22),
    (Kind::RemoteError, b"RemoteError", 23),
    (Kind::UnknownRef, b"UnknownRef", 24),
    (Kind::NotOurs, b"NotOurs", 25),
    (Kind::PackSource, b"PackSource", 26),
    (Kind::NotVersion2, b"NotVersion2", 27),
    (Kind::UnexpectedSection, b"UnexpectedSection", 28),
    (Kind::BadLine, b"BadLine", 29),
    (Kind::OutOfMemory, b"OutOfMemory", 30),
    (Kind::RemoteFatal, b"RemoteFatal", 31),
    (Kind::ReadFault, b"ReadFault", 32),
    (Kind::WriteFault, b"WriteFault", 33),
    (Kind::ReadLimit, b"ReadLimit", 34),
];

#[test]
fn every_kind_has_its_name_and_number(rt: HostRuntime) -> Result<(), Fail> {
    for (kind, name, number) in TABLE {
        assert_eq!(rt; kind.name().as_bytes(), name, "at {number}");
        expect(&rt, &kind.number(), &number);
        let shown = format!(in rt.alloc(); "{kind}")?;
        expect_bytes(&rt, shown.as_bytes(), name);
    }
    Ok(())
}

#[test]
fn faults_print_their_name_and_offset(rt: HostRuntime) -> Result<(), Fail> {
    let fault = Fault {
        kind: Kind::StreamTooLong,
        offset: 9_223_372_036_854_775_807,
    };
    let shown = format!(in rt.alloc(); "{fault}")?;
    assert_eq!(rt; shown.as_str(), "StreamTooLong at 9223372036854775807");
    let refused = format!(in rt.alloc(); "{}", RunFault::Refused(fault))?;
    assert_eq!(rt; refused.as_str(), "StreamTooLong at 9223372036854775807");
    Ok(())
}

#[test]
fn faults_of_a_run_print_their_name(rt: HostRuntime) -> Result<(), Fail> {
    let runs = [
        (RunFault::ReadFault, "ReadFault"),
        (RunFault::WriteFault, "WriteFault"),
        (RunFault::ReadLimit, "ReadLimit"),
    ];
    for (fault, text) in runs {
        let shown = format!(in rt.alloc(); "{fault}")?;
        assert_eq!(rt; shown.as_str(), text);
    }
    Ok(())
}
