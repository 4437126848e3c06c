//! Formats and object names: what is derived for them, and texts.
ghost use Rattle.std.specs.Prelude.{◌≡◌, ◌+◌, ◌↔◌, IsTrue};
ghost use Rattle.std.specs.Ordering.{nat_cmp};
ghost use Rattle.std.specs.Cmp.Lexicographic.{slice_cmp};

use crate::expecting::expect;
use git_names::{Format, NameFault, Oid, Steps};
use hex::{FromHex, FromHexError, ToHex};
use std::cmp::Ordering;
use std::test::Fail;

#[test]
fn formats_by_name(rt: HostRuntime) {
    for (format, name, digits) in [(Format::Sha1, "sha1", 40), (Format::Sha256, "sha256", 64)] {
        assert!(rt; format.name() == name);
        expect(&rt, &format.digits(), &digits);
        assert!(rt; Format::read(name.as_bytes()) == Some(format));
    }
    for text in [
        b"".as_slice(),
        b"sha512",
        b"sha",
        b"sha1 ",
        b"SHA1",
        b"sha2567",
    ] {
        assert!(rt; Format::read(text).is_none(), "{text:?}");
    }
}

#[test]
fn faults_by_name(rt: HostRuntime) -> Result<(), Fail> {
    let alloc = rt.alloc();
    let text = format!(in alloc; "{} {}", NameFault::BadObjectName, NameFault::BadRefName)?;
    assert_eq!(rt; text.as_str(), "BadObjectName BadRefName");
    Ok(())
}

// `==` returns whether the values are equal.
fn is_same(a: &Oid, b: &Oid) -> bool
    ensures { IsTrue result ↔ (a.now ≡ b.now) }
{
    *a == *b
}

// Names of one format are ordered by their bytes.
fn stands_before(a: &Oid, b: &Oid) -> bool
    requires { a.now.format ≡ b.now.format }
    ensures { IsTrue result ↔ (slice_cmp nat_cmp a.now.bytes b.now.bytes ≡ Ordering.Less) }
{
    a.cmp(b) == Ordering::Less
}

// The written form reads back as an equal name.
fn reads_back(id: &Oid) -> bool
    ensures { IsTrue result }
{
    let mut out = [0; 64];
    let count = id.write(&mut out);
    match Oid::read(id.format(), &out[..count], &mut Steps::new()) {
        Ok(again) => is_same(&again, id),
        Err(_) => false,
    }
}

// Steps add up.
fn tick_twice(steps: &mut Steps)
    ensures { steps.new ≡ steps.old + 7 }
{
    steps.tick(3);
    steps.tick(4);
}

#[test]
fn object_names_in_order(rt: HostRuntime) -> Result<(), Fail> {
    let low = Oid::read(
        Format::Sha1,
        b"0ffffffffffffffffffffffffffffffffffffff0",
        &mut Steps::new(),
    )?;
    let high = Oid::read(
        Format::Sha1,
        b"1000000000000000000000000000000000000000",
        &mut Steps::new(),
    )?;
    let long = Oid::read(
        Format::Sha256,
        b"0ffffffffffffffffffffffffffffffffffffff0000000000000000000000000",
        &mut Steps::new(),
    )?;
    assert!(rt; low < high);
    assert!(rt; low.cmp(&low) == Ordering::Equal);
    assert!(rt; low != long);
    assert!(rt; high < long);
    assert!(rt; reads_back(&low) && reads_back(&long));
    let mut steps = Steps::new();
    tick_twice(&mut steps);
    Ok(())
}

// The name of the empty tree, as Git prints it for either format.
const EMPTY_TREE: &str = "4b825dc642cb6eb9a060e54bf8d69288fbee4904";

const EMPTY_TREE_SHA256: &str = "6ef19b41225c5369f1c104d45d8d85efa9b057b53b14b4b9b939dd74decc5321";

#[test]
fn object_names_by_hex(rt: HostRuntime) -> Result<(), Fail> {
    let alloc = rt.alloc();
    for (format, text) in [
        (Format::Sha1, EMPTY_TREE),
        (Format::Sha256, EMPTY_TREE_SHA256),
    ] {
        let id = Oid::from_hex(text)?;
        expect(&rt, &id.format(), &format);
        assert_eq!(rt; id.encode_hex(alloc)?.as_str(), text);
        let upper = id.encode_hex_upper(alloc)?;
        assert_eq!(rt;
            upper.as_str(),
            hex::encode_upper(alloc, hex::decode(alloc, text)?)?.as_str()
        );
        assert!(rt; Oid::from_hex(upper.as_str())? == id);
        assert_eq!(rt; format!(in alloc; "{id:?}")?.as_str(), text);
    }
    Ok(())
}

#[test]
fn texts_that_hex_refuses(rt: HostRuntime) {
    for (text, fault) in [
        ("", FromHexError::InvalidStringLength),
        (
            "4b825dc642cb6eb9a060e54bf8d69288fbee490",
            FromHexError::OddLength,
        ),
        (
            "4b825dc642cb6eb9a060e54bf8d69288fbee49",
            FromHexError::InvalidStringLength,
        ),
        (
            "4b825gc642cb6eb9a060e54bf8d69288fbee4904",
            FromHexError::InvalidHexCharacter { c: 'g', index: 5 },
        ),
        (
            "6ef19b41225c5369f1c104d45d8d85efa9b057b53b14b4b9b939dd74decc532 ",
            FromHexError::InvalidHexCharacter { c: ' ', index: 63 },
        ),
    ] {
        assert!(rt; Oid::from_hex(text) == Err(fault), "{text:?}");
    }
}
