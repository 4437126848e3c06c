//! Bytes as they are shown on a line.
use crate::expecting::expect;
use git_pkt::{escape_into, is_plain};
use std::test::Fail;

/// Bytes, and how they are shown.
const SHOWN: [(&[u8], &[u8]); 8] = [
    (b"", b""),
    (b"refs/heads/main ~", b"refs/heads/main ~"),
    (b"a\n", b"a\\n"),
    (b"\\", b"\\\\"),
    (b"\x00", b"\\x00"),
    (b"\x1f", b"\\x1f"),
    (b"\x7f", b"\\x7f"),
    (b"\xe4\xff", b"\\xe4\\xff"),
];

#[test]
fn bytes_are_shown_by_their_escapes(rt: HostRuntime) -> Result<(), Fail> {
    for (bytes, shown) in SHOWN {
        let mut line = [b'-'; 80];
        assert!(rt; bytes.len() < 20);
        let end = escape_into(bytes, &mut line, 1);
        expect(&rt, &line[..end].split_first(), &Some((&b'-', shown)));
    }
    Ok(())
}

#[test]
fn bytes_are_plain_where_each_stands_for_itself(rt: HostRuntime) -> Result<(), Fail> {
    for (bytes, shown) in SHOWN {
        expect(&rt, &is_plain(bytes), &(bytes == shown));
    }
    Ok(())
}
