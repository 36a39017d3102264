//! Runs whose input may have so many bytes and no more.

use crate::runs::over;
use std::alloc::Global;
use std::test::Fail;
use std::thread::Threads;
use wot_session::{Status, run_within};
use wot_workers::NoGate;

/// What `list` tells of an empty store.
const LISTED: &[u8] = b"tru::1:0:0:3:1:5\nok\n";

// Whether a session over an input of so many bytes or fewer ends with this code and has told this.
fn ends_so<R: Threads + Sync>(
    rt: &R,
    alloc: Global,
    input: &[u8],
    most: u64,
    code: u8,
    told: &[u8],
) -> Result<bool, Fail> {
    let words: Vec<String> = Vec::new(alloc);
    let mut site = over(alloc, input)?;
    let status = run_within(rt, alloc, &words, &mut site, &NoGate, most);
    Ok(status.code() == code && site.told() == told)
}

#[test]
fn one_byte_past_the_bound_is_too_long(rt: HostRuntime) -> Result<(), Fail> {
    let alloc = rt.alloc();
    assert!(rt; ends_so(&rt, alloc, b"list\n", 4, 8, b"")?);
    assert!(rt; ends_so(&rt, alloc, b"list\n", 5, 0, LISTED)?);
    assert!(rt; ends_so(&rt, alloc, b"list\n", 6, 0, LISTED)?);
    assert_eq!(rt;
        (Status::TooLong.code(), Status::TooLong.line()),
        (8, "wot: input too long")
    );
    Ok(())
}

#[test]
fn a_last_line_without_newline_counts_its_bytes(rt: HostRuntime) -> Result<(), Fail> {
    let alloc = rt.alloc();
    assert!(rt; ends_so(&rt, alloc, b"list", 4, 0, LISTED)?);
    assert!(rt; ends_so(&rt, alloc, b"export", 5, 8, b"")?);
    assert!(rt; ends_so(&rt, alloc, b"export", 6, 0, b"ok\n")?);
    assert!(rt; ends_so(&rt, alloc, b"", 0, 0, b"")?);
    Ok(())
}

/// What stands behind `quit` isn't read, and doesn't count.
#[test]
fn an_input_ends_at_quit(rt: HostRuntime) -> Result<(), Fail> {
    let alloc = rt.alloc();
    assert!(rt; ends_so(&rt, alloc, b"quit\nlist\n", 5, 0, b"ok\n")?);
    assert!(rt; ends_so(&rt, alloc, b"quit\nlist\n", 4, 8, b"")?);
    Ok(())
}
