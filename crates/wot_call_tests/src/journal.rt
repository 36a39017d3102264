//! Records that are built from payloads.

use std::alloc::Global;
use std::test::Fail;
use wot_journal::{BuildError, build};

/// A payload that sets the ownertrust of A.
const TRUST: &[u8] = b"\x03\x14\0\0\0\0\0\0\0\0\0\0\0\0\0\0\0\0\0\0\0\xaa\x06";

/// Its record behind the gate: the length, the payload and the next gate, closed.
const BODY: &[u8] = b"\0\0\0\x17\x03\x14\0\0\0\0\0\0\0\0\0\0\0\0\0\0\0\0\0\0\0\xaa\x06\0";

#[test]
fn a_record_has_its_payload_between_length_and_gate(rt: HostRuntime) -> Result<(), Fail> {
    let record = build(rt.alloc(), TRUST, 4120)?;
    assert_eq!(rt; (record.end(), record.body()), (4120, BODY));
    Ok(())
}

// For which place ten bytes are built, or why they aren't.
fn end_of_ten(alloc: Global, end: u64) -> Result<u64, BuildError> {
    match build(alloc, b"0123456789", end) {
        Ok(record) => Ok(record.end()),
        Err(e) => Err(e),
    }
}

/// A record of ten bytes has room where its next gate is the last byte that a side may have.
#[test]
fn a_record_fits_up_to_the_last_place(rt: HostRuntime) -> Result<(), Fail> {
    let cases = [
        (0, Ok(0)),
        (4_294_967_279, Ok(4_294_967_279)),
        (4_294_967_280, Err(BuildError::JournalFull)),
        (u64::MAX, Err(BuildError::JournalFull)),
    ];
    for (end, built) in cases {
        assert_eq!(rt; end_of_ten(rt.alloc(), end), built, "at {end}");
    }
    Ok(())
}
