//! The payloads of edits.

ghost use Rattle.wot_types.specs.Payload.{IsProper};

use std::alloc::Global;
use std::test::Fail;
use wot_spelling::{encode, payload_length};
use wot_types::{Edit, Fpr, MOST_RECORD, Options, Trust};

/// A fingerprint of version 4, and one of a later version.
const SHORT: &[u8] = b"00000000000000000000000000000000000000AA";

const LONG: &[u8] = b"1122334455667788000000000000000000000000000000000000000000000000";

/// The payloads that set the ownertrust of the first and disable the second.
const SET: &[u8] = b"\x03\x14\0\0\0\0\0\0\0\0\0\0\0\0\0\0\0\0\0\0\0\xaa\x06";

const DISABLED: &[u8] = b"\x04\x20\x11\x22\x33\x44\x55\x66\x77\x88\
\0\0\0\0\0\0\0\0\0\0\0\0\0\0\0\0\0\0\0\0\0\0\0\0\x01";

// Whether the payload of an edit that a record has room for are these bytes.
fn is_encoded(alloc: Global, edit: &Edit, payload: &[u8]) -> Result<bool, Fail>
    requires proper { IsProper edit.now }
{
    if payload_length(edit) > MOST_RECORD {
        return Ok(false);
    }
    Ok(encode(alloc, edit)?.as_slice() == payload)
}

#[test]
fn ownertrust_is_spelled_by_fingerprint_and_number(rt: HostRuntime) -> Result<(), Fail> {
    let alloc = rt.alloc();
    let short = Fpr::from_hex(SHORT).ok_or("a fingerprint")?;
    let long = Fpr::from_hex(LONG).ok_or("a fingerprint")?;
    assert!(rt; is_encoded(alloc, &Edit::Set(short, Trust::Ultimate), SET)?);
    assert!(rt; is_encoded(alloc, &Edit::Flag(long, true), DISABLED)?);
    Ok(())
}

#[test]
fn dates_and_options_are_spelled_by_their_numbers(rt: HostRuntime) -> Result<(), Fail> {
    let alloc = rt.alloc();
    let classic = Options {
        pgp: false,
        completes: 1,
        marginals: 3,
        depth: 5,
        level: 2,
    };
    assert!(rt; is_encoded(alloc, &Edit::Date(5000), b"\x06\0\0\x13\x88")?);
    assert!(rt;
        is_encoded(
            alloc,
            &Edit::Options(classic),
            b"\x07\0\0\0\0\x01\0\0\0\x03\x05\x02"
        )?
    );
    Ok(())
}
