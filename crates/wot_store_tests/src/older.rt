//! Images of older formats, and of rules that there aren't.

use crate::stores::{
    FRESH, HEADER, TWO_KEYS, TWO_ROWS, compacted_place, front, opening, over, row_at, sealed_again,
};
use std::alloc::Global;
use std::test::Fail;
use wot_check::RowFault;
use wot_site::Pick;
use wot_store::{BadStore, Place, StoreError};
use wot_types::KeyId;

// What follows the format in the image of two keys: the date, the options, and that A is ultimately trusted.
const START: &[u8] = b"\0\0\0\0\x01\0\0\0\x01\0\0\0\x03\x05\x02\
\0\0\0\x01\x14\0\0\0\0\0\0\0\0\0\0\0\0\0\0\0\0\0\0\0\xaa\x06";

// The rows of A and of B where no delegator is told, that of B of another level.
const OLDER_ROWS: &[u8] = b"\0\0\0\x02\
\0\0\0\0\0\0\0\xaa\0\x06\0\0\
\0\0\0\0\0\0\0\xbb\x02\0\0\0";

// The same with delegators.
const OTHER_ROWS: &[u8] = b"\0\0\0\x02\
\0\0\0\0\0\0\0\xaa\0\x06\0\0\0\
\0\0\0\0\0\0\0\xbb\x02\0\0\0\0";

// A side of epoch 1 whose image has this format, these keys and these rows.
fn side_of(alloc: Global, format: &[u8], keys: &[u8], rows: &[u8]) -> Result<Vec<u8>, Fail> {
    let mut body = Vec::from_slice(alloc, format)?;
    for part in [START, keys, rows] {
        body.extend_from_slice(part)?;
    }
    let mut side = Vec::from_slice(alloc, &HEADER)?;
    side.extend_from_slice(&(body.len() as u64).to_be_bytes())?;
    side.extend_from_slice(&body)?;
    side.extend_from_slice(&[0; 4064])?;
    sealed_again(alloc, &side, 1)
}

// Contents that are no image.
fn no_image() -> Result<Place, StoreError> {
    Err(StoreError::Bad(BadStore::Spelling))
}

#[test]
fn rows_by_older_rules_are_counted_anew(rt: HostRuntime) -> Result<(), Fail> {
    let alloc = rt.alloc();
    // Both keys as the first record has them; and with one more byte at the end, as B's certification names no fingerprint.
    let first = &TWO_KEYS[6..146];
    let mut second = Vec::from_slice(alloc, first)?;
    second.push(0)?;
    let fault = RowFault {
        key: KeyId(0xbb),
        stored: Some(row_at(2)),
        counted: Some(row_at(1)),
    };
    let cases = [
        (b"\x01".as_slice(), first, OLDER_ROWS, Ok(FRESH)),
        (b"\x02", &second, OLDER_ROWS, Ok(FRESH)),
        (b"\x03\x01", &second, OTHER_ROWS, Ok(FRESH)),
        (
            b"\x03\x02",
            &second,
            OTHER_ROWS,
            Err(StoreError::Bad(BadStore::Row(fault))),
        ),
        (b"\x03\x02", &second, TWO_ROWS, Ok(FRESH)),
        (b"\x01", &second, OLDER_ROWS, no_image()),
        (b"\x02", first, OLDER_ROWS, no_image()),
        (b"\x02", &second, TWO_ROWS, no_image()),
        (b"\x03\x02", &second, OLDER_ROWS, no_image()),
        (b"\x03\0", &second, TWO_ROWS, no_image()),
        (b"\x03\x03", &second, TWO_ROWS, no_image()),
        (b"\x04", &second, OLDER_ROWS, no_image()),
    ];
    for (format, keys, rows, told) in cases {
        let side = side_of(alloc, format, keys, rows)?;
        let opens = told.is_ok();
        assert_eq!(rt; opening(&rt, alloc, &side, b"")?, told);
        if opens {
            // The same state, with its own rows.
            let mut site = over(alloc, &side, b"")?;
            compacted_place(&rt, alloc, &mut site)?;
            let (_, one) = site.crash(Pick::Nothing)?;
            assert!(rt; front(&one, 24 + 222).ends_with(TWO_ROWS));
        }
    }
    Ok(())
}
