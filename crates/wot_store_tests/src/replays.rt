//! Edits of a journal that are counted at once.

use crate::stores::{both_sides, compacted_place, over, with_journal};
use std::alloc::Global;
use std::test::Fail;
use std::thread::Threads;
use wot_check::check_all;
use wot_live::Engine;
use wot_site::Pick;
use wot_store::open_store;
use wot_types::{KeyId, Letter};
use wot_workers::{NoGate, Workers};

// Records: A, B with a certification by A, and C with one by B that names B's fingerprint; and that A is ultimately trusted, and B
// and another fingerprint with B's key ID fully.
const KEYS: &[u8] = b"\
\xa5\0\0\0\xfe\x09\0\0\0\x03\
\x14\0\0\0\0\0\0\0\0\0\0\0\0\0\0\0\0\0\0\0\xaa\0\0\0\xff\0\0\0\x16\0\0\x03\xe8\0\0\0\0\0\0\0\0\0\0\0\0\0\
\x14\0\0\0\0\0\0\0\0\0\0\0\0\0\0\0\0\0\0\0\xbb\0\0\0\xff\0\0\0\x16\0\0\x03\xe8\0\0\0\0\0\0\0\0\0\0\0\0\x01\
\0\0\0\0\x01B\0\0\0\0\0\0\x03\xe8\0\0\0\0\0\0\0\0\x01\
\0\0\0\0\0\0\0\xaa\x10\0\0\0\x07\xd0\0\0\0\0\0\0\0\0\
\x14\0\0\0\0\0\0\0\0\0\0\0\0\0\0\0\0\0\0\0\xcc\0\0\0\xff\0\0\0\x16\0\0\x03\xe8\0\0\0\0\0\0\0\0\0\0\0\0\x01\
\0\0\0\0\x01C\0\0\0\0\0\0\x03\xe8\0\0\0\0\0\0\0\0\x01\
\0\0\0\0\0\0\0\xbb\x10\0\0\0\x07\xd0\0\0\0\0\0\0\0\x01\x14\0\0\0\0\0\0\0\0\0\0\0\0\0\0\0\0\0\0\0\xbb\
\xa5\0\0\0\x17\x03\x14\0\0\0\0\0\0\0\0\0\0\0\0\0\0\0\0\0\0\0\xaa\x06\
\xa5\0\0\0\x17\x03\x14\0\0\0\0\0\0\0\0\0\0\0\0\0\0\0\0\0\0\0\xbb\x05\
\xa5\0\0\0\x17\x03\x14\x01\0\0\0\0\0\0\0\0\0\0\0\0\0\0\0\0\0\0\xbb\x05";

// Records: B is deleted, and a key with its key ID and the other fingerprint comes, which A certified too.
const AGAIN: &[u8] = b"\
\xa5\0\0\0\x09\x05\0\0\0\0\0\0\0\xbb\
\xa5\0\0\0\x60\x09\0\0\0\x01\
\x14\x01\0\0\0\0\0\0\0\0\0\0\0\0\0\0\0\0\0\0\xbb\0\0\0\xff\0\0\0\x16\0\0\x03\xe8\0\0\0\0\0\0\0\0\0\0\0\0\x01\
\0\0\0\0\x01B\0\0\0\0\0\0\x03\xe8\0\0\0\0\0\0\0\0\x01\
\0\0\0\0\0\0\0\xaa\x10\0\0\0\x07\xd0\0\0\0\0\0\0\0\0";

// A side whose journal has these records, and these behind them.
fn with_records(alloc: Global, side: &[u8], first: &[u8], then: &[u8]) -> Result<Vec<u8>, Fail> {
    let mut journal = Vec::from_slice(alloc, first)?;
    journal.extend_from_slice(then)?;
    journal.push(0)?;
    with_journal(alloc, side, &journal)
}

// A side whose base is what these records lead to.
fn base_of<R: Threads + Sync>(rt: &R, alloc: Global, records: &[u8]) -> Result<Vec<u8>, Fail> {
    let (zero, _) = both_sides(rt, alloc)?;
    let zero = with_records(alloc, &zero, records, b"")?;
    let mut site = over(alloc, &zero, b"")?;
    compacted_place(rt, alloc, &mut site)?;
    let (_, one) = site.crash(Pick::Nothing)?;
    Ok(one)
}

// The letters of B and of C.
fn letters_of(engine: &Engine) -> [Option<Letter>; 2] {
    [0xbb, 0xcc].map(|id| engine.key_letter(KeyId(id)))
}

// The letters of B and of C once a store is opened whose base has these records, and whose journal the others. Its rows are those of its state.
fn opened_letters<R: Threads + Sync>(
    rt: &R,
    alloc: Global,
    base: &[u8],
    first: &[u8],
    then: &[u8],
) -> Result<[Option<Letter>; 2], Fail> {
    let workers = Workers {
        rt,
        count: 1,
        gate: &NoGate,
    };
    let base = base_of(rt, alloc, base)?;
    let side = with_records(alloc, &base, first, then)?;
    let mut site = over(alloc, b"", &side)?;
    let opened = open_store(&workers, alloc, &mut site)?;
    let engine = &opened.engine;
    let fault = check_all(&workers, alloc, &engine.lent(), engine.rows())?;
    if fault.is_some() {
        return Err(Fail::new("a row is not the one that the others give"));
    }
    Ok(letters_of(engine))
}

#[test]
fn a_key_that_came_again_under_another_fingerprint_is_seen(rt: HostRuntime) -> Result<(), Fail> {
    let alloc = rt.alloc();
    let before = [Some(Letter::F), Some(Letter::F)];
    let after = [Some(Letter::F), Some(Letter::Dash)];
    assert_eq!(rt; opened_letters(&rt, alloc, b"", KEYS, b"")?, before);
    assert_eq!(rt; opened_letters(&rt, alloc, KEYS, b"", b"")?, before);
    assert_eq!(rt; opened_letters(&rt, alloc, b"", KEYS, AGAIN)?, after);
    assert_eq!(rt; opened_letters(&rt, alloc, KEYS, b"", AGAIN)?, after);
    Ok(())
}
