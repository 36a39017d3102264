//! States since the base that are read again.

use crate::stores::{TWO_KEYS, both_sides, over, with_journal};
use std::alloc::Global;
use std::test::Fail;
use std::thread::Threads;
use wot_history::{HistoryError, state_at};
use wot_live::Engine;
use wot_site::{MemorySite, Side};
use wot_types::{KeyId, Letter};
use wot_workers::{NoGate, Workers};

// The engine after so many edits since the base of side Zero, which has epoch 1 and one page.
fn engine_at<R: Threads + Sync>(
    rt: &R,
    alloc: Global,
    site: &mut MemorySite,
    count: u64,
) -> Result<Engine, HistoryError> {
    let workers = Workers {
        rt,
        count: 1,
        gate: &NoGate,
    };
    state_at(&workers, alloc, site, Side::Zero, 1, 1, count)
}

// The letter of B after so many edits.
fn letter_at<R: Threads + Sync>(
    rt: &R,
    alloc: Global,
    site: &mut MemorySite,
    count: u64,
) -> Result<Option<Letter>, HistoryError> {
    match engine_at(rt, alloc, site, count) {
        Ok(engine) => Ok(engine.key_letter(KeyId(0xbb))),
        Err(e) => Err(e),
    }
}

// Whether both have as many keys and entries, and the same date and options.
fn are_alike(one: &Engine, other: &Engine) -> bool {
    one.table().totals() == other.table().totals()
        && one.trusts().len() == other.trusts().len()
        && one.date() == other.date()
        && one.options() == other.options()
}

#[test]
fn a_new_store_has_no_state_but_the_opening_one(rt: HostRuntime) -> Result<(), Fail> {
    let alloc = rt.alloc();
    let (zero, _) = both_sides(&rt, alloc)?;
    let mut site = over(alloc, &zero, b"")?;
    let first = engine_at(&rt, alloc, &mut site, 0)?;
    assert!(rt; are_alike(&first, &Engine::new(alloc)?));
    assert_eq!(rt;
        letter_at(&rt, alloc, &mut site, 1),
        Err(HistoryError::Lost(1))
    );
    Ok(())
}

#[test]
fn each_state_of_a_journal_is_found_again(rt: HostRuntime) -> Result<(), Fail> {
    let alloc = rt.alloc();
    let zero = with_journal(alloc, &both_sides(&rt, alloc)?.0, TWO_KEYS)?;
    let mut site = over(alloc, &zero, b"")?;
    // After how many edits, and the letter of B: before it comes, with A's certification, and with A trusted.
    let cases = [
        (0, Ok(None)),
        (1, Ok(Some(Letter::Dash))),
        (2, Ok(Some(Letter::F))),
        (3, Err(HistoryError::Lost(3))),
    ];
    for (count, told) in cases {
        assert_eq!(rt;
            letter_at(&rt, alloc, &mut site, count),
            told,
            "after {count} edits"
        );
    }
    Ok(())
}
