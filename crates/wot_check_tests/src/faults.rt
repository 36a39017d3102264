//! Rows of a sample, one of them changed.

ghost use Rattle.std.specs.Prelude.{◌≤◌};

use crate::samples::{NOW, Sample, filled_sample, options, sample_rows};
use std::alloc::Global;
use std::test::Fail;
use std::thread::Threads;
use wot_check::check_all;
use wot_gen::key_id;
use wot_table::LentState;
use wot_types::{KeyId, Mem, Row, Rows, Trust};
use wot_workers::{NoGate, Workers};

/// What the check says: the key, and the level and the trust number of the stored row and of the counted one.
type Said = Option<(KeyId, Option<(u8, u8)>, Option<(u8, u8)>)>;

fn said<R: Threads + Sync>(
    rt: &R,
    alloc: Global,
    of: &Sample,
    rows: &Rows,
    count: u32,
) -> Result<Said, Mem>
    requires { (1 ≤ count) × (count ≤ 64) }
{
    let options = options();
    let state = LentState::of(&of.table, &of.trusts, NOW, &options);
    let workers = Workers {
        rt,
        count,
        gate: &NoGate,
    };
    let fault = check_all(&workers, alloc, &state, rows)?;
    match fault {
        Some(fault) => Ok(Some((fault.key, told(&fault.stored), told(&fault.counted)))),
        None => Ok(None),
    }
}

fn told(row: &Option<Row>) -> Option<(u8, u8)> {
    match row {
        Some(row) => Some((row.level, row.trust.number())),
        None => None,
    }
}

fn row(id: KeyId, level: u8, trust: Trust) -> Row {
    Row {
        key: id,
        level,
        trust,
        left: 0,
        scope: None,
        via: None,
    }
}

/// The least key that has a row of this level, with what is told of its row.
fn of_level(rows: &Rows, level: u8) -> Option<(KeyId, (u8, u8))> {
    for (id, row) in rows.iter() {
        if row.level == level {
            return Some((*id, (row.level, row.trust.number())));
        }
    }
    None
}

/// What the check says, where it says it over 1, 3 and 64 workers.
fn said_by_all<R: Threads + Sync>(
    rt: &R,
    alloc: Global,
    of: &Sample,
    rows: &Rows,
) -> Result<Option<Said>, Mem> {
    let one = said(rt, alloc, of, rows, 1)?;
    let three = said(rt, alloc, of, rows, 3)?;
    let many = said(rt, alloc, of, rows, 64)?;
    if one == three && one == many {
        Ok(Some(one))
    } else {
        Ok(None)
    }
}

/// What the check says of a sample whose rows have this one among them.
fn said_with<R: Threads + Sync>(
    rt: &R,
    alloc: Global,
    of: &Sample,
    row: Row,
) -> Result<Option<Said>, Mem> {
    let rows = sample_rows(of)?.insert(row)?;
    said_by_all(rt, alloc, of, &rows)
}

#[test]
fn rows_that_do_not_stand_are_named(rt: HostRuntime) -> Result<(), Fail> {
    let alloc = rt.alloc();
    let of = filled_sample(alloc, 7, 500)?;
    let rows = sample_rows(&of)?;
    let (own, of_own) = of_level(&rows, 0).ok_or("a row of level 0")?;
    let (given, of_given) = of_level(&rows, 2).ok_or("a row of level 2")?;
    // Key 96 is revoked.
    let revoked = key_id(7, 96);
    // A row that is put among those of the sample, and the level and trust number of the one that is counted.
    let cases = [
        (own, 0, Trust::Full, Some(of_own)),
        (given, 3, Trust::Full, Some(of_given)),
        (revoked, 1, Trust::Full, None),
        (revoked, 5, Trust::Marginal, None),
        // Keys that aren't there, one before all others and one behind them.
        (KeyId(1), 4, Trust::Marginal, None),
        (KeyId(u64::MAX), 4, Trust::Marginal, None),
    ];
    for (id, level, trust, counted) in cases {
        let told = Some((id, Some((level, trust.number())), counted));
        let said = said_with(&rt, alloc, &of, row(id, level, trust))?;
        assert_eq!(rt; said, Some(told));
    }
    Ok(())
}

#[test]
fn a_row_that_is_missing_is_named(rt: HostRuntime) -> Result<(), Fail> {
    let alloc = rt.alloc();
    let of = filled_sample(alloc, 7, 500)?;
    let mut rows = sample_rows(&of)?;
    let (given, of_given) = of_level(&rows, 2).ok_or("a row of level 2")?;
    rows.remove(given);
    let told = Some((given, None, Some(of_given)));
    assert_eq!(rt; said_by_all(&rt, alloc, &of, &rows)?, Some(told));
    Ok(())
}
