//! Two edits and a compaction, where a call fails or the power does.

ghost use Rattle.std.specs.Prelude.{◌≤◌};

use crate::runs::{Question, asked_again, keeps_edits, lines, over, session, told_after_crash};
use std::alloc::Global;
use std::process::Abort;
use std::test::Fail;
use std::thread::Threads;
use wot_session::Status;
use wot_site::{CallKind, MemorySite, Pick};

const FIRST_EDIT: &[u8] = b"trust 00000000000000000000000000000000000000AA u\n";

const INPUT: &[u8] =
    b"trust 00000000000000000000000000000000000000AA u\ntrust 00000000000000000000000000000000000000BB f\ncompact\n";

const TOLD: &[u8] = b"ok\nok\nok\n";

const QUESTION: Question = Question::Word("export");

// What is exported after no edit, after the first and after both.
const NONE: &[u8] = b"ok\n";

const FIRST: &[u8] = b"00000000000000000000000000000000000000AA:6:\nok\n";

const BOTH: &[u8] =
    b"00000000000000000000000000000000000000AA:6:\n00000000000000000000000000000000000000BB:5:\nok\n";

// What is exported where a pending write was not made or did not open a gate, and where it did.
type Exports = (&'static [u8], &'static [u8]);

// After a stop at the n-th call of the disk: opening makes the first 12, the edits 13 to 16 and 17 to 20, the compaction 21 to 28.
fn after_stop(n: u32) -> Exports {
    match n {
        0..=14 => (NONE, NONE),
        15 | 16 => (NONE, FIRST),
        17 | 18 => (FIRST, FIRST),
        19 | 20 => (FIRST, BOTH),
        _ => (BOTH, BOTH),
    }
}

// After the k-th sync failed: opening makes five, each edit two and the compaction three. Before it how many lines are told.
fn after_sync(k: u32) -> (usize, Exports) {
    match k {
        0..=6 => (0, (NONE, NONE)),
        7 => (0, (NONE, FIRST)),
        8 => (1, (FIRST, FIRST)),
        9 => (1, (FIRST, BOTH)),
        _ => (2, (BOTH, BOTH)),
    }
}

// Whether the image of each pick is exported so.
fn is_exported_so<R: Threads + Sync>(
    rt: &R,
    alloc: Global,
    site: &MemorySite,
    exports: Exports,
) -> Result<bool, Fail> {
    let picks = [
        (Pick::Nothing, exports.0),
        (Pick::Fill(0), exports.0),
        (Pick::All, exports.1),
        (Pick::Fill(0xa5), exports.1),
    ];
    for (pick, export) in picks {
        let text = told_after_crash(rt, alloc, site, pick, QUESTION)?;
        if text.as_slice() != export {
            return Ok(false);
        }
    }
    Ok(true)
}

// Whether a session over the site ends so, and each image of it is exported so.
fn ends_so<R: Threads + Sync>(
    rt: &R,
    alloc: Global,
    mut site: MemorySite,
    status: Status,
    exports: Exports,
) -> Result<bool, Fail> {
    let ended = session(rt, alloc, &mut site);
    Ok(ended == status && is_exported_so(rt, alloc, &site, exports)?)
}

#[test]
fn an_image_shows_what_its_gates_say(rt: HostRuntime) -> Result<(), Fail> {
    let alloc = rt.alloc();
    for n in 1u32..29 {
        let site = over(alloc, INPUT)?.with_stop(n);
        assert!(rt;
            ends_so(&rt, alloc, site, Status::DiskFault, after_stop(n))?,
            "stopped at call {n}"
        );
    }
    let site = over(alloc, INPUT)?.with_stop(29);
    assert!(rt; ends_so(&rt, alloc, site, Status::Done, (BOTH, BOTH))?);
    Ok(())
}

// Whether a session of which this sync fails ends by a disk fault after so many lines, and each image of it is exported so.
fn fails_so<R: Threads + Sync>(
    rt: &R,
    alloc: Global,
    sync: u32,
    told: usize,
    exports: Exports,
) -> Result<bool, Fail> {
    let fails = vec![in alloc; (CallKind::Sync, sync)]?;
    let mut site = over(alloc, INPUT)?.with_failures(fails);
    let ended = session(rt, alloc, &mut site);
    let well = ended == Status::DiskFault && lines(&site) == told;
    Ok(well && is_exported_so(rt, alloc, &site, exports)?)
}

#[test]
fn an_image_shows_what_was_synced(rt: HostRuntime) -> Result<(), Fail> {
    let alloc = rt.alloc();
    for sync in 1u32..13 {
        let (told, exports) = after_sync(sync);
        assert!(rt;
            fails_so(&rt, alloc, sync, told, exports)?,
            "sync {sync} failed"
        );
    }
    Ok(())
}

// Whether a session in which a call failed ended so, and keeps what it acknowledged.
fn failed_so<R: Threads + Sync>(
    rt: &R,
    alloc: Global,
    site: MemorySite,
    status: &Status,
    fault: &Status,
) -> Result<bool, Fail> {
    let well = status == fault && TOLD.starts_with(site.told());
    let acknowledged = lines(&site).min(2);
    Ok(
        well && keeps_edits(
            rt,
            alloc,
            site,
            QUESTION,
            &[NONE, FIRST, BOTH],
            acknowledged,
        )?,
    )
}

// Lets each call of a kind fail, one in a run, until a run has none of that number, and answers in how many runs one did.
fn failed_runs<R: Threads + Sync + Abort>(
    rt: &R,
    alloc: Global,
    kind: CallKind,
    cut: u32,
    fault: &Status,
) -> Result<u32, Fail>
    requires { 1 ≤ cut }
{
    for number in 1u32..1000 {
        let fails = vec![in alloc; (kind, number)]?;
        let mut site = over(alloc, INPUT)?.with_failures(fails).with_cut(cut);
        let status = session(rt, alloc, &mut site);
        if status == Status::Done && site.told() == TOLD {
            return Ok(number - 1);
        }
        assert!(rt;
            failed_so(rt, alloc, site, &status, fault)?,
            "{kind:?} {number}: {status:?}"
        );
    }
    Err(Fail::new("no run ended well"))
}

#[test]
fn a_call_that_fails_ends_the_run(rt: HostRuntime) -> Result<(), Fail> {
    let alloc = rt.alloc();
    // With how many calls of that kind there are at least: opening blank sides makes two of the sizes, five writes and five syncs, each edit
    // two of both, and the compaction five and three.
    let kinds = [
        (CallKind::Take, Status::ReadFault, 2),
        (CallKind::Tell, Status::TellFault, 3),
        (CallKind::Size, Status::DiskFault, 2),
        (CallKind::Read, Status::DiskFault, 0),
        (CallKind::Write, Status::DiskFault, 14),
        (CallKind::Sync, Status::DiskFault, 12),
    ];
    for (kind, fault, least) in kinds {
        for cut in [2u32, 4096] {
            let failed = failed_runs(&rt, alloc, kind, cut, &fault)?;
            assert!(rt; least <= failed, "{kind:?} failed in {failed} runs");
        }
    }
    Ok(())
}

#[test]
fn an_edit_is_there_whose_answer_could_not_be_told(rt: HostRuntime) -> Result<(), Fail> {
    let alloc = rt.alloc();
    let fails = vec![in alloc; (CallKind::Tell, 1)]?;
    let mut site = over(alloc, FIRST_EDIT)?.with_failures(fails);
    let ended = session(&rt, alloc, &mut site);
    assert!(rt; ended == Status::TellFault && site.told().is_empty());
    let site = asked_again(&rt, alloc, site, QUESTION)?;
    assert_eq!(rt; site.told(), FIRST);
    Ok(())
}
