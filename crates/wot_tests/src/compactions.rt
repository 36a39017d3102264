//! A sample that is compacted, edited and compacted again, stopped at each call of the disk.

use crate::runs::{Question, asked_after_session, keeps_edits, lines, over, session};
use std::test::Fail;
use wot_session::Status;

const INPUT: &[u8] = b"sample 7 50\ncompact\ndate 5\ncompact\n";

const QUESTION: Question = Question::Word("list");

#[test]
fn a_stop_at_any_call_keeps_what_was_acknowledged(rt: HostRuntime) -> Result<(), Fail> {
    let alloc = rt.alloc();
    let none = asked_after_session(&rt, alloc, over(alloc, b"")?, QUESTION)?;
    let first = over(alloc, b"sample 7 50\n")?;
    let first = asked_after_session(&rt, alloc, first, QUESTION)?;
    let both = over(alloc, b"sample 7 50\ndate 5\n")?;
    let both = asked_after_session(&rt, alloc, both, QUESTION)?;
    let shown = [none.told(), first.told(), both.told()];
    let mut stopped = 0u32;
    for n in 1u32..1000 {
        let mut site = over(alloc, INPUT)?.with_stop(n);
        let status = session(&rt, alloc, &mut site);
        if status == Status::Done {
            break;
        }
        stopped = n;
        // The sample is acknowledged by its second line, the date by the fourth.
        let acknowledged = lines(&site) / 2;
        let keeps = keeps_edits(&rt, alloc, site, QUESTION, &shown, acknowledged)?;
        assert!(rt; keeps && status == Status::DiskFault, "stopped at call {n}");
    }
    // Opening makes 12 calls, each edit four, and each compaction seven and one for each page.
    assert!(rt;
        12 + 4 + 8 + 4 + 8 <= stopped && stopped < 999,
        "{stopped} stops"
    );
    Ok(())
}
