//! Sessions that may be short of memory. `tests/memory.py` lets each allocation fail in turn; here none does.

use crate::runs::{Question, asked_after_session, keeps_edits, lines, over, session};
use std::alloc::Global;
use std::test::Fail;
use std::thread::Threads;
use wot_session::Status;
use wot_site::MemorySite;

const QUESTION: Question = Question::Input(b"export\nsigs\n");

// Edits that are answered by a line each, the command after them, and all that is told.
#[derive(Clone, Copy)]
struct Session {
    edits: &'static [&'static [u8]],
    last: &'static [u8],
    told: &'static [u8],
}

// A certifies B, and B, whose ownertrust is marginal, certifies C.
const CHAIN: &[&[u8]] = &[
    b"trust 00000000000000000000000000000000000000AA u\n",
    b"trust 00000000000000000000000000000000000000BB m\n",
    b"import
pub:-:255:22:00000000000000AA:1000:::-:::scSC:
fpr:::::::::00000000000000000000000000000000000000AA:
uid:-::::1000::::A <a@example.org>:
pub:-:255:22:00000000000000BB:1000:::-:::scSC:
fpr:::::::::00000000000000000000000000000000000000BB:
uid:-::::1000::::B <b@example.org>:
sig:!:::00000000000000AA:2000:::::13x:
pub:-:255:22:00000000000000CC:1000:::-:::scSC:
fpr:::::::::00000000000000000000000000000000000000CC:
uid:-::::1000::::C <c@example.org>:
sig:!:::00000000000000BB:2000:::::13x:
.
",
];

const SESSIONS: [Session; 5] = [
    Session {
        edits: &[
            b"trust 00000000000000000000000000000000000000AA u\n",
            b"import
pub:-:255:22:00000000000000AA:1000:::-:::scSC:
fpr:::::::::00000000000000000000000000000000000000AA:
uid:-::::1000::::A <a@example.org>:
pub:-:255:22:00000000000000BB:1000:::-:::scSC:
fpr:::::::::00000000000000000000000000000000000000BB:
uid:-::::1000::::B <b@example.org>:
sig:!:::00000000000000AA:2000:::::13x:
.
",
        ],
        last: b"list\n",
        told: b"ok
ok keys 2 kept 1 passed 0
tru::1:0:0:3:1:5
pub:u:255:22:00000000000000AA:1000:::u:::scSC:
fpr:::::::::00000000000000000000000000000000000000AA:
uid:u::::1000::::A <a@example.org>:
pub:f:255:22:00000000000000BB:1000:::-:::scSC:
fpr:::::::::00000000000000000000000000000000000000BB:
uid:f::::1000::::B <b@example.org>:
ok
",
    },
    Session {
        edits: &[
            b"trust 00000000000000000000000000000000000000AA u\n",
            b"trust 00000000000000000000000000000000000000FF u\n",
            b"import
pub:-:255:22:00000000000000AA:1000:::-:::scSC:
fpr:::::::::00000000000000000000000000000000000000AA:
uid:-::::1000::::A <a@example.org>:
pub:-:255:22:00000000000000BB:1000:::-:::scSC:
fpr:::::::::00000000000000000000000000000000000000BB:
uid:-::::1000::::B <b@example.org>:
sig:!:::00000000000000AA:2000::1 120:::13x:
uid:-::::1000::::B2 <b2@example.org>:
sig:!:::00000000000000FF:3000::1 60:::13x:
pub:-:255:22:00000000000000CC:1000:::-:::scSC:
fpr:::::::::00000000000000000000000000000000000000CC:
uid:-::::1000::::C <c@example.org>:
sig:!:::00000000000000BB:4000:::::13x:
pub:-:255:22:00000000000000FF:1000:::-:::scSC:
fpr:::::::::00000000000000000000000000000000000000FF:
uid:-::::1000::::F <f@example.org>:
.
",
        ],
        last: b"why 00000000000000000000000000000000000000CC 1\n",
        told: b"ok
ok
ok keys 4 kept 3 passed 0
why:m:00000000000000CC:1:0:0:1:0:
row:00000000000000AA:0:u:0:::
row:00000000000000BB:1:m:0::00000000000000FF:
row:00000000000000FF:0:u:0:::
by:00000000000000BB:m:
cut:m:
ok
",
    },
    Session {
        edits: &[
            b"trust 00000000000000000000000000000000000000AA u\n",
            b"trust 00000000000000000000000000000000000000BB f\n",
        ],
        last: b"compact\n",
        told: b"ok\nok\nok\n",
    },
    Session {
        edits: CHAIN,
        last: b"suppose trust 00000000000000000000000000000000000000BB f\n",
        told: b"ok
ok
ok keys 3 kept 2 passed 0
change:00000000000000CC:1:m:f:
ok changes 1
",
    },
    Session {
        edits: CHAIN,
        last: b"critical 00000000000000000000000000000000000000CC 1\n",
        told: b"ok
ok
ok keys 3 kept 2 passed 0
critical:00000000000000000000000000000000000000AA:-:
critical:00000000000000000000000000000000000000BB:q:
ok critical 2
",
    },
];

// A session of the first edits, and then this one command more.
fn site_of(alloc: Global, edits: &[&[u8]], last: &[u8]) -> Result<MemorySite, Fail> {
    let mut input = Vec::new(alloc);
    for edit in edits {
        input.extend_from_slice(edit)?;
    }
    input.extend_from_slice(last)?;
    over(alloc, &input)
}

// What the question is answered with after these edits.
fn answer_after<R: Threads + Sync>(
    rt: &R,
    alloc: Global,
    edits: &[&[u8]],
) -> Result<Vec<u8>, Fail> {
    let site = site_of(alloc, edits, b"")?;
    let site = asked_after_session(rt, alloc, site, QUESTION)?;
    Ok(Vec::from_slice(alloc, site.told())?)
}

// Whether all that was acknowledged is kept, and no edit is shown in part.
fn keeps_acknowledged<R: Threads + Sync>(
    rt: &R,
    alloc: Global,
    site: MemorySite,
    edits: &[&[u8]],
) -> Result<bool, Fail> {
    let mut answers: Vec<Vec<u8>> = Vec::new(alloc);
    for n in 0..edits.len() + 1 {
        answers.push(answer_after(rt, alloc, &edits[..n])?)?;
    }
    let mut shown: Vec<&[u8]> = Vec::new(alloc);
    for answer in answers.iter() {
        shown.push(answer)?;
    }
    let acknowledged = lines(&site).min(edits.len());
    keeps_edits(rt, alloc, site, QUESTION, &shown, acknowledged)
}

// Whether a session ended well or by want of memory, a prefix of what it had to tell being told.
fn ends_well(site: &MemorySite, status: &Status, told: &[u8]) -> bool {
    let ends_well = match status {
        Status::Done => site.told() == told,
        Status::Memory => true,
        // The site had no memory for its own note.
        Status::ReadFault | Status::TellFault | Status::DiskFault => 0 < site.starved(),
        _ => false,
    };
    ends_well && told.starts_with(site.told())
}

#[test]
fn want_of_memory_loses_no_edit(rt: HostRuntime) -> Result<(), Fail> {
    let alloc = rt.alloc();
    let mut was_short = false;
    for Session { edits, last, told } in SESSIONS {
        let mut site = site_of(alloc, edits, last)?;
        let status = session(&rt, alloc, &mut site);
        assert!(rt; ends_well(&site, &status, told), "{status:?}");
        was_short = was_short || status != Status::Done;
        match keeps_acknowledged(&rt, alloc, site, edits) {
            Ok(keeps) => assert!(rt; keeps, "{status:?}"),
            // Memory fails once: in the session, or here.
            Err(fail) if !was_short => return Err(fail),
            Err(_) => panic!(rt; "{status:?}"),
        }
    }
    Ok(())
}
