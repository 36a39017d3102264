//! The whole keyring as a text in memory, beside the one that the program tells while it is printed.

use crate::runs::{IMPORT, Question, asked_after_session, over};
use std::alloc::Global;
use std::test::Fail;
use std::thread::Threads;
use wot_print::list;
use wot_store::open_store;
use wot_workers::{NoGate, Workers};

/// The keyring without certifications.
pub const LISTED: &[u8] = b"tru::1:0:0:3:1:5
pub:u:255:22:00000000000000AA:1000:::u:::scSC:
fpr:::::::::00000000000000000000000000000000000000AA:
uid:u::::1000::::A <a@example.org>:
pub:f:255:22:00000000000000BB:1000:::-:::scSC:
fpr:::::::::00000000000000000000000000000000000000BB:
uid:f::::1000::::B <b@example.org>:
ok
";

/// The same with certifications.
const SIGNED: &[u8] = b"tru::1:0:0:3:1:5
pub:u:255:22:00000000000000AA:1000:::u:::scSC:
fpr:::::::::00000000000000000000000000000000000000AA:
uid:u::::1000::::A <a@example.org>:
pub:f:255:22:00000000000000BB:1000:::-:::scSC:
fpr:::::::::00000000000000000000000000000000000000BB:
uid:f::::1000::::B <b@example.org>:
sig:!:::00000000000000AA:2000:::::13x:
ok
";

// Whether this command tells this reply, and the store's keyring is listed in memory as its lines before the last.
fn is_listed<R: Threads + Sync>(
    rt: &R,
    alloc: Global,
    command: &'static str,
    sigs: bool,
    reply: &[u8],
) -> Result<bool, Fail> {
    let site = over(alloc, IMPORT)?;
    let mut site = asked_after_session(rt, alloc, site, Question::Word(command))?;
    let workers = Workers {
        rt,
        count: 1,
        gate: &NoGate,
    };
    let opened = open_store(&workers, alloc, &mut site)?;
    let mut listed = list(alloc, &opened.engine, None, sigs)?;
    listed.extend_from_slice(b"ok\n")?;
    Ok(site.told() == reply && listed.as_slice() == reply)
}

#[test]
fn all_keys_are_listed_in_memory_as_they_are_told(rt: HostRuntime) -> Result<(), Fail> {
    let alloc = rt.alloc();
    assert!(rt; is_listed(&rt, alloc, "list", false, LISTED)?);
    assert!(rt; is_listed(&rt, alloc, "sigs", true, SIGNED)?);
    Ok(())
}
