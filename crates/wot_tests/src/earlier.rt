//! Queries of the states between the edits of a session.

use crate::listing::LISTED;
use crate::runs::{IMPORT, over, session};
use std::test::Fail;
use wot_session::Status;

// What is asked, and what is told then.
#[derive(Clone, Copy)]
struct Exchange {
    asked: &'static [u8],
    told: &'static [u8],
}

// B, whose ownertrust is marginal from here on, certifies C.
const MORE: &[u8] = b"trust 00000000000000000000000000000000000000BB m
import
pub:-:255:22:00000000000000CC:1000:::-:::scSC:
fpr:::::::::00000000000000000000000000000000000000CC:
uid:-::::1000::::C <c@example.org>:
sig:!:::00000000000000BB:2000:::::13x:
.
";

// The keyring after all four edits.
const LAST: &[u8] = b"tru::1:0:0:3:1:5
pub:u:255:22:00000000000000AA:1000:::u:::scSC:
fpr:::::::::00000000000000000000000000000000000000AA:
uid:u::::1000::::A <a@example.org>:
pub:f:255:22:00000000000000BB:1000:::m:::scSC:
fpr:::::::::00000000000000000000000000000000000000BB:
uid:f::::1000::::B <b@example.org>:
pub:m:255:22:00000000000000CC:1000:::-:::scSC:
fpr:::::::::00000000000000000000000000000000000000CC:
uid:m::::1000::::C <c@example.org>:
ok
";

const EXCHANGES: [Exchange; 12] = [
    Exchange {
        asked: IMPORT,
        told: b"ok\nok keys 2 kept 1 passed 0\n",
    },
    Exchange {
        asked: b"list\n",
        told: LISTED,
    },
    Exchange {
        asked: MORE,
        told: b"ok\nok keys 1 kept 1 passed 0\n",
    },
    Exchange {
        asked: b"at 2 list\n",
        told: LISTED,
    },
    Exchange {
        asked: b"at 5 list\n",
        told: b"err no-such-time 4\n",
    },
    Exchange {
        asked: b"at 1 why 00000000000000000000000000000000000000BB 1\n",
        told: b"err no-such-key\n",
    },
    Exchange {
        asked: b"at 0 list\n",
        told: b"tru::1:0:0:3:1:5\nok\n",
    },
    Exchange {
        asked: b"at 2 sigs\n",
        told: b"err bad-argument 2\n",
    },
    Exchange {
        asked: b"compact\n",
        told: b"ok\n",
    },
    Exchange {
        asked: b"list\n",
        told: LAST,
    },
    Exchange {
        asked: b"at 0 list\n",
        told: LAST,
    },
    Exchange {
        asked: b"at 1 list\n",
        told: b"err no-such-time 0\n",
    },
];

/// Each query is answered from the state that it asks of, and after the store was compacted only the last state is left.
#[test]
fn earlier_states_are_told(rt: HostRuntime) -> Result<(), Fail> {
    let alloc = rt.alloc();
    let mut asked = Vec::new(alloc);
    let mut told = Vec::new(alloc);
    for exchange in EXCHANGES {
        asked.extend_from_slice(exchange.asked)?;
        told.extend_from_slice(exchange.told)?;
    }
    let mut site = over(alloc, &asked)?;
    let status = session(&rt, alloc, &mut site);
    assert!(rt; status == Status::Refused && site.told() == told.as_slice());
    Ok(())
}
