//! Telling a whole text.

ghost use Rattle.std.specs.Prelude.{OnOk, OnErr};
ghost use Rattle.wot_site.specs.Seen.{Honestly};
ghost use Rattle.wot_site.specs.Site.{HasCause, TellRose};
ghost use Rattle.wot_tell.specs.Telling.{Telling, TellingPrefix};

use wot_site::{Failed, Site};

/// Tells all of the bytes, a part of them at a time. Nothing is called for no bytes.
pub fn tell_all<S: Site>(site: &mut S, bytes: &[u8]) -> Result<(), Failed>
    ensures told { OnOk result (Honestly (S.seen site.old) (S.seen site.new) (Telling bytes.now)) }
    ensures prefix { OnErr result (Honestly (S.seen site.old) (S.seen site.new) (TellingPrefix bytes.now)) }
    ensures cause { HasCause TellRose (S.faults site.old) (S.faults site.new) result }
{
    let mut done = 0;
    while done < bytes.len() {
        match site.tell(&bytes[done..]) {
            Ok(n) => done += n,
            Err(failed) => return Err(failed),
        }
    }
    Ok(())
}
