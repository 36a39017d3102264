//! Telling what was made ready.

ghost use Rattle.std.specs.Prelude.{◌≡◌, ◌++◌, OnOk, OnErr, IsOk};
ghost use Rattle.wot_types.specs.Outcome.{ok_line};
ghost use Rattle.wot_site.specs.Seen.{Honestly};
ghost use Rattle.wot_site.specs.Site.{HasCause, TellRose};
ghost use Rattle.wot_tell.specs.Telling.{Telling, TellingPrefix};
ghost use Rattle.wot_session.specs.Ready.{text_of};

use crate::ready::Ready;
use std::convert::Infallible;
use wot_fields::Sink;
use wot_lines::OK_LINE;
use wot_print::Printout;
use wot_site::{Failed, Site};
use wot_tell::{Teller, tell_all};

/// Tells it. No memory is taken.
pub fn tell_ready<S: Site>(site: &mut S, ready: Ready<'_>) -> Result<(), Failed>
    ensures told { OnOk result (Honestly (S.seen site.old) (S.seen site.new) (Telling (text_of ready.entry))) }
    ensures prefix { OnErr result (Honestly (S.seen site.old) (S.seen site.new) (TellingPrefix (text_of ready.entry))) }
    ensures cause { HasCause TellRose (S.faults site.old) (S.faults site.new) result }
{
    match ready {
        Ready::Text(text) => tell_all(site, &text),
        Ready::Printout(printout) => tell_printout(site, printout),
    }
}

// Tells a listing while it is printed, and then the last line of a reply.
fn tell_printout<S: Site>(site: &mut S, printout: Printout<'_>) -> Result<(), Failed>
    ensures told { OnOk result (Honestly (S.seen site.old) (S.seen site.new) (Telling (printout.entry ++ ok_line))) }
    ensures prefix { OnErr result (Honestly (S.seen site.old) (S.seen site.new) (TellingPrefix (printout.entry ++ ok_line))) }
    ensures cause { HasCause TellRose (S.faults site.old) (S.faults site.new) result }
{
    let mut teller = Teller::new(site);
    taken(printout.print(&mut teller));
    taken(teller.push_bytes(OK_LINE));
    teller.finish()
}

// A teller takes whatever is printed.
fn taken(printed: Result<(), Infallible>)
    ensures { IsOk printed }
{
    match printed {
        Ok(()) => (),
        Err(never) => match never {},
    }
}
