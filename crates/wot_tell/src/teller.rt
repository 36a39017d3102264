//! A text that is told while it is printed.

ghost use Rattle.std.specs.Prelude.{◌≡◌, ◌≤◌, ◌++◌, ℕ, false, List, [], OnOk, OnErr, take};
ghost use Rattle.wot_site.specs.Seen.{Honestly};
ghost use Rattle.wot_site.specs.Site.{HasCause, TellRose};
ghost use Rattle.wot_tell.specs.Telling.{Telling, TellingPrefix};
ghost use Rattle.wot_tell.specs.Teller.{HasTaken, Reached, Takes, stand};
ghost use Rattle.std.proofs.Common.{append_assoc, append-nil, subst, sym};

use crate::buffer::Buffer;
use crate::tell::tell_all;
use std::convert::Infallible;
use wot_fields::Sink;
use wot_site::{Failed, Site};

/// What tells a text to a site while it is printed, 32,768 bytes at a time. It takes no memory. After a call that failed it takes the rest
/// and tells none of it, and `finish` says so.
pub struct Teller<'a, S: Site> {
    pub site: &'a mut S,
    pub held: Buffer,
    pub failed: bool,
}

impl<'a, S: Site> Sink for Teller<'a, S> {
    type Error = Infallible;

    ghost name = { λ teller. teller.site.ghost_name };

    ghost adds = { λ old bytes new. Takes
        (stand (S.seen old.site.now) (S.faults old.site.now) old.failed old.held)
        bytes
        (stand (S.seen new.site.now) (S.faults new.site.now) new.failed new.held) };

    #[inline(always)]
    fn push(&mut self, byte: u8) -> Result<(), Infallible> {
        if self.held.room() == 0 {
            self.flush();
        }
        self.held.push(byte);
        Ok(())
    }

    #[inline(always)]
    fn push_bytes(&mut self, bytes: &[u8]) -> Result<(), Infallible> {
        if self.held.room() < bytes.len() {
            self.push_past(bytes);
        } else {
            self.held.push_bytes(bytes);
        }
        Ok(())
    }

    ghost none = { λ text began so_far taken. subst (HasTaken began _) (sym (append-nil so_far)) taken };

    ghost both = { λ old now new a b first then began so_far taken. subst (HasTaken began _) (append_assoc so_far a b) (then began (so_far ++ a) (first began so_far taken)) };
}

impl<'a, S: Site> Teller<'a, S> {
    /// To this site, with nothing taken.
    pub fn new(site: &'a mut S) -> Teller<'a, S>
        ensures same_reference { result.site.ghost_name ≡ site.entry.ghost_name }
        ensures site { result.site.now ≡ site.old }
        ensures empty { result.held ≡ [] }
        ensures going { result.failed ≡ false }
    {
        Teller {
            site,
            held: Buffer::new(),
            failed: false,
        }
    }

    /// Takes more than there is room for: what is held is told first.
    #[cold]
    #[inline(never)]
    fn push_past(&mut self, bytes: &[u8])
        ensures same_reference { self.new.site.ghost_name ≡ self.old.site.ghost_name }
        ensures taken { Takes
            (stand (S.seen self.old.site.now) (S.faults self.old.site.now) self.old.failed self.old.held)
            bytes.now
            (stand (S.seen self.new.site.now) (S.faults self.new.site.now) self.new.failed self.new.held) }
    {
        self.flush();
        self.failed = tell_unless(self.failed, self.site, bytes);
    }

    /// Tells what is held.
    #[cold]
    #[inline(never)]
    fn flush(&mut self)
        ensures same_reference { self.new.site.ghost_name ≡ self.old.site.ghost_name }
        ensures taken { (began : Reached) (text : List ℕ)
            → HasTaken began (stand (S.seen self.old.site.now) (S.faults self.old.site.now) self.old.failed self.old.held) text
            → HasTaken began (stand (S.seen self.new.site.now) (S.faults self.new.site.now) self.new.failed []) text }
        ensures empty { self.new.held ≡ [] }
    {
        self.failed = tell_unless(self.failed, self.site, self.held.as_slice());
        self.held.clear();
    }

    /// Tells what is held; it fails where a call has failed since the beginning.
    pub fn finish(self) -> Result<(), Failed>
        ensures told { (began : Reached) (text : List ℕ)
            → HasTaken began (stand (S.seen self.entry.site.now) (S.faults self.entry.site.now) self.entry.failed self.entry.held) text
            → OnOk result (Honestly began.seen (S.seen self.exit.0.now) (Telling text)) }
        ensures prefix { (began : Reached) (text : List ℕ)
            → HasTaken began (stand (S.seen self.entry.site.now) (S.faults self.entry.site.now) self.entry.failed self.entry.held) text
            → OnErr result (Honestly began.seen (S.seen self.exit.0.now) (TellingPrefix text)) }
        ensures cause { (began : Reached) (text : List ℕ)
            → HasTaken began (stand (S.seen self.entry.site.now) (S.faults self.entry.site.now) self.entry.failed self.entry.held) text
            → HasCause TellRose began.faults (S.faults self.exit.0.now) result }
    {
        let Teller { site, held, failed } = self;
        if tell_unless(failed, site, held.as_slice()) {
            Err(Failed)
        } else {
            Ok(())
        }
    }
}

/// Tells these bytes unless a call has failed, and says whether one has.
fn tell_unless<S: Site>(failed: bool, site: &mut S, bytes: &[u8]) -> bool
    ensures { (began : Reached) (text : List ℕ)
        → HasTaken began (stand (S.seen site.old) (S.faults site.old) failed bytes.now) text
        → HasTaken began (stand (S.seen site.new) (S.faults site.new) result []) text }
{
    failed || tell_all(site, bytes).is_err()
}
