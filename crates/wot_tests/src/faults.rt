//! After a call of the outside that failed a run makes no other.

ghost use Rattle.std.specs.Prelude.{◌≡◌};

use std::alloc::Global;
use std::process::Abort;
use std::test::Fail;
use std::thread::Threads;
use wot_session::{Status, run};
use wot_site::{CallKind, Failed, MemorySite, Pick, Side, Site};
use wot_workers::NoGate;

/// A base with one entry, and a record behind it.
const FIRST: &[u8] =
    b"trust 00000000000000000000000000000000000000AA u\ncompact\ntrust 00000000000000000000000000000000000000BB f\n";

/// An edit, a listing and a compaction.
const INPUT: &[u8] = b"trust 00000000000000000000000000000000000000CC f\nlist\ncompact\n";

/// A site in memory, with how many calls came after the first that failed.
#[derive(Drop)]
struct Watched {
    site: MemorySite,
    has_failed: bool,
    later: u64,
}

impl Watched {
    fn new(site: MemorySite) -> Watched {
        Watched {
            site,
            has_failed: false,
            later: 0,
        }
    }

    // Counts a call that is about to be made.
    fn count(&mut self)
        ensures { self.new.site ≡ self.old.site }
    {
        if self.has_failed {
            self.later = self.later.saturating_add(1);
        }
    }

    // Keeps whether it failed.
    fn keep(&mut self, failed: bool)
        ensures { self.new.site ≡ self.old.site }
    {
        self.has_failed = self.has_failed || failed;
    }
}

impl Site for Watched {
    ghost use Rattle.std.specs.Prelude.{Some};
    ghost use Rattle.wot_site.specs.MemorySite.{faults_of, seen_of};

    ghost seen = { λ watched. Some (seen_of watched.site) };

    ghost faults = { λ watched. faults_of watched.site };

    fn take(&mut self, buf: &mut [u8]) -> Result<usize, Failed> {
        self.count();
        let answer = self.site.take(buf);
        self.keep(answer.is_err());
        answer
    }

    fn tell(&mut self, bytes: &[u8]) -> Result<usize, Failed> {
        self.count();
        let answer = self.site.tell(bytes);
        self.keep(answer.is_err());
        answer
    }

    fn size(&mut self, side: Side) -> Result<u64, Failed> {
        self.count();
        let answer = self.site.size(side);
        self.keep(answer.is_err());
        answer
    }

    fn read(&mut self, side: Side, at: u64, buf: &mut [u8]) -> Result<usize, Failed> {
        self.count();
        let answer = self.site.read(side, at, buf);
        self.keep(answer.is_err());
        answer
    }

    fn write(&mut self, side: Side, at: u64, bytes: &[u8]) -> Result<(), Failed> {
        self.count();
        let answer = self.site.write(side, at, bytes);
        self.keep(answer.is_err());
        answer
    }

    fn sync(&mut self, side: Side) -> Result<(), Failed> {
        self.count();
        let answer = self.site.sync(side);
        self.keep(answer.is_err());
        answer
    }
}

// How a session over the site ends, and how many calls it makes after the first that failed.
fn session_over<R: Threads + Sync>(rt: &R, alloc: Global, site: MemorySite) -> (Status, u64) {
    let words: Vec<String> = Vec::new(alloc);
    let mut site = Watched::new(site);
    let status = run(rt, alloc, &words, &mut site, &NoGate);
    (status, site.later)
}

// A site over these sides, where that call fails.
fn failing(
    alloc: Global,
    sides: &(Vec<u8>, Vec<u8>),
    call: (CallKind, u32),
) -> Result<MemorySite, Fail> {
    let input = Vec::from_slice(alloc, INPUT)?;
    let zero = Vec::from_slice(alloc, &sides.0)?;
    let one = Vec::from_slice(alloc, &sides.1)?;
    let site = MemorySite::new(alloc, input, zero, one)?;
    Ok(site.with_failures(vec![in alloc; call]?))
}

// Lets each call of a kind fail, one in a run, until a run has none of that number, and answers in how many runs one did.
fn failed_runs<R: Threads + Sync + Abort>(
    rt: &R,
    alloc: Global,
    sides: &(Vec<u8>, Vec<u8>),
    kind: CallKind,
    fault: &Status,
) -> Result<u32, Fail> {
    for number in 1u32..1000 {
        let site = failing(alloc, sides, (kind, number))?;
        let (status, later) = session_over(rt, alloc, site);
        if status == Status::Done {
            return Ok(number - 1);
        }
        assert!(rt;
            status == *fault && later == 0,
            "{kind:?} {number}: {status:?}, {later} calls after it"
        );
    }
    Err(Fail::new("no run ended well"))
}

// The sides after a first session.
fn first_sides<R: Threads + Sync>(rt: &R, alloc: Global) -> Result<(Vec<u8>, Vec<u8>), Fail> {
    let input = Vec::from_slice(alloc, FIRST)?;
    let mut site = MemorySite::new(alloc, input, Vec::new(alloc), Vec::new(alloc))?;
    let words: Vec<String> = Vec::new(alloc);
    match run(rt, alloc, &words, &mut site, &NoGate) {
        Status::Done => Ok(site.crash(Pick::All)?),
        status => Err(Fail::new(format_args!("the first session ended with {status:?}"))),
    }
}

#[test]
fn no_call_follows_one_that_failed(rt: HostRuntime) -> Result<(), Fail> {
    let alloc = rt.alloc();
    let blank = (Vec::new(alloc), Vec::new(alloc));
    let stored = first_sides(&rt, alloc)?;
    // With how many calls of that kind there are over blank sides and over a store, at least: opening makes two of the sizes and two syncs, to
    // which blank sides add five writes and three syncs; an edit makes two of both, and a compaction five and three.
    let kinds = [
        (CallKind::Take, Status::ReadFault, 2, 2),
        (CallKind::Tell, Status::TellFault, 3, 3),
        (CallKind::Size, Status::DiskFault, 2, 2),
        (CallKind::Read, Status::DiskFault, 0, 5),
        (CallKind::Write, Status::DiskFault, 12, 7),
        (CallKind::Sync, Status::DiskFault, 10, 7),
    ];
    for (kind, fault, over_blank, over_stored) in kinds {
        let failed = failed_runs(&rt, alloc, &blank, kind, &fault)?;
        assert!(rt; over_blank <= failed, "{kind:?} failed in {failed} runs");
        let failed = failed_runs(&rt, alloc, &stored, kind, &fault)?;
        assert!(rt; over_stored <= failed, "{kind:?} failed in {failed} runs");
    }
    Ok(())
}
