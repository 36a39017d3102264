//! A site that tells nothing of itself.

ghost use Rattle.std.specs.Prelude.{None};

use crate::stores::{FRESH, both_sides, opened_place, over};
use std::test::Fail;
use wot_site::{Failed, MemorySite, Pick, Side, Site};
use wot_store::{BadStore, StoreError};

/// A site whose reads give nothing from a place on, though its sides go on there. It tells nothing of itself, so no clause says what it answers.
#[derive(Drop)]
struct Silent {
    site: MemorySite,
    end: u64,
}

impl Site for Silent {
    ghost use Rattle.wot_site.specs.MemorySite.{faults_of};

    ghost seen = { λ site. None };

    ghost faults = { λ silent. faults_of silent.site };

    fn take(&mut self, buf: &mut [u8]) -> Result<usize, Failed> {
        self.site.take(buf)
    }

    fn tell(&mut self, bytes: &[u8]) -> Result<usize, Failed> {
        self.site.tell(bytes)
    }

    fn size(&mut self, side: Side) -> Result<u64, Failed> {
        self.site.size(side)
    }

    fn read(&mut self, side: Side, at: u64, buf: &mut [u8]) -> Result<usize, Failed> {
        if self.end <= at {
            return Ok(0);
        }
        self.site.read(side, at, buf)
    }

    /// Nothing is written past the end.
    fn write(&mut self, side: Side, at: u64, bytes: &[u8]) -> Result<(), Failed> {
        match self.site.size(side) {
            Ok(size) if at <= size => self.site.write(side, at, bytes),
            Ok(_) => Ok(()),
            Err(Failed) => Err(Failed),
        }
    }

    fn sync(&mut self, side: Side) -> Result<(), Failed> {
        self.site.sync(side)
    }
}

#[test]
fn bytes_that_are_missing_are_told(rt: HostRuntime) -> Result<(), Fail> {
    let alloc = rt.alloc();
    let (zero, _) = both_sides(&rt, alloc)?;
    // From where on nothing is read, and what the store is then: without a header, a page, or a gate behind it.
    let cases = [
        (0, Err(StoreError::Bad(BadStore::Short(Side::Zero, 0)))),
        (24, Err(StoreError::Bad(BadStore::Seal(0)))),
        (
            4120,
            Err(StoreError::Bad(BadStore::Short(Side::Zero, 4120))),
        ),
        (4121, Ok(FRESH)),
    ];
    for (end, told) in cases {
        let mut site = Silent {
            site: over(alloc, &zero, b"")?,
            end,
        };
        assert_eq!(rt;
            opened_place(&rt, alloc, &mut site),
            told,
            "nothing from {end} on"
        );
        let (same, other) = site.site.crash(Pick::All)?;
        assert!(rt; same == zero && other.is_empty());
    }
    Ok(())
}
