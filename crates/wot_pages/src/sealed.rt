//! Pages as they are read: their contents, and the seals that stand in them.

ghost use Rattle.std.specs.Prelude.{◌≡◌, ◌+◌, ◌*◌, ◌<◌, ◌≤◌, [], ◌∷◌, ◌++◌, length, take, drop, IfOk, OnOk, OnErr, IsErrOf};
ghost use Rattle.wot_site.specs.Reading.{IsRange, IsShort};
ghost use Rattle.wot_site.specs.Seen.{Honestly};
ghost use Rattle.wot_site.specs.Site.{FailsOnlyBy, Stays};
ghost use Rattle.wot_types.specs.PagePlaces.{content_size, most_side, page_place, page_size};
ghost use Rattle.wot_pages.specs.Reading.{ReadsSealed};

use crate::page::{CONTENT, FIRST, PAGE};
use crate::reading::PagesError;
use std::alloc::{AllocError, Global};
use wot_site::{Failed, Side, Site};

/// The contents of pages in order, and their seals.
#[derive(Drop)]
pub struct Sealed {
    pub contents: Vec<u8>,
    pub seals: Vec<[u8; 32]>,
}

impl Sealed {
    // None, with room for so many.
    fn with_room(alloc: Global, pages: usize) -> Result<Sealed, AllocError>
        requires { content_size * pages ≤ most_side }
        ensures contents { IfOk result (λ sealed. sealed.contents.items ≡ []) }
        ensures seals { IfOk result (λ sealed. sealed.seals.items ≡ []) }
    {
        let mut contents = Vec::new(alloc);
        contents.reserve_exact(pages * CONTENT)?;
        let mut seals = Vec::new(alloc);
        seals.reserve_exact(pages)?;
        Ok(Sealed { contents, seals })
    }

    // A page goes behind the others.
    fn push(&mut self, page: &[u8]) -> Result<(), AllocError>
        requires { length page.now ≡ page_size }
        ensures contents { IfOk result (λ done. self.new.contents.items ≡ self.old.contents.items ++ take content_size page.now) }
        ensures seals { IfOk result (λ done. self.new.seals.items ≡ self.old.seals.items ++ drop content_size page.now ∷ []) }
    {
        let (content, back) = page.split_at(CONTENT);
        let mut seal = [0; 32];
        seal.copy_from_slice(back);
        self.contents.extend_from_slice(content)?;
        self.seals.push(seal)?;
        Ok(())
    }
}

/// Reads so many pages of a side, or those in front of the first that passes its end.
pub fn read_sealed<S: Site>(
    alloc: Global,
    site: &mut S,
    side: Side,
    pages: u64,
) -> Result<Sealed, PagesError>
    requires fits { page_place pages ≤ most_side }
    ensures long { IfOk result (λ sealed. length sealed.contents.items ≡ content_size * length sealed.seals.items) }
    ensures few { IfOk result (λ sealed. length sealed.seals.items ≤ pages) }
    ensures read { IfOk result (λ sealed. Honestly (S.seen site.old) (S.seen site.new) (ReadsSealed side pages sealed.contents.items sealed.seals.items)) }
    ensures stays { OnErr result (Honestly (S.seen site.old) (S.seen site.new) Stays) }
    ensures no_seal { (k : _) → IsErrOf result (PagesError.Seal k) → ⊥ }
    ensures cause { FailsOnlyBy PagesError.DiskFault (S.faults site.old) (S.faults site.new) result }
{
    let mut sealed = match Sealed::with_room(alloc, pages as usize) {
        Ok(sealed) => sealed,
        Err(AllocError) => return Err(PagesError::Memory),
    };
    let mut page = [0u8; PAGE];
    for k in 0..pages {
        match read_page(site, side, FIRST + PAGE as u64 * k, &mut page) {
            Ok(()) => {}
            Err(PageError::DiskFault) => return Err(PagesError::DiskFault),
            Err(PageError::Short) => return Ok(sealed),
        }
        if sealed.push(&page).is_err() {
            return Err(PagesError::Memory);
        }
    }
    Ok(sealed)
}

/// Why a page could not be read.
#[derive(Clone, Copy, Debug)]
enum PageError {
    DiskFault,
    /// The side ends before its last byte.
    Short,
}

/// Reads the bytes of a page from a place of the side on.
fn read_page<S: Site>(
    site: &mut S,
    side: Side,
    at: u64,
    page: &mut [u8; 4096],
) -> Result<(), PageError>
    requires { at + page_size ≤ most_side }
    ensures range { OnOk result (Honestly (S.seen site.old) (S.seen site.new) (IsRange side at page_size page.new)) }
    ensures long { length page.new ≡ page_size }
    ensures stays { OnErr result (Honestly (S.seen site.old) (S.seen site.new) Stays) }
    ensures short { IsErrOf result PageError.Short → Honestly (S.seen site.old) (S.seen site.new) (IsShort side at page_size) }
    ensures cause { FailsOnlyBy PageError.DiskFault (S.faults site.old) (S.faults site.new) result }
{
    let mut filled = 0;
    while filled < PAGE {
        match site.read(side, at + filled as u64, &mut page[filled..]) {
            Ok(0) => return Err(PageError::Short),
            Ok(n) => filled += n,
            Err(Failed) => return Err(PageError::DiskFault),
        }
    }
    Ok(())
}
