//! The ownertrust of fingerprints whose key IDs rise.

ghost use Rattle.std.specs.Prelude.{◌≡◌, ◌<◌, ◌≤◌, IfOk, Some, map};
ghost use Rattle.std.specs.FinMap as finmap;
ghost use Rattle.std.specs.List.{AllWithin};
ghost use Rattle.std.specs.List.Sorted.{IsPartitionPoint, IsSortedByKey};
ghost use Rattle.std.specs.Ordering.{nat_cmp};
ghost use Rattle.wot_types.specs.Fingerprint.{key_id_of};
ghost use Rattle.wot_types.specs.Ownertrust.{ownertrust_of};
ghost use Rattle.wot_print.specs.OwnertrustWalk.{by_id, seen};

use std::alloc::Global;
use std::marker::Model;
use wot_types::{Fpr, Mem, Ownertrust, Trusts};

/// What is kept of a fingerprint, beside the 64 bits of its key ID.
#[derive(Drop)]
struct EntryById<'a> {
    id: u64,
    fpr: &'a Fpr,
    kept: Ownertrust,
}

/// What is kept of fingerprints that come in rising order of their key IDs: the ownertrust, sorted by key ID once, is walked beside them.
#[derive(Drop)]
pub struct OwnertrustWalk<'a> {
    trusts: &'a Trusts,
    entries: Vec<EntryById<'a>>,
    /// So many entries are of lower key IDs than `from`.
    passed: usize,
    /// The key ID that was asked for last.
    from: u64,
}

impl<'a> Model for OwnertrustWalk<'a> {
    ghost use Rattle.wot_print.specs.OwnertrustWalk.{AreWalked, TrustsFrom, trusts_code};

    ghost Value = { TrustsFrom };

    ghost coded = { trusts_code };

    ghost view = { λ w. record { trusts = w.trusts.now; from = w.from } };

    ghost invariant = { λ w. AreWalked w.trusts.now w.from w.entries.items w.passed };
}

impl<'a> OwnertrustWalk<'a> {
    /// All entries, sorted by their key IDs once, are still to come.
    pub fn of(alloc: Global, trusts: &'a Trusts) -> Result<OwnertrustWalk<'a>, Mem>
        ensures trusts { IfOk result (λ walk. walk.trusts ≡ trusts.now) }
        ensures from { IfOk result (λ walk. walk.from ≡ 0) }
    {
        let mut entries = with_ids(alloc, trusts)?;
        entries.sort_unstable_by_key(|entry| entry.id);
        Ok(OwnertrustWalk {
            trusts,
            entries,
            passed: 0,
            from: 0,
        })
    }

    /// What is kept of a fingerprint whose key ID is not below one that was asked for before; without an entry its trust is unknown and it isn't disabled.
    pub fn ownertrust_of(&mut self, fpr: &Fpr) -> Ownertrust
        requires rising { self.old.from ≤ key_id_of fpr.now }
        ensures kept { result ≡ ownertrust_of self.old.trusts fpr.now }
        ensures from { self.new.from ≡ key_id_of fpr.now }
        ensures trusts { self.new.trusts ≡ self.old.trusts }
    {
        let id = fpr.key_id().0;
        self.passed = passed_below(&self.entries, self.passed, id);
        self.from = id;
        self.kept_at_hand(fpr)
    }

    /// What is kept of a fingerprint whose key ID was asked for last.
    fn kept_at_hand(&self, fpr: &Fpr) -> Ownertrust
        requires at_hand { self.now.from ≡ key_id_of fpr.now }
        ensures { result ≡ ownertrust_of self.now.trusts fpr.now }
    {
        match self.entries.get(self.passed) {
            Some(entry) if entry.id == self.from => kept_or_found(self.trusts, entry, fpr),
            _ => Ownertrust::unset(),
        }
    }
}

/// Each entry with its key ID, in the order of the fingerprints.
fn with_ids<'a>(alloc: Global, trusts: &'a Trusts) -> Result<Vec<EntryById<'a>>, Mem>
    ensures { IfOk result (λ entries. map seen entries.items ≡ map by_id (finmap.entries trusts.now)) }
{
    let mut entries = Vec::with_capacity(alloc, trusts.len() as usize)?;
    for (fpr, kept) in trusts.iter() {
        entries.push(EntryById {
            id: fpr.key_id().0,
            fpr,
            kept: *kept,
        })?;
    }
    Ok(entries)
}

/// How many of the sorted entries are of lower key IDs: those that are known to be, and more behind them.
fn passed_below(entries: &[EntryById<'_>], known: usize, id: u64) -> usize
    requires rising { IsSortedByKey (λ entry. entry.id) nat_cmp entries.now }
    requires lower { AllWithin (λ entry. entry.id < id) entries.now 0 known }
    ensures { IsPartitionPoint (λ entry. entry.id < id) (λ entry. id ≤ entry.id) entries.now result }
{
    let mut passed = known;
    while passed < entries.len() && entries[passed].id < id {
        passed += 1;
    }
    passed
}

/// What is kept of a fingerprint, where this entry has its key ID. It is mostly its own: few fingerprints share a key ID.
fn kept_or_found(trusts: &Trusts, entry: &EntryById<'_>, fpr: &Fpr) -> Ownertrust
    requires there { finmap.get trusts.now entry.now.fpr.now ≡ Some entry.now.kept }
    ensures { result ≡ ownertrust_of trusts.now fpr.now }
{
    if *entry.fpr == *fpr {
        entry.kept
    } else {
        trusts.ownertrust_of(fpr)
    }
}
