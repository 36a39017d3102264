//! Pairs of a number and a key, each once: which keys stand under a number.

ghost use Rattle.std.specs.Prelude.{◌≡◌, ℕ, ◌<◌, true, false, not, ◌&&◌, ◌||◌, IfOk, OnOk, Some, None, [], ◌+◌, ◌≤◌, length};
ghost use Rattle.std.specs.List.{Contains};
ghost use Rattle.std.specs.List.Sorted.{IsStrictlyIncreasing};
ghost use Rattle.wot_index.specs.Indexed.{IsSoonest, StandsBetween, every_other, has, has_pair};
ghost use Rattle.wot_types.specs.Next.{IsNext};

use crate::falling::Falling;
use std::alloc::Global;
use std::collections::BTreeSet;
use std::ops::Bound;
use wot_types::{KeyId, Mem};

/// So many pairs go into the tree at once.
const WINDOW: usize = 4096;

/// A set of pairs of a number and a key. A key may stand under many numbers, and many keys under one.
#[derive(Drop)]
pub struct Index {
    alloc: Global,
    pairs: BTreeSet<(u64, KeyId)>,
}

impl Index {
    /// No pairs.
    pub fn new(alloc: Global) -> Index
        ensures { (n id : ℕ) → has result n id ≡ false }
    {
        Index {
            alloc,
            pairs: BTreeSet::new(alloc),
        }
    }

    /// These pairs.
    pub fn of(alloc: Global, pairs: Vec<(u64, KeyId)>) -> Result<Index, Mem>
        ensures { IfOk result (λ index. (n id : ℕ) → has index n id ≡ has_pair n id pairs.items) }
    {
        let mut index = Index::new(alloc);
        index.add_all(pairs)?;
        Ok(index)
    }

    /// The pairs stand in it too, each of them once. They are sorted first: neighbours in the tree then come one after the other.
    pub fn add_all(&mut self, pairs: Vec<(u64, KeyId)>) -> Result<(), Mem>
        ensures { OnOk result ((n id : ℕ) → has self.new n id ≡ (has self.old n id || has_pair n id pairs.items)) }
    {
        let mut left = pairs;
        left.sort_unstable();
        if self.pairs.is_empty() {
            return self.build(left);
        }
        while !left.is_empty() {
            self.add_last(&mut left)?;
        }
        Ok(())
    }

    /// Where there are no pairs yet, the tree is made of these at once, so that its nodes are full.
    fn build(&mut self, sorted: Vec<(u64, KeyId)>) -> Result<(), Mem>
        ensures { OnOk result ((n id : ℕ) → has self.new n id ≡ has_pair n id sorted.items) }
    {
        let mut left = sorted;
        left.dedup();
        self.pairs = Falling { left }.collect(self.alloc)?;
        Ok(())
    }

    /// Takes some pairs off the end and adds them; every other one first, since a tree whose keys come in order alone leaves half its room empty.
    fn add_last(&mut self, left: &mut Vec<(u64, KeyId)>) -> Result<(), Mem>
        requires some { 0 < length left.old.items }
        ensures added { OnOk result ((n id : ℕ) → (has self.new n id || has_pair n id left.new.items) ≡ (has self.old n id || has_pair n id left.old.items)) }
        ensures fewer { OnOk result (length left.new.items < length left.old.items) }
    {
        let rest = left.len().saturating_sub(WINDOW);
        let (_, last) = left.as_slice().split_at(rest);
        self.add_every_other(last, true)?;
        self.add_every_other(last, false)?;
        left.truncate(rest);
        if rest < left.capacity() / 4 * 3 {
            left.shrink_to_fit();
        }
        Ok(())
    }

    fn add_every_other(&mut self, pairs: &[(u64, KeyId)], first: bool) -> Result<(), Mem>
        ensures { OnOk result ((n id : ℕ) → has self.new n id ≡ (has self.old n id || has_pair n id (every_other first pairs.now))) }
    {
        let mut taken = first;
        for pair in pairs {
            if taken {
                self.pairs.insert(*pair)?;
            }
            taken = !taken;
        }
        Ok(())
    }

    /// None of the pairs stands in it any more.
    pub fn remove_all(&mut self, pairs: &[(u64, KeyId)])
        ensures { (n id : ℕ) → has self.new n id ≡ (has self.old n id && not (has_pair n id pairs.now)) }
    {
        for pair in pairs {
            self.pairs.remove(pair);
        }
    }

    /// The least key after this one, or of all, that stands under the number.
    pub fn next(&self, number: u64, after: Option<KeyId>) -> Option<KeyId>
        ensures { IsNext (λ id. has self.now number id) after result }
    {
        match after {
            Some(id) => self.next_after(number, id),
            None => self.first(number),
        }
    }

    fn first(&self, number: u64) -> Option<KeyId>
        ensures { IsNext (λ id. has self.now number id) None result }
    {
        let mut pairs = self
            .pairs
            .range((Bound::Included((number, KeyId(0))), Bound::Unbounded));
        match pairs.next() {
            Some(pair) => { if pair.0 == number { Some(pair.1) } else { None } }
            None => None,
        }
    }

    fn next_after(&self, number: u64, id: KeyId) -> Option<KeyId>
        ensures { IsNext (λ k. has self.now number k) (Some id) result }
    {
        let mut pairs = self
            .pairs
            .range((Bound::Excluded((number, id)), Bound::Unbounded));
        match pairs.next() {
            Some(pair) => { if pair.0 == number { Some(pair.1) } else { None } }
            None => None,
        }
    }

    /// The least number above this one that a key stands under, if there is such a number.
    pub fn soonest_after(&self, number: u32) -> Option<u64>
        ensures { IsSoonest self.now number result }
    {
        let mut pairs = self
            .pairs
            .range((Bound::Included(from(number)), Bound::Unbounded));
        match pairs.next() {
            Some(pair) => Some(pair.0),
            None => None,
        }
    }

    /// The keys under the numbers above the first and not above the second, each once, in rising order.
    pub fn between(&self, alloc: Global, above: u32, upto: u32) -> Result<Vec<KeyId>, Mem>
        ensures rising { IfOk result (λ ids. IsStrictlyIncreasing ids.items) }
        ensures found { IfOk result (λ ids. (id : ℕ) → Contains ids.items id → StandsBetween self.now above upto id) }
        ensures all { IfOk result (λ ids. (n id : ℕ) → above < n → n ≤ upto → has self.now n id ≡ true → Contains ids.items id) }
    {
        let mut ids = self.each_between(alloc, above, upto)?;
        ids.sort_unstable();
        ids.dedup();
        Ok(ids)
    }

    /// The same by the numbers, so that a key comes as often as it stands under one of them.
    fn each_between(&self, alloc: Global, above: u32, upto: u32) -> Result<Vec<KeyId>, Mem>
        ensures found { IfOk result (λ ids. (id : ℕ) → Contains ids.items id → StandsBetween self.now above upto id) }
        ensures all { IfOk result (λ ids. (n id : ℕ) → above < n → n ≤ upto → has self.now n id ≡ true → Contains ids.items id) }
    {
        let mut ids = Vec::new(alloc);
        if upto <= above {
            return Ok(ids);
        }
        let pairs = self.pairs.range((Bound::Included(from(above)), Bound::Excluded(from(upto))));
        for pair in pairs {
            ids.push(pair.1)?;
        }
        Ok(ids)
    }
}

/// Below all pairs of a greater number, and above all others.
fn from(number: u32) -> (u64, KeyId)
    ensures { result ≡ (number + 1, 0) }
{
    (u64::from(number) + 1, KeyId(0))
}
