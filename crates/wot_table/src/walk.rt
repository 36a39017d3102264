//! A walk over the table's keys in rising order of their key IDs.

ghost use Rattle.std.specs.Prelude.{◌≡◌, ◌≤◌, ◌+◌, ℕ, IfOk, IfSome, IsSome, length, map};
ghost use Rattle.std.specs.Iterator.{YieldsFirst, item_count};
ghost use Rattle.std.specs.List.Sorted.{IsPermutation};
ghost use Rattle.std.specs.Option.{option_copied, option_map};
ghost use Rattle.wot_types.specs.Arrangement.{IsRising};
ghost use Rattle.wot_types.specs.Limits.{most_certs};
ghost use Rattle.wot_types.specs.Selection.{placed_from};
ghost use Rattle.wot_table.specs.Heads.{IsHeadOf, IsKeyHead, IsUserHead};
ghost use Rattle.wot_types.specs.Arrangement.{spot_of};

use crate::head::{KeyHead, UserHead};
use crate::held::{Held, HeldUser};
use crate::order::{BlockOrder, in_block_order};
use std::alloc::Global;
use std::collections::btree_map::Iter;
use std::marker::Model;
use std::sync::ledger::Ledger;
use wot_types::{KeyId, Mem, PackedPlaced, Steps};

/// A walk over the keys in rising order; a step of it takes no look-up.
#[derive(Drop)]
pub struct Walk<'a> {
    pub(super) alloc: Global,
    pub(super) left: Iter<'a, KeyId, Held>,
}

impl<'a> Model for Walk<'a> {
    ghost use Rattle.std.specs.Prelude.{ℕ, List};
    ghost use Rattle.wot_types.specs.declared.key.Key.{Key};

    ghost Value = { List (ℕ × Key) };

    ghost view = { λ w. w.left };
}

impl<'a> Iterator for Walk<'a> {
    type Item = Keyblock<'a>;

    ghost next_gives = { YieldsFirst (λ left. left) };

    ghost remaining = { item_count (λ left. left) };

    fn next(&mut self) -> Option<Keyblock<'a>> {
        match self.left.next() {
            Some((id, held)) => Some(Keyblock::of(self.alloc, *id, held)),
            None => None,
        }
    }
}

/// A key of the table and its key ID, read without a look-up.
#[derive(Drop)]
pub struct Keyblock<'a> {
    alloc: Global,
    id: KeyId,
    held: &'a Held,
}

impl<'a> Model for Keyblock<'a> {
    ghost use Rattle.std.specs.Prelude.{ℕ};
    ghost use Rattle.wot_types.specs.declared.key.Key.{Key};

    ghost Value = { ℕ × Key };

    ghost view = { λ k. (k.id, k.held.now) };
}

impl<'a> Keyblock<'a> {
    pub(super) fn of(alloc: Global, id: KeyId, held: &'a Held) -> Keyblock<'a>
        ensures { result ≡ (id, held.now) }
    {
        Keyblock { alloc, id, held }
    }

    pub fn id(&self) -> KeyId
        ensures { result ≡ self.now.0 }
    {
        self.id
    }

    /// All of the key but its user IDs.
    pub fn key(&self) -> KeyHead<'a>
        ensures { IsKeyHead self.now.1 result }
    {
        self.held.head()
    }

    /// All of a user ID but its certifications; user IDs are numbered from 0.
    pub fn user(&self, user: u32) -> Option<UserHead<'a>>
        ensures { IsHeadOf IsUserHead (option_map (λ spot. spot.user) (spot_of self.now.1 user)) result }
    {
        match self.held_user(user) {
            Some(held) => Some(held.head()),
            None => None,
        }
    }

    fn held_user(&self, user: u32) -> Option<&'a HeldUser>
        ensures { option_copied result ≡ spot_of self.now.1 user }
    {
        self.held.user(user)
    }

    /// The certifications on a user ID, by issuer, then by date, then by place; each is a tick.
    pub fn certs<L: Ledger>(&self, user: u32, steps: &mut Steps<L>) -> &'a [PackedPlaced]
        requires there { IsSome (spot_of self.now.1 user) }
        ensures rising { IsRising result.now }
        ensures same { IfSome (spot_of self.now.1 user) (λ spot. IsPermutation spot.certs result.now) }
        ensures placed { IfSome (spot_of self.now.1 user) (λ spot. (first : ℕ) × (spot.certs ≡ placed_from first spot.user.certs)) }
        ensures few { length result.now ≤ most_certs }
        ensures cost { steps.new ≡ steps.old + length result.now }
    {
        match self.held_user(user) {
            Some(held) => held.certs(steps),
            None => &[],
        }
    }

    /// The certifications on a user ID in the order of the key's block, where there is room for them; each is a tick.
    pub fn arrange<L: Ledger>(&self, user: u32, order: &mut BlockOrder<'a>, steps: &mut Steps<L>)
        requires there { IsSome (spot_of self.now.1 user) }
        requires room { IfSome (spot_of self.now.1 user) (λ spot. length spot.certs ≤ order.old.most) }
        ensures block { IfSome (spot_of self.now.1 user) (λ spot. map (λ p. p.now) order.new.certs.items ≡ spot.certs) }
        ensures most { order.new.most ≡ order.old.most }
        ensures cost { steps.new ≡ steps.old + length order.new.certs.items }
    {
        order.arrange(self.certs(user, steps));
    }

    /// The certifications on a user ID in the order of the key's block; each is a tick.
    pub fn certs_in_order<L: Ledger>(
        &self,
        user: u32,
        steps: &mut Steps<L>,
    ) -> Result<Vec<&'a PackedPlaced>, Mem>
        requires there { IsSome (spot_of self.now.1 user) }
        ensures block { IfOk result (λ certs. IfSome (spot_of self.now.1 user) (λ spot. map (λ p. p.now) certs.items ≡ spot.certs)) }
        ensures cost { IfOk result (λ certs. steps.new ≡ steps.old + length certs.items) }
    {
        in_block_order(self.alloc, self.certs(user, steps))
    }
}
