//! Marks of user IDs.

ghost use Rattle.std.specs.Prelude.{◌≡◌, fold, IfOk};
ghost use Rattle.std.proofs.Common.{rules};
ghost use Rattle.std.specs.Ordering.{as_partial_cmp, eq_by_cmp, nat_cmp};
ghost use Rattle.std.specs.Cmp.{partial_order_from_own_ties};
ghost use Rattle.std.specs.Cmp.Lexicographic.{slice_cmp};
ghost use Rattle.std.specs.Cmp.Rules.{comparing};
ghost use Rattle.wot_marks.specs.Marks.{kind_byte, mark_of, number_of, with_byte};

use std::alloc::Global;
use std::cmp::Ordering;
use std::marker::Model;
use wot_types::{Mem, User, UserKind};

/// What tells a user ID apart: its text, a byte of its kind and its hash, in which no such byte can be. Before them stands a
/// number that is made of them, since texts of one key begin alike: most marks differ in their first byte, and those that
/// somebody made to agree in the number are told apart, and put in order, all the same.
#[derive(Debug, Drop)]
pub struct Mark {
    bytes: Vec<u8>,
}

impl Model for Mark {
    ghost use Rattle.std.specs.Prelude.{List, ℕ};

    ghost Value = { List ℕ };

    ghost view = { λ mark. mark.bytes.items };
}

impl Mark {
    pub fn new(alloc: Global, user: &User) -> Result<Mark, Mem>
        ensures { IfOk result (λ mark. mark ≡ mark_of user.now) }
    {
        let text = user.text.as_bytes();
        let mut room = [0u8; 40];
        let hash = user.hash.as_bytes(&mut room);
        let size = text.len().saturating_add(hash.len()).saturating_add(5);
        let mut bytes = Vec::with_capacity(alloc, size)?;
        bytes.extend_from_slice(&number_of(user, hash).to_be_bytes())?;
        bytes.extend_from_slice(text)?;
        bytes.push(kind_byte(user.kind))?;
        bytes.extend_from_slice(hash)?;
        Ok(Mark { bytes })
    }
}

/// The bytes of its hash are given, so that they are spelled out but once.
#[tactic(auto, unfolding(crate::specs::Marks::number_of))]
fn number_of(user: &User, hash: &[u8]) -> u32
    requires { hash.now ≡ user.now.hash }
    ensures { result ≡ number_of user.now }
{
    with_bytes(with_bytes(0, user.text.as_bytes()), hash)
}

fn with_bytes(number: u32, bytes: &[u8]) -> u32
    ensures { result ≡ fold with_byte number bytes.now }
{
    bytes
        .iter()
        .fold(number, |number, byte| with_byte(number, *byte))
}

fn with_byte(number: u32, byte: u8) -> u32
    ensures { result ≡ with_byte number byte }
{
    number
        .wrapping_mul(16_777_619)
        .wrapping_add(u32::from(byte))
}

fn kind_byte(kind: UserKind) -> u8
    ensures { result ≡ kind_byte kind }
{
    match kind {
        UserKind::Uid => 0,
        UserKind::Uat => 1,
    }
}

impl PartialEq for Mark {
    ghost eq = { eq_by_cmp (slice_cmp nat_cmp) };

    ghost laws = { Prim.search (comparing, rules) };

    fn eq(&self, other: &Mark) -> bool {
        self.cmp(other).is_eq()
    }
}

impl Eq for Mark {
    ghost laws = { Prim.search (comparing, rules) };
}

impl PartialOrd for Mark {
    ghost partial_cmp = { as_partial_cmp (slice_cmp nat_cmp) };

    ghost laws = { partial_order_from_own_ties (Prim.search (comparing, rules)) (Prim.search (comparing, rules)) };

    fn partial_cmp(&self, other: &Mark) -> Option<Ordering> {
        Some(self.cmp(other))
    }
}

impl Ord for Mark {
    ghost cmp = { slice_cmp nat_cmp };

    ghost total = { Prim.search (comparing, rules) };

    ghost matches_partial_cmp = { Prim.search (comparing, rules) };

    ghost matches_eq = { Prim.search (comparing, rules) };

    fn cmp(&self, other: &Mark) -> Ordering {
        self.bytes.as_slice().cmp(other.bytes.as_slice())
    }
}
