//! The hashes of user IDs.

ghost use Rattle.std.specs.Prelude.{◌≡◌, nat_eq, IfOk, IfSome, length};
ghost use Rattle.std.proofs.Common.{rules};
ghost use Rattle.std.specs.Cmp.Lexicographic.{pointwise};
ghost use Rattle.std.specs.Cmp.Rules.{comparing};
ghost use Rattle.hex.specs.Hex.{encode_upper};

use crate::hex_digits::write_digits;
use crate::mem::Mem;
use crate::text::Text;
use std::alloc::Global;
use std::marker::Model;

/// How many bytes a hash of gpg's has.
const SIZE: usize = 20;

/// The hash of a user ID as a listing has it. As gpg prints it, it is 40 hexadecimal digits in upper case: then the bytes that they spell stand in the value itself.
#[derive(Clone, Debug, Drop)]
pub struct UserHash {
    kept: KeptHash,
}

#[derive(Clone, Debug, Drop)]
enum KeptHash {
    Empty,
    Spelled([u8; 20]),
    Other(Box<Text>),
}

impl Model for UserHash {
    ghost use Rattle.std.specs.Prelude.{List, ℕ};
    ghost use Rattle.wot_types.specs.KeptHash.{HasItsSize, hash_of};

    ghost Value = { List ℕ };

    ghost view = { λ h. hash_of h.kept };

    ghost invariant = { λ h. HasItsSize h.kept };
}

impl UserHash {
    pub fn from_bytes(alloc: Global, bytes: &[u8]) -> Result<UserHash, Mem>
        ensures { IfOk result (λ hash. hash ≡ bytes.now) }
    {
        if bytes.is_empty() {
            return Ok(UserHash {
                kept: KeptHash::Empty,
            });
        }
        if let Some(spelled) = spelled_by(bytes) {
            return Ok(UserHash {
                kept: KeptHash::Spelled(spelled),
            });
        }
        let text = Text::from_bytes(alloc, bytes)?;
        Ok(UserHash {
            kept: KeptHash::Other(Box::new(alloc, text)?),
        })
    }

    /// How many bytes it has.
    pub fn len(&self) -> usize
        ensures { result ≡ length self.now }
    {
        match &self.kept {
            KeptHash::Empty => 0,
            KeptHash::Spelled(_) => 2 * SIZE,
            KeptHash::Other(text) => text.as_bytes().len(),
        }
    }

    /// Its bytes. There is to be room for digits that are spelled out.
    pub fn as_bytes<'a>(&'a self, room: &'a mut [u8; 40]) -> &'a [u8]
        ensures { result.now ≡ self.now }
    {
        match &self.kept {
            KeptHash::Empty => &[],
            KeptHash::Spelled(bytes) => {
                write_digits(bytes, room);
                &room[..]
            }
            KeptHash::Other(text) => text.as_bytes(),
        }
    }
}

impl PartialEq for UserHash {
    ghost eq = { pointwise nat_eq };

    ghost laws = { Prim.search (comparing, rules) };

    fn eq(&self, other: &UserHash) -> bool {
        let mut room = [0u8; 2 * SIZE];
        let mut other_room = [0u8; 2 * SIZE];
        self.as_bytes(&mut room) == other.as_bytes(&mut other_room)
    }
}

impl Eq for UserHash {
    ghost laws = { Prim.search (comparing, rules) };
}

/// The bytes that 40 digits in upper case spell, and None for another text.
fn spelled_by(digits: &[u8]) -> Option<[u8; 20]>
    ensures size { IfSome result (λ bytes. length bytes ≡ 20) }
    ensures spells { IfSome result (λ bytes. encode_upper bytes ≡ digits.now) }
{
    if digits.len() != 2 * SIZE {
        return None;
    }
    let mut bytes = [0u8; SIZE];
    for (at, byte) in bytes.iter_mut().enumerate() {
        *byte = value_of(digits[2 * at]) << 4 | value_of(digits[2 * at + 1]);
    }
    let mut spelled = [0u8; 2 * SIZE];
    write_digits(&bytes, &mut spelled);
    if digits == &spelled[..] {
        Some(bytes)
    } else {
        None
    }
}

/// The value of a digit in upper case, and any value for another byte.
#[inline(always)]
fn value_of(digit: u8) -> u8 {
    if digit < b'A' {
        digit & 15
    } else {
        (digit & 15).wrapping_add(9) & 15
    }
}
