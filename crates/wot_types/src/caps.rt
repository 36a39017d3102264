//! The capabilities of keys.

ghost use Rattle.std.specs.Prelude.{◌≡◌, ◌≤◌, IfOk, length, take};

use crate::mem::Mem;
use crate::text::Text;
use std::alloc::Global;
use std::marker::Model;

/// How many letters stand in a value itself.
const MOST: usize = 14;

/// The letters of a key's capabilities, in 16 bytes. So few stand in it that hardly any key has more, whose letters have a piece of their own.
#[derive(Clone, Debug, Drop)]
pub struct Caps {
    letters: Letters,
}

#[derive(Clone, Debug, Drop)]
enum Letters {
    Few(FewLetters),
    Many(Box<Text>),
}

#[derive(Clone, Copy, Debug)]
struct FewLetters {
    count: u8,
    bytes: [u8; 14],
}

impl Model for Caps {
    ghost use Rattle.std.specs.Prelude.{List, ℕ};
    ghost use Rattle.wot_types.specs.CapsLetters.{HaveRoom, letters_of};

    ghost Value = { List ℕ };

    ghost view = { λ c. letters_of c.letters };

    ghost invariant = { λ c. HaveRoom c.letters };
}

impl Caps {
    pub fn from_bytes(alloc: Global, bytes: &[u8]) -> Result<Caps, Mem>
        ensures { IfOk result (λ caps. caps ≡ bytes.now) }
    {
        if bytes.len() <= MOST {
            let few = FewLetters {
                count: bytes.len() as u8,
                bytes: front_of(bytes),
            };
            return Ok(Caps {
                letters: Letters::Few(few),
            });
        }
        let text = Text::from_bytes(alloc, bytes)?;
        Ok(Caps {
            letters: Letters::Many(Box::new(alloc, text)?),
        })
    }

    pub fn as_bytes(&self) -> &[u8]
        ensures { result.now ≡ self.now }
    {
        match &self.letters {
            Letters::Few(few) => &few.bytes[..usize::from(few.count)],
            Letters::Many(text) => text.as_bytes(),
        }
    }
}

/// The bytes, and zeros behind them.
fn front_of(bytes: &[u8]) -> [u8; 14]
    requires { length bytes.now ≤ 14 }
    ensures { take (length bytes.now) result ≡ bytes.now }
{
    let mut front = [0u8; 14];
    front[..bytes.len()].copy_from_slice(bytes);
    front
}
