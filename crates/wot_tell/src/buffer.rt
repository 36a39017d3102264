//! Bytes that are taken and not told yet.

ghost use Rattle.std.specs.Prelude.{◌≡◌, ◌+◌, ◌<◌, ◌≤◌, [], ◌∷◌, ◌++◌, length};

use std::marker::Model;

/// How many bytes are held at most.
const ROOM: usize = 32_768;

/// Bytes that are taken and not told yet, at most 32,768 of them.
#[derive(Drop)]
pub struct Buffer {
    bytes: [u8; ROOM],
    used: usize,
}

impl Model for Buffer {
    ghost use Rattle.std.specs.Prelude.{List, ℕ, ◌≤◌, take};

    ghost Value = { List ℕ };

    ghost view = { λ h. take h.used h.bytes };

    ghost invariant = { λ h. h.used ≤ 32768 };
}

impl Buffer {
    /// None.
    pub fn new() -> Buffer
        ensures { result ≡ [] }
    {
        Buffer {
            bytes: [0; ROOM],
            used: 0,
        }
    }

    /// For how many more there is room.
    #[inline(always)]
    pub fn room(&self) -> usize
        ensures { result + length self.now ≡ 32768 }
    {
        ROOM - self.used
    }

    /// Adds a byte.
    #[inline(always)]
    pub fn push(&mut self, byte: u8)
        requires room { length self.old < 32768 }
        ensures { self.new ≡ self.old ++ byte ∷ [] }
    {
        self.bytes[self.used] = byte;
        self.used += 1;
    }

    /// Adds bytes.
    #[inline(always)]
    pub fn push_bytes(&mut self, bytes: &[u8])
        requires room { length self.old + length bytes.now ≤ 32768 }
        ensures { self.new ≡ self.old ++ bytes.now }
    {
        self.bytes[self.used..self.used + bytes.len()].copy_from_slice(bytes);
        self.used += bytes.len();
    }

    pub fn as_slice(&self) -> &[u8]
        ensures { result.now ≡ self.now }
    {
        &self.bytes[..self.used]
    }

    /// Lets all of them go.
    pub fn clear(&mut self)
        ensures { self.new ≡ [] }
    {
        self.used = 0;
    }
}
