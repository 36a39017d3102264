//! The colons of a line, found 32 bytes at a time.

ghost use Rattle.std.specs.Prelude.{◌≡◌, ◌≢◌, ℕ, ◌+◌, ◌<◌, ◌≤◌, if◌then◌else◌, length, drop, slice_index};
ghost use Rattle.std.specs.Int.{bit_at};
ghost use Rattle.std.specs.List.{position_or_len};
ghost use Rattle.wot_types.specs.Fields.{is_colon};
ghost use Rattle.wot_fields.specs.Colons.{Marks, IsAhead};

use std::simd::prelude::*;

/// The colons that are still to come, of the 32 bytes that were looked at last.
#[derive(Clone, Copy)]
pub struct Colons {
    /// Where these bytes begin.
    pub block: usize,
    /// Bit k is set where a colon stands at block + k.
    pub bits: u64,
}

impl Colons {
    /// Before the first colon.
    pub fn of(line: &[u8]) -> Colons
        ensures inside { result.block ≤ length line.now }
        ensures ahead { IsAhead line.now result.block result.bits 0 }
    {
        Colons {
            block: 0,
            bits: marks_from(line, 0),
        }
    }

    /// Where the next colon stands or the line ends, and the colons after it.
    pub fn next(self, line: &[u8]) -> (usize, Colons)
        requires { self.block ≤ length line.now }
        ensures first { (from : ℕ) → from ≤ length line.now → IsAhead line.now self.block self.bits from → result.0 ≡ from + position_or_len is_colon (drop from line.now) }
        ensures within { (from : ℕ) → IsAhead line.now self.block self.bits from → result.0 ≤ length line.now }
        ensures inside { result.1.block ≤ length line.now }
        ensures ahead { (from : ℕ) → result.0 < length line.now → IsAhead line.now self.block self.bits from → IsAhead line.now result.1.block result.1.bits (result.0 + 1) }
    {
        let mut block = self.block;
        let mut bits = self.bits;
        while bits == 0 {
            if line.len() - block <= 32 {
                let none = Colons { block, bits };
                return (line.len(), none);
            }
            block += 32;
            bits = marks_from(line, block);
        }
        let k = lowest(bits);
        let rest = Colons {
            block,
            bits: without(bits, k),
        };
        (block + k, rest)
    }
}

/// The colons of the 32 bytes from a place on, or of fewer at the line's end.
fn marks_from(line: &[u8], at: usize) -> u64
    requires { at ≤ length line.now }
    ensures { Marks line.now at result 0 }
{
    if 32 <= line.len() - at {
        marks_of_32(line, at)
    } else if 32 <= line.len() {
        // The last 32 bytes are read whole, and the bits of those before `at` are dropped.
        marks_of_32(line, line.len() - 32) >> (32 - (line.len() - at))
    } else {
        marks_of_short(line) >> at
    }
}

/// The colons of a line of fewer than 32 bytes.
fn marks_of_short(line: &[u8]) -> u64
    requires { length line.now < 32 }
    ensures { Marks line.now 0 result 0 }
{
    let mut bits = 0;
    for (at, b) in line.iter().enumerate() {
        if *b == b':' {
            bits |= 1 << at;
        }
    }
    bits
}

/// Bit k tells whether the byte at + k is a colon, for 32 bytes.
fn marks_of_32(line: &[u8], at: usize) -> u64
    requires { at + 32 ≤ length line.now }
    ensures each { (k : ℕ) → k < 32 → bit_at result k ≡ (if is_colon (slice_index line.now (at + k)) then 1 else 0) }
    ensures only { (k : ℕ) → bit_at result k ≡ 1 → k < 32 }
{
    u8x32::from_slice(&line[at..])
        .simd_eq(u8x32::splat(b':'))
        .to_bitmask()
}

/// The place of the lowest bit that is set.
fn lowest(bits: u64) -> usize
    requires { bits ≢ 0 }
    ensures bound { result < 64 }
    ensures set { bit_at bits result ≡ 1 }
    ensures below { (k : ℕ) → k < result → bit_at bits k ≡ 0 }
{
    bits.trailing_zeros() as usize
}

/// The same bits but for one, which is clear.
fn without(bits: u64, bit: usize) -> u64
    requires { bit < 64 }
    ensures cleared { bit_at result bit ≡ 0 }
    ensures kept { (k : ℕ) → k < 64 → k ≢ bit → bit_at result k ≡ bit_at bits k }
    ensures no_more { (k : ℕ) → bit_at result k ≡ 1 → bit_at bits k ≡ 1 }
{
    bits & !(1 << bit)
}
