//! A record that is ready to be committed.

ghost use Rattle.std.specs.Prelude.{◌≡◌, ◌+◌, ◌-◌, ◌^◌, ◌<◌, ◌≤◌, nat_lt, length, drop, IfOk, IsErrOf};
ghost use Rattle.wot_journal.specs.Record.{Framed, most_side, behind_gate, with_length};

use byteorder::{BigEndian, ByteOrder};
use std::alloc::{AllocError, Global};
use std::marker::Model;
use thiserror::Error;
use wot_site::MOST;

/// Why no record was built.
#[derive(Clone, Copy, Debug, PartialEq, Eq, Drop, Error)]
pub enum BuildError {
    #[error("the journal is full")]
    JournalFull,
    #[error("out of memory")]
    Memory,
}

impl From<AllocError> for BuildError {
    ghost use Rattle.wot_journal.specs.declared.record.BuildError.TheVariants.{Memory};

    ghost from_gives = { λ _ e. e ≡ Memory };

    fn from(_e: AllocError) -> BuildError {
        BuildError::Memory
    }
}

/// A record for one place of a journal, seen as that place and its payload.
#[derive(Debug, Drop)]
pub struct Built {
    end: u64,
    // All that stands behind the gate: the length, the payload and the next gate, closed.
    body: Vec<u8>,
}

impl Model for Built {
    ghost use Rattle.std.specs.Prelude.{◌≡◌, ◌+◌, ◌≤◌, length};
    ghost use Rattle.wot_journal.specs.Record.{Framed, behind_gate, payload_in, most_side, coded_framed};

    ghost Value = { Framed };

    ghost coded = { coded_framed };

    ghost view = { λ b. record { end = b.end; payload = payload_in b.body.items } };

    ghost invariant = { λ b. (b.body.items ≡ behind_gate (payload_in b.body.items)) × (b.end + length (payload_in b.body.items) + 6 ≤ most_side) };
}

impl Built {
    /// The place for which it was built.
    pub fn end(&self) -> u64
        ensures { result ≡ self.now.end }
    {
        self.end
    }

    // All that stands behind its gate.
    pub fn body(&self) -> &[u8]
        ensures body { result.now ≡ behind_gate self.now.payload }
        ensures room { self.now.end + length self.now.payload + 6 ≤ most_side }
    {
        &self.body
    }
}

/// Builds the record of a payload for the journal's end.
pub fn build(alloc: Global, payload: &[u8], end: u64) -> Result<Built, BuildError>
    ensures built { IfOk result (λ b. b ≡ record { end = end; payload = payload.now }) }
    ensures room { IfOk result (λ b. end + length payload.now + 6 ≤ most_side) }
    ensures full { IsErrOf result BuildError.JournalFull → most_side < end + length payload.now + 6 }
{
    if is_past(end, payload.len() as u64) {
        return Err(BuildError::JournalFull);
    }
    let spelled = spell(alloc, payload)?;
    Ok(close(spelled, end)?)
}

/// The same of a payload that has its length before it. The record is built in the memory of these bytes: no more is taken where there is room for one byte behind them.
pub fn build_in_place(spelled: Vec<u8>, end: u64) -> Result<Built, BuildError>
    requires spelled { spelled.items ≡ with_length (drop 4 spelled.items) }
    ensures built { IfOk result (λ b. b ≡ record { end = end; payload = drop 4 spelled.items }) }
    ensures room { IfOk result (λ b. end + length (drop 4 spelled.items) + 6 ≤ most_side) }
    ensures full { IsErrOf result BuildError.JournalFull → most_side < end + length (drop 4 spelled.items) + 6 }
{
    if is_past(end, spelled.len() as u64 - 4) {
        return Err(BuildError::JournalFull);
    }
    Ok(close(spelled, end)?)
}

// Whether the record of a payload of that length passes the last place of a side, with the next gate behind it.
fn is_past(end: u64, len: u64) -> bool
    ensures { result ≡ nat_lt most_side (end + len + 6) }
{
    end > MOST || len > MOST || end + len + 6 > MOST
}

// A payload with its length before it, and room for the next gate.
fn spell(alloc: Global, payload: &[u8]) -> Result<Vec<u8>, AllocError>
    requires { length payload.now < 2 ^ 32 }
    ensures { IfOk result (λ spelled. spelled.items ≡ with_length payload.now) }
{
    let mut len = [0u8; 4];
    BigEndian::write_u32(&mut len, payload.len() as u32);
    let mut spelled = Vec::new(alloc);
    spelled.reserve_exact(len.len() + payload.len() + 1)?;
    spelled.extend_from_slice(&len)?;
    spelled.extend_from_slice(payload)?;
    Ok(spelled)
}

// The record of a payload with its length before it: the next gate comes behind them, closed.
fn close(spelled: Vec<u8>, end: u64) -> Result<Built, AllocError>
    requires spelled { spelled.items ≡ with_length (drop 4 spelled.items) }
    requires room { end + length (drop 4 spelled.items) + 6 ≤ most_side }
    ensures { IfOk result (λ b. b ≡ record { end = end; payload = drop 4 spelled.items }) }
{
    let mut body = spelled;
    body.push(0)?;
    Ok(Built { end, body })
}
