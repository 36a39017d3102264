//! The last line of an accepted command's reply.

ghost use Rattle.std.specs.Prelude.{◌≡◌, ◌++◌, IfOk, OnOk};
ghost use Rattle.std.specs.Fmt.{decimal};
ghost use Rattle.wot_types.specs.Outcome.{entries_line, import_line, keys_line, ok_line};
ghost use Rattle.wot_types.specs.Refusals.{reply_line};

use std::alloc::Global;
use wot_fields::{Printed, Sink, push_number};
use wot_types::Mem;

/// The last line of the reply to an accepted command that tells no more of it.
pub const OK_LINE: &[u8] = b"ok\n";

/// `ok`, after a command that tells nothing else.
pub fn ok_line(alloc: Global) -> Result<Vec<u8>, Mem>
    ensures { IfOk result (λ text. text.items ≡ ok_line) }
{
    Ok(Vec::from_slice(alloc, OK_LINE)?)
}

/// `ok keys K kept C passed P`, after an import.
pub fn import_line(alloc: Global, keys: u64, kept: u64, passed: u64) -> Result<Vec<u8>, Mem>
    ensures { IfOk result (λ text. text.items ≡ import_line keys kept passed) }
{
    let mut text = Printed::new(alloc);
    push_count(&mut text, b"ok keys ", keys)?;
    push_count(&mut text, b" kept ", kept)?;
    push_count(&mut text, b" passed ", passed)?;
    text.push(b'\n')?;
    text.into_vec()
}

/// `ok keys K`, after a sample.
pub fn keys_line(alloc: Global, keys: u32) -> Result<Vec<u8>, Mem>
    ensures { IfOk result (λ text. text.items ≡ keys_line keys) }
{
    end_with_count(Printed::new(alloc), b"ok keys ", u64::from(keys))
}

/// `ok entries E`, after an ownertrust text.
pub fn entries_line(alloc: Global, entries: u64) -> Result<Vec<u8>, Mem>
    ensures { IfOk result (λ text. text.items ≡ entries_line entries) }
{
    end_with_count(Printed::new(alloc), b"ok entries ", entries)
}

/// A text, and a line of words and a count behind it.
pub fn end_with_count(mut text: Printed, words: &[u8], count: u64) -> Result<Vec<u8>, Mem>
    ensures { IfOk result (λ whole. whole.items ≡ text ++ reply_line (words.now ++ decimal count)) }
{
    push_count(&mut text, words, count)?;
    text.push(b'\n')?;
    text.into_vec()
}

/// Words and a count behind them.
fn push_count(text: &mut Printed, words: &[u8], count: u64) -> Result<(), Mem>
    ensures { OnOk result (text.new ≡ text.old ++ words.now ++ decimal count) }
{
    text.push_bytes(words)?;
    push_number(text, count)?;
    Ok(())
}
