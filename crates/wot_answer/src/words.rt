//! The words of a line, and what is known by them alone.

ghost use Rattle.std.specs.Prelude.{◌≡◌, Some, IfOk};
ghost use Rattle.std.specs.Option.{option_copied};
ghost use Rattle.wot_types.specs.Commands.{ends_block, is_quit, is_skipped, line_words};
ghost use Rattle.wot_types.specs.Grammar.{has_block};
ghost use Rattle.wot_types.specs.Lines.{without_return, words_of};

use std::alloc::Global;
use wot_fields::{is_blank, is_comment};
use wot_types::{CommandName, Mem, Text, Words};

/// The line without the carriage return at its end.
pub fn without_return(line: &[u8]) -> &[u8]
    ensures { result.now ≡ without_return line.now }
{
    line.strip_suffix(b"\r").unwrap_or(line)
}

/// Whether a line ends a block; None is one that is too long.
pub fn ends_block(line: Option<&[u8]>) -> bool
    ensures { result ≡ ends_block (option_copied line.entry) }
{
    match line {
        Some(line) => without_return(line) == b".".as_slice(),
        None => false,
    }
}

/// The words of a command's line; a line with no command has none.
pub fn line_words(alloc: Global, line: &[u8]) -> Result<Words, Mem>
    ensures { IfOk result (λ words. words ≡ line_words line.now) }
{
    if is_skipped(line) {
        return Ok(Words::new(alloc));
    }
    read_words(alloc, line)
}

/// Whether a line has no command: it is blank or a comment.
fn is_skipped(line: &[u8]) -> bool
    ensures { result ≡ is_skipped line.now }
{
    is_blank(line) || is_comment(line)
}

/// Copies of what stands between runs of spaces.
fn read_words(alloc: Global, line: &[u8]) -> Result<Words, Mem>
    ensures { IfOk result (λ words. words ≡ words_of line.now) }
{
    let mut words = Words::new(alloc);
    for word in line.split(|b| *b == b' ').filter(|word| !word.is_empty()) {
        words.push(Text::from_bytes(alloc, word)?)?;
    }
    Ok(words)
}

/// Whether a block of lines follows the command that these words begin.
pub fn has_block(words: &Words) -> bool
    ensures { result ≡ has_block words.now }
{
    match words.as_slice() {
        [] => false,
        [name, ..] => match CommandName::from_word(name.as_bytes()) {
            Some(name) => name.takes_block(),
            None => false,
        },
    }
}

/// Whether the words are `quit` alone.
pub fn is_quit(words: &Words) -> bool
    ensures { result ≡ is_quit (Some words.now) }
{
    match words.as_slice() {
        [word] => word.as_bytes() == b"quit".as_slice(),
        _ => false,
    }
}
