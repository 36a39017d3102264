//! One call of a reader or a writer, tried again where a signal cut it short.

ghost use Rattle.std.specs.Prelude.{◌≢◌, ◌≡◌, ◌≤◌, ◌↔◌, length, IsTrue, IfOk, IfErr};
ghost use Rattle.std.specs.Io.KnownBytes.{ReadConsumes, WriteAppends};
ghost use Rattle.std.specs.IoError.{error_kind};
ghost use Rattle.std.specs.declared.io.ErrorKind.TheVariants.{Interrupted};

use std::io;
use std::io::{ErrorKind, Read, Write};

/// Reads once.
pub fn read_some<R: Read>(reader: &mut R, buf: &mut [u8]) -> io::Result<usize>
    ensures fits { IfOk result (λ n. n ≤ length buf.old) }
    ensures consumed { ReadConsumes (R.remaining reader.old) (R.remaining reader.new) result buf.new }
    ensures retried { IfErr result (λ e. error_kind e ≢ Interrupted) }
{
    for _turn in 0..u64::MAX {
        match reader.read(buf) {
            Err(e) if is_interrupted(&e) => {}
            answer => return answer,
        }
    }
    Err(io::Error::from(ErrorKind::Other))
}

/// Writes once.
pub fn write_some<W: Write>(writer: &mut W, bytes: &[u8]) -> io::Result<usize>
    ensures fits { IfOk result (λ n. n ≤ length bytes.now) }
    ensures appended { WriteAppends (W.contents writer.old) (W.contents writer.new) result bytes.now }
    ensures retried { IfErr result (λ e. error_kind e ≢ Interrupted) }
{
    for _turn in 0..u64::MAX {
        match writer.write(bytes) {
            Err(e) if is_interrupted(&e) => {}
            answer => return answer,
        }
    }
    Err(io::Error::from(ErrorKind::Other))
}

// Whether a signal cut a call short: it is tried again then, and at no other error.
fn is_interrupted(e: &io::Error) -> bool
    ensures { IsTrue result ↔ (error_kind e.now ≡ Interrupted) }
{
    e.kind() == ErrorKind::Interrupted
}
