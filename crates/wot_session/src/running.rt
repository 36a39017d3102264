//! A session from the first byte of its input to the last, or to `quit`.

ghost use Rattle.std.specs.Prelude.{◌≡◌, [], Some, IfOk, IfErr};
ghost use Rattle.wot_site.specs.Seen.{Honestly};
ghost use Rattle.wot_types.specs.LineByLine.{Position};
ghost use Rattle.wot_session.specs.SessionState.{FromHere, IsOver, IsSomewhere};
ghost use Rattle.wot_session.specs.Input.{SessionEnded, SessionStopped};
ghost use Rattle.wot_session.specs.Answering.{HasStopCause};

use crate::session::Session;
use crate::stop::Stop;
use std::thread::Threads;
use wot_site::Site;
use wot_workers::{Gate, Workers};

// How many bytes are taken at most in one call.
const PIECE: usize = 4096;

/// Reads the input, of at most that many bytes, to its end or to `quit`, and tells the reply to each command before
/// more is read. It answers whether some command was refused.
pub fn run_session<R: Threads + Sync, S: Site, G: Gate + Sync>(
    workers: &Workers<'_, R, G>,
    session: &mut Session,
    site: &mut S,
    most: u64,
) -> Result<bool, Stop>
    requires somewhere { IsSomewhere session.old (S.seen site.old) }
    requires line { session.old.line ≡ Some [] }
    requires going { IsOver session.old → ⊥ }
    ensures ended { IfOk result (λ refused. FromHere session.old (S.seen site.old) (S.seen site.new) (λ s. SessionEnded s most refused)) }
    ensures stopped { IfErr result (λ stop. FromHere session.old (S.seen site.old) (S.seen site.new) (λ s. SessionStopped s most stop)) }
    ensures cause { HasStopCause (S.faults site.old) (S.faults site.new) result }
{
    let mut buf = [0u8; PIECE];
    let mut room = most;
    loop {
        let n = match session.turn(workers, site, &mut buf, room) {
            Ok(n) => n,
            Err(stop) => return Err(stop),
        };
        if session.is_over() {
            return Ok(session.is_refused());
        }
        if n == 0 {
            break;
        }
        room -= n as u64;
    }
    match session.answer_rest(workers, site) {
        Ok(()) => Ok(session.is_refused()),
        Err(stop) => Err(stop),
    }
}
