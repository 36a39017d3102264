//! `wot`: a web of trust engine after GnuPG's, over standard input and output and two files of the current folder.
#![tactic(auto)]

ghost use Rattle.std.specs.Prelude.{◌≡◌, [], None, codes, map, string_bytes};
ghost use Rattle.std.specs.Process.{exit_status};
ghost use Rattle.wot_session.specs.Run.{EndsAs, longest_input};
ghost use Rattle.wot_session.specs.Status.{code_of, line_of};
ghost use Rattle.wot_session.specs.declared.status.Status as status;
ghost use Rattle.wot_words.specs.ProgramWords.{command_words};

use std::alloc::{AllocError, Global};
use std::env::Env;
use std::io::{ErrorKind, IsTerminal, writer};
use std::process::ExitCode;
use std::thread::Threads;
use std::{env, io};
use wot_file::FileSite;
use wot_session::{Status, run};
use wot_site::Site;
use wot_workers::NoGate;

/// The exit code where the system does not give the program its words; no status has it.
const NO_WORDS: u8 = 9;

/// How the program ends: what standard error is told, a line and a hint behind it, if anything, and the exit code.
struct End<'a> {
    line: &'a str,
    hint: &'a str,
    code: ExitCode,
}

fn main(rt: HostRuntime) -> ExitCode {
    let end = match words(&rt) {
        Ok(words) => {
            if words.is_empty() && rt.stdin().is_terminal() {
                let _ = rt.eprintln("wot: reads commands from standard input; see wot(1)");
            }
            let mut site = FileSite::new(&rt, rt.reader(), writer(&rt));
            let end = session(&rt, rt.alloc(), &words, &mut site);
            if let Some(reason) = site.reason() {
                let _ = rt.eprintln(reason);
            }
            end
        }
        Err(fault) if fault.kind() == ErrorKind::OutOfMemory => end_with(Status::Memory),
        Err(_) => no_words(),
    };
    leave(&rt, end)
}

/// The words after the program's name.
fn words(rt: &(impl Env + AllocGlobal)) -> io::Result<Vec<String>> {
    let mut words = Vec::new(rt.alloc());
    for word in env::args(rt)?.skip(1) {
        words.push(word).map_err(AllocError::from)?;
    }
    Ok(words)
}

/// All that the program does once it has its words and its outside, but for how it ends.
fn session<'a, R: Threads + Sync, S: Site>(
    rt: &R,
    alloc: Global,
    words: &[String],
    site: &mut S,
) -> End<'a>
    // There is a status with this line and this code, and the run is one that ends with it.
    ensures run { (s : status.Status) × (result.line.now ≡ line_of s) × (exit_status result.code ≡ code_of s)
        × EndsAs (map string_bytes words.now) longest_input (S.seen site.old) (S.seen site.new) (S.faults site.old) (S.faults site.new) s }
    ensures untouched { command_words (map string_bytes words.now) ≡ None → site.new ≡ site.old }
{
    end_with(run(rt, alloc, words, site, &NoGate))
}

/// The end of a run with this status.
fn end_with<'a>(status: Status) -> End<'a>
    ensures line { result.line.now ≡ line_of status }
    ensures code { exit_status result.code ≡ code_of status }
    ensures usage { status ≡ Status.Usage → result.hint.now ≡ codes "see wot(1)" }
    ensures other { (status ≡ Status.Usage → ⊥) → result.hint.now ≡ [] }
{
    End {
        line: status.line(),
        hint: hint(&status),
        code: ExitCode::from(status.code()),
    }
}

/// What helps after words that the program doesn't know, and nothing after anything else.
fn hint<'a>(ended: &Status) -> &'a str
    ensures usage { ended.now ≡ Status.Usage → result.now ≡ codes "see wot(1)" }
    ensures other { (ended.now ≡ Status.Usage → ⊥) → result.now ≡ [] }
{
    match ended {
        Status::Usage => "see wot(1)",
        _ => "",
    }
}

/// The end where the system does not give the program its words.
fn no_words<'a>() -> End<'a>
    ensures line { result.line.now ≡ codes "wot: no words" }
    ensures code { exit_status result.code ≡ 9 }
{
    End {
        line: "wot: no words",
        hint: "",
        code: ExitCode::from(NO_WORDS),
    }
}

/// Tells standard error the line and the hint, where there are any, and gives the code.
fn leave(rt: &impl Eprint, end: End<'_>) -> ExitCode
    ensures { result ≡ end.entry.code }
{
    let End { line, hint, code } = end;
    for text in [line, hint] {
        if !text.is_empty() {
            let _ = rt.eprintln(text);
        }
    }
    code
}
