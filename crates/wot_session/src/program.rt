//! The whole program over a site: its words are read, the store is opened, and the commands are run.

ghost use Rattle.std.specs.Prelude.{◌≡◌, ◌⊎◌, ◌≤◌, ℕ, List, Some, None, map, string_bytes};
ghost use Rattle.wot_site.specs.Seen.{Honestly};
ghost use Rattle.wot_words.specs.ProgramWords.{command_words};
ghost use Rattle.wot_session.specs.Run.{Ran, longest_input};
ghost use Rattle.wot_session.specs.Stop.{Causes};

use crate::opened::run_opened;
use crate::status::Status;
use std::alloc::Global;
use std::thread::Threads;
use wot_site::Site;
use wot_store::{StoreError, open_store};
use wot_types::Words;
use wot_words::{WordsError, program_words};
use wot_workers::{Gate, Workers};

/// The longest input of the program, in bytes.
const LONGEST_INPUT: u64 = 1 << 36;

/// Opens the store and runs the commands of the input, or the one command that the words are. Seals and rows are checked, and rows and letters
/// counted anew, by as many workers as the words say, of which those at rows call the gate first; what is promised is the same for every gate
/// and every number of workers.
/// What a session held at its end is not freed: the system takes it back with the process.
pub fn run<R: Threads + Sync, S: Site, G: Gate + Sync>(
    rt: &R,
    alloc: Global,
    words: &[String],
    site: &mut S,
    gate: &G,
) -> Status
    ensures usage { result ≡ Status.Usage → command_words (map string_bytes words.now) ≡ None }
    ensures unread { command_words (map string_bytes words.now) ≡ None → (result ≡ Status.Usage) ⊎ (result ≡ Status.Memory) }
    ensures untouched { command_words (map string_bytes words.now) ≡ None → site.new ≡ site.old }
    ensures ran { (command : List (List ℕ)) → command_words (map string_bytes words.now) ≡ Some command
        → Honestly (S.seen site.old) (S.seen site.new) (Ran command longest_input result) }
    ensures causes { Causes result (S.faults site.old) (S.faults site.new) }
{
    run_within(rt, alloc, words, site, gate, LONGEST_INPUT)
}

/// The same, where an input of more than `most` bytes is too long.
pub fn run_within<R: Threads + Sync, S: Site, G: Gate + Sync>(
    rt: &R,
    alloc: Global,
    words: &[String],
    site: &mut S,
    gate: &G,
    most: u64,
) -> Status
    // Words that are no command are a wrong usage, unless there is no memory to read them, and then the site isn't called.
    ensures usage { result ≡ Status.Usage → command_words (map string_bytes words.now) ≡ None }
    ensures unread { command_words (map string_bytes words.now) ≡ None → (result ≡ Status.Usage) ⊎ (result ≡ Status.Memory) }
    ensures untouched { command_words (map string_bytes words.now) ≡ None → site.new ≡ site.old }

    // What was read and told where the site is honest, and what a crash leaves at each moment, by the status that is answered.
    ensures ran { (command : List (List ℕ)) → command_words (map string_bytes words.now) ≡ Some command
        → Honestly (S.seen site.old) (S.seen site.new) (Ran command most result) }

    // On every site.
    ensures causes { Causes result (S.faults site.old) (S.faults site.new) }
{
    match program_words(alloc, words) {
        Ok(asked) => {
            let workers = Workers {
                rt,
                count: asked.workers,
                gate,
            };
            run_words(&workers, alloc, &asked.command, site, most)
        }
        Err(WordsError::Usage) => Status::Usage,
        Err(WordsError::Memory) => Status::Memory,
    }
}

// The same, over the words of the command.
fn run_words<R: Threads + Sync, S: Site, G: Gate + Sync>(
    workers: &Workers<'_, R, G>,
    alloc: Global,
    words: &Words,
    site: &mut S,
    most: u64,
) -> Status
    ensures usage { result ≡ Status.Usage → ⊥ }
    ensures ran { Honestly (S.seen site.old) (S.seen site.new) (Ran words.now most result) }
    ensures causes { Causes result (S.faults site.old) (S.faults site.new) }
{
    let opened = match open_store(workers, alloc, site) {
        Ok(opened) => opened,
        Err(StoreError::Bad(bad)) => return Status::BadStore(bad),
        Err(StoreError::DiskFault) => return Status::DiskFault,
        Err(StoreError::Memory) => return Status::Memory,
    };
    match run_opened(workers, alloc, words, opened, site, most) {
        Ok(false) => Status::Done,
        Ok(true) => Status::Refused,
        Err(stop) => stop.status(),
    }
}
