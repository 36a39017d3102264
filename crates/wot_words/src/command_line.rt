//! The command line `wot [--workers N] [WORD]...`, which `clap` reads.

ghost use Rattle.std.specs.Prelude.{◌≡◌, IfOk};
ghost use Rattle.clap.specs.Words.{app_of};
ghost use Rattle.wot_words.specs.CommandLine.{command_line};

use clap::{Arg, ArgAction, Command};
use std::alloc::{AllocError, Global};

/// The option with the number of workers.
pub const WORKERS: &str = "workers";

/// The words of the command.
pub const WORD: &str = "word";

/// The command line without the program's name, and with no help.
pub fn command_line<'a>(alloc: Global) -> Result<Command<'a>, AllocError>
    ensures { IfOk result (λ command. app_of command ≡ command_line) }
{
    let workers = Arg::new(alloc, WORKERS)
        .long(WORKERS)
        .action(ArgAction::Set);
    let word = Arg::new(alloc, WORD).action(ArgAction::Append);
    Command::new(alloc, "wot")
        .no_binary_name(true)
        .disable_help_flag(true)
        .arg(workers)?
        .arg(word)
}
