//! Why the words ask for nothing.

ghost use Rattle.std.specs.Prelude.{◌≡◌, ◌≢◌};
ghost use Rattle.clap.specs.Words.{kind_of};
ghost use Rattle.clap.specs.declared.error.kind.ErrorKind.TheVariants.{OutOfMemory};
ghost use Rattle.wot_words.specs.declared.error.WordsError.TheVariants.{Memory, Usage};

use clap::error::ErrorKind;
use std::alloc::AllocError;
use thiserror::Error;
use wot_types::Mem;

/// The error of reading the program's words.
#[derive(Clone, Copy, Debug, PartialEq, Eq, Drop, Error)]
pub enum WordsError {
    /// The words aren't in the word grammar.
    #[error("the words are not in the word grammar")]
    Usage,
    #[error("out of memory")]
    Memory,
}

impl From<Mem> for WordsError {
    ghost from_gives = { λ _ e. e ≡ Memory };

    fn from(_e: Mem) -> WordsError {
        WordsError::Memory
    }
}

impl From<AllocError> for WordsError {
    ghost from_gives = { λ _ e. e ≡ Memory };

    fn from(_e: AllocError) -> WordsError {
        WordsError::Memory
    }
}

impl From<clap::Error> for WordsError {
    ghost from_gives = { λ error e. e ≡ Usage → kind_of error ≢ OutOfMemory };

    fn from(error: clap::Error) -> WordsError {
        match error.kind() {
            ErrorKind::OutOfMemory => WordsError::Memory,
            _ => WordsError::Usage,
        }
    }
}
