//! Why a call of the outside failed.

ghost use Rattle.std.specs.Prelude.{◌≡◌};

use std::fmt::{Display, Formatter};
use std::io::ErrorKind;
use std::{fmt, io};
use wot_site::Side;

/// What a call was made on.
#[derive(Clone, Copy, Debug, PartialEq, Eq)]
pub enum Place {
    Input,
    Output,
    /// The current folder, in which the two files are.
    Folder,
    Zero,
    One,
}

impl Place {
    /// The file of a side.
    pub fn of(side: Side) -> Place {
        match side {
            Side::Zero => Place::Zero,
            Side::One => Place::One,
        }
    }

    /// Its name, as it is told to people; a file's is that in the folder.
    pub fn name<'a>(self) -> &'a str {
        match self {
            Place::Input => "standard input",
            Place::Output => "standard output",
            Place::Folder => "the current folder",
            Place::Zero => "wot.0",
            Place::One => "wot.1",
        }
    }
}

/// What a call that failed was made on, and the system's error. It is shown as a line for standard error.
#[derive(Clone, Copy, Debug)]
pub struct Reason {
    pub place: Place,
    pub error: io::Error,
}

impl Reason {
    pub fn new(place: Place, error: io::Error) -> Reason
        ensures { result ≡ record { place = place; error = error } }
    {
        Reason { place, error }
    }

    // A lock that another run has is the one thing that a call on a file would wait for.
    fn is_held(&self) -> bool {
        self.place == Place::Zero && self.error.kind() == ErrorKind::WouldBlock
    }
}

impl Display for Reason {
    fn fmt<W: fmt::Write>(&self, f: &mut Formatter<W>) -> fmt::Result {
        let name = self.place.name();
        if self.is_held() {
            return write!(f, "wot: another run of wot holds {name}");
        }
        write!(f, "wot: {name}: {}", self.error)
    }
}
