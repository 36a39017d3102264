//! How a session ended.

ghost use Rattle.std.specs.Prelude.{◌≡◌};
ghost use Rattle.wot_session.specs.Status.{bad_store_line, code_of, line_of};

use wot_store::BadStore;

/// How a session ended, with the exit status and the line on standard error of each.
#[derive(Debug, PartialEq, Eq, Drop)]
pub enum Status {
    /// Every command was answered, and none was refused.
    Done,
    /// Every command was answered, and some were refused.
    Refused,
    /// The words aren't a usage.
    Usage,
    /// The input failed.
    ReadFault,
    /// The output failed.
    TellFault,
    /// The disk failed.
    DiskFault,
    /// The store's bytes have this fault.
    BadStore(BadStore),
    /// There was no memory.
    Memory,
    /// The input is longer than the bound.
    TooLong,
}

impl Status {
    /// The exit status.
    pub fn code(&self) -> u8
        ensures { result ≡ code_of self.now }
    {
        match self {
            Status::Done => 0,
            Status::Refused => 1,
            Status::Usage => 2,
            Status::ReadFault => 3,
            Status::TellFault => 4,
            Status::DiskFault => 5,
            Status::BadStore(_) => 6,
            Status::Memory => 7,
            Status::TooLong => 8,
        }
    }

    /// The line for standard error, without its newline; empty where there is none.
    pub fn line(&self) -> &'static str
        ensures { result.now ≡ line_of self.now }
    {
        match self {
            Status::Done | Status::Refused => "",
            Status::Usage => "usage: wot [--workers N] [WORD]...",
            Status::ReadFault => "wot: read fault",
            Status::TellFault => "wot: write fault",
            Status::DiskFault => "wot: disk fault",
            Status::BadStore(fault) => bad_store_line(fault),
            Status::Memory => "wot: out of memory",
            Status::TooLong => "wot: input too long",
        }
    }
}

/// The line of a store whose bytes have this fault.
fn bad_store_line(fault: &BadStore) -> &'static str
    ensures { result.now ≡ bad_store_line fault.now }
{
    match fault {
        BadStore::Magic(_) => "wot: bad store: Magic",
        BadStore::SameEpoch(_) => "wot: bad store: SameEpoch",
        BadStore::Short(_, _) => "wot: bad store: Short",
        BadStore::Seal(_) => "wot: bad store: Seal",
        BadStore::Spelling => "wot: bad store: Spelling",
        BadStore::Row(_) => "wot: bad store: Row",
        BadStore::BadPayload(_) => "wot: bad store: BadPayload",
        BadStore::BadEdit(_) => "wot: bad store: BadEdit",
        BadStore::Lost(_) => "wot: bad store: Lost",
    }
}
