//! The two files of the store.

ghost use Rattle.std.specs.Prelude.{◌≤◌, length, IfOk};

use crate::reason::{Place, Reason};
use crate::streams::read_some;
use std::fs::{File, Files, OpenOptions};
use std::io;
use std::io::{ErrorKind, Seek, SeekFrom, Write};
use std::os::fd::{AsRawFd, IntoRawFd};
use wot_site::Side;

// The descriptors of standard input, output and error are those up to this one.
const LAST_STREAM: i32 = 2;

/// The files of the current folder that are the two sides. They are made ready at the first call.
#[derive(Drop)]
pub struct Sides<F: Files<File = File>> {
    files: F,
    opened: Option<BothFiles>,
}

// Both files. `zero` is locked as long as it is open.
#[derive(Drop)]
struct BothFiles {
    zero: File,
    one: File,
}

impl<F: Files<File = File>> Sides<F> {
    pub fn new(files: F) -> Sides<F> {
        Sides {
            files,
            opened: None,
        }
    }

    /// How many bytes a side has.
    pub fn size(&mut self, side: Side) -> Result<u64, Reason> {
        length(self.file(side)?).map_err(|e| Reason::new(Place::of(side), e))
    }

    /// Reads once from a place on.
    pub fn read(&mut self, side: Side, at: u64, buf: &mut [u8]) -> Result<usize, Reason>
        ensures { IfOk result (λ n. n ≤ length buf.old) }
    {
        match read_from(self.file(side)?, at, buf) {
            Ok(n) => Ok(n),
            Err(e) => Err(Reason::new(Place::of(side), e)),
        }
    }

    /// Writes all the bytes from a place on.
    pub fn write(&mut self, side: Side, at: u64, bytes: &[u8]) -> Result<(), Reason> {
        match write_from(self.file(side)?, at, bytes) {
            Ok(()) => Ok(()),
            Err(e) => Err(Reason::new(Place::of(side), e)),
        }
    }

    /// Has what was written on the disk.
    pub fn sync(&mut self, side: Side) -> Result<(), Reason> {
        match self.file(side)?.sync_data() {
            Ok(()) => Ok(()),
            Err(e) => Err(Reason::new(Place::of(side), e)),
        }
    }

    // The file of a side, once both are ready.
    fn file(&mut self, side: Side) -> Result<&mut File, Reason> {
        if self.opened.is_none() {
            self.opened = Some(open_both(&self.files)?);
        }
        match self.opened.as_mut() {
            Some(opened) => Ok(opened.file(side)),
            None => Err(Reason::new(Place::of(side), io::Error::from(ErrorKind::Other))),
        }
    }
}

fn length(file: &mut File) -> io::Result<u64> {
    Ok(file.metadata()?.len())
}

fn read_from(file: &mut File, at: u64, buf: &mut [u8]) -> io::Result<usize>
    ensures { IfOk result (λ n. n ≤ length buf.old) }
{
    file.seek(SeekFrom::Start(at))?;
    read_some(file, buf)
}

fn write_from(file: &mut File, at: u64, bytes: &[u8]) -> io::Result<()> {
    file.seek(SeekFrom::Start(at))?;
    file.write_all(bytes)
}

impl BothFiles {
    fn file(&mut self, side: Side) -> &mut File {
        match side {
            Side::Zero => &mut self.zero,
            Side::One => &mut self.one,
        }
    }
}

// Opens both files, and fails where another run has them.
fn open_both(files: &impl Files<File = File>) -> Result<BothFiles, Reason> {
    let folder = folder(files).map_err(|e| Reason::new(Place::Folder, e))?;
    let zero = open_locked(files).map_err(|e| Reason::new(Place::Zero, e))?;
    let one = open(files, Place::One.name()).map_err(|e| Reason::new(Place::One, e))?;
    // Their names, too, are to outlive a crash.
    folder
        .sync_all()
        .map_err(|e| Reason::new(Place::Folder, e))?;
    Ok(BothFiles { zero, one })
}

// Opens the file of the first side for this run alone.
fn open_locked(files: &impl Files<File = File>) -> io::Result<File> {
    let zero = open(files, Place::Zero.name())?;
    zero.try_lock()?;
    Ok(zero)
}

// Opens the current folder at a descriptor behind those of the streams. Of these each that was closed is left to
// the folder, which can be neither read nor written: a file of the store there would be taken for the stream.
fn folder(files: &impl Files<File = File>) -> io::Result<File> {
    for _stream in 0..=LAST_STREAM {
        let folder = File::open(files, ".")?;
        if folder.as_raw_fd() > LAST_STREAM {
            return Ok(folder);
        }
        folder.into_raw_fd();
    }
    File::open(files, ".")
}

// Opens a file, which is created where it is missing.
fn open(files: &impl Files<File = File>, name: &str) -> io::Result<File> {
    OpenOptions::new()
        .read(true)
        .write(true)
        .create(true)
        .open(files, name)
}
