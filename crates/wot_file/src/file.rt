//! A site over a reader and a writer of the system and two files.

ghost use Rattle.std.specs.Prelude.{◌≡◌, ◌<◌, ◌≤◌, ◌+◌, ◌-◌, ◌^◌, length, None, Ok, IfOk, IsSome, OnErr};
ghost use Rattle.std.specs.Io.KnownBytes.{ReadConsumes, WriteAppends};
ghost use Rattle.wot_site.specs.Site.{HasCause, TakeRose, TellRose, DiskRose};
ghost use Rattle.wot_file.specs.FileSite.{faults_of, first_reason, input_of, output_of, reason_after, reason_of};

use crate::reason::{Place, Reason};
use crate::sides::Sides;
use crate::streams::{read_some, write_some};
use std::fs::{File, Files};
use std::io;
use std::io::{ErrorKind, Read, Write};
use wot_site::{Failed, Side, Site};

/// A site whose input and output are the system's, and whose store is the files `wot.0` and `wot.1` of the
/// current folder. It tells nothing of what they hold; its counts stand for the calls that an error of the
/// system made fail, and stay at 2^64 - 1.
#[derive(Drop)]
pub struct FileSite<F: Files<File = File>, I, O> {
    input: I,
    output: O,
    sides: Sides<F>,
    take_faults: u64,
    tell_faults: u64,
    disk_faults: u64,
    // Why the first call that failed did so.
    reason: Option<Reason>,
}

impl<F: Files<File = File>, I: Read, O: Write> FileSite<F, I, O> {
    /// Takes what the runtime lends: `FileSite::new(&rt, rt.reader(), io::writer(&rt))` in a program. No file
    /// is touched before the first call of the disk.
    pub fn new(files: F, input: I, output: O) -> FileSite<F, I, O>
        ensures input { input_of result ≡ input }
        ensures output { output_of result ≡ output }
        ensures faults { faults_of result ≡ record { take = 0; tell = 0; disk = 0 } }
        ensures reason { reason_of result ≡ None }
    {
        FileSite {
            input,
            output,
            sides: Sides::new(files),
            take_faults: 0,
            tell_faults: 0,
            disk_faults: 0,
            reason: None,
        }
    }

    /// Why the first call that failed did so. There is none as long as each was answered.
    pub fn reason(&self) -> Option<Reason>
        ensures { result ≡ reason_of self.now }
    {
        self.reason
    }

    // Keeps why a call failed, if it is the first.
    fn keep_reason(&mut self, reason: Reason)
        ensures input { input_of self.new ≡ input_of self.old }
        ensures output { output_of self.new ≡ output_of self.old }
        ensures faults { faults_of self.new ≡ faults_of self.old }
        ensures first { reason_of self.new ≡ first_reason (reason_of self.old) reason }
    {
        if self.reason.is_none() {
            self.reason = Some(reason);
        }
    }

    // Hands a call of the disk on, and counts its error.
    fn count_error<T>(&mut self, answer: Result<T, Reason>) -> Result<T, Failed>
        ensures value { IfOk result (λ x. answer ≡ Ok x) }
        ensures ok { IfOk answer (λ x. result ≡ Ok x) }
        ensures cause { HasCause DiskRose (faults_of self.old) (faults_of self.new) result }
        ensures input { input_of self.new ≡ input_of self.old }
        ensures output { output_of self.new ≡ output_of self.old }
        ensures first { reason_of self.new ≡ reason_after answer (reason_of self.old) }
    {
        match answer {
            Ok(x) => Ok(x),
            Err(reason) => {
                self.keep_reason(reason);
                self.disk_faults = self.disk_faults.saturating_add(1);
                Err(Failed)
            }
        }
    }
}

impl<F: Files<File = File>, I: Read, O: Write> Site for FileSite<F, I, O> {
    ghost seen = { λ _. None };

    ghost faults = { faults_of };

    fn take(&mut self, buf: &mut [u8]) -> Result<usize, Failed>
        ensures fits { IfOk result (λ n. n ≤ length buf.old) }
        ensures cause { HasCause TakeRose (faults_of self.old) (faults_of self.new) result }
        ensures input { ReadConsumes (I.remaining (input_of self.old)) (I.remaining (input_of self.new)) result buf.new }
        ensures output { output_of self.new ≡ output_of self.old }
        ensures quiet { IfOk result (λ _. reason_of self.new ≡ reason_of self.old) }
        ensures told { OnErr result (IsSome (reason_of self.new)) }
    {
        match read_some(&mut self.input, buf) {
            Ok(n) => Ok(n),
            Err(e) => {
                self.keep_reason(Reason::new(Place::Input, e));
                self.take_faults = self.take_faults.saturating_add(1);
                Err(Failed)
            }
        }
    }

    /// A write that takes none of some bytes is a fault.
    fn tell(&mut self, bytes: &[u8]) -> Result<usize, Failed>
        ensures fits { IfOk result (λ n. n ≤ length bytes.now) }
        ensures some { IfOk result (λ n. 0 < length bytes.now → 0 < n) }
        ensures cause { HasCause TellRose (faults_of self.old) (faults_of self.new) result }
        ensures output { WriteAppends (O.contents (output_of self.old)) (O.contents (output_of self.new)) result bytes.now }
        ensures input { input_of self.new ≡ input_of self.old }
        ensures quiet { IfOk result (λ _. reason_of self.new ≡ reason_of self.old) }
        ensures told { OnErr result (IsSome (reason_of self.new)) }
    {
        match write_some(&mut self.output, bytes) {
            Ok(n) if n > 0 || bytes.is_empty() => Ok(n),
            answer => {
                self.keep_reason(Reason::new(Place::Output, write_error(answer)));
                self.tell_faults = self.tell_faults.saturating_add(1);
                Err(Failed)
            }
        }
    }

    fn size(&mut self, side: Side) -> Result<u64, Failed>
        ensures cause { HasCause DiskRose (faults_of self.old) (faults_of self.new) result }
        ensures input { input_of self.new ≡ input_of self.old }
        ensures output { output_of self.new ≡ output_of self.old }
        ensures quiet { IfOk result (λ _. reason_of self.new ≡ reason_of self.old) }
        ensures told { OnErr result (IsSome (reason_of self.new)) }
    {
        let answer = self.sides.size(side);
        self.count_error(answer)
    }

    fn read(&mut self, side: Side, at: u64, buf: &mut [u8]) -> Result<usize, Failed>
        ensures fits { IfOk result (λ n. n ≤ length buf.old) }
        ensures cause { HasCause DiskRose (faults_of self.old) (faults_of self.new) result }
        ensures input { input_of self.new ≡ input_of self.old }
        ensures output { output_of self.new ≡ output_of self.old }
        ensures quiet { IfOk result (λ _. reason_of self.new ≡ reason_of self.old) }
        ensures told { OnErr result (IsSome (reason_of self.new)) }
    {
        let answer = self.sides.read(side, at, buf);
        self.count_error(answer)
    }

    fn write(&mut self, side: Side, at: u64, bytes: &[u8]) -> Result<(), Failed>
        ensures cause { HasCause DiskRose (faults_of self.old) (faults_of self.new) result }
        ensures input { input_of self.new ≡ input_of self.old }
        ensures output { output_of self.new ≡ output_of self.old }
        ensures quiet { IfOk result (λ _. reason_of self.new ≡ reason_of self.old) }
        ensures told { OnErr result (IsSome (reason_of self.new)) }
    {
        let answer = self.sides.write(side, at, bytes);
        self.count_error(answer)
    }

    fn sync(&mut self, side: Side) -> Result<(), Failed>
        ensures cause { HasCause DiskRose (faults_of self.old) (faults_of self.new) result }
        ensures input { input_of self.new ≡ input_of self.old }
        ensures output { output_of self.new ≡ output_of self.old }
        ensures quiet { IfOk result (λ _. reason_of self.new ≡ reason_of self.old) }
        ensures told { OnErr result (IsSome (reason_of self.new)) }
    {
        let answer = self.sides.sync(side);
        self.count_error(answer)
    }
}

// The error of a write; one that took nothing of some bytes has that of Rust's `write_all`.
fn write_error(answer: io::Result<usize>) -> io::Error {
    match answer {
        Ok(_) => io::Error::from(ErrorKind::WriteZero),
        Err(e) => e,
    }
}
