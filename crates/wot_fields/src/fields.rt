//! Fields of a line, which colons separate and which are numbered from 1.

ghost use Rattle.std.specs.Prelude.{◌≡◌};
ghost use Rattle.std.specs.Option.{option_copied};
ghost use Rattle.wot_types.specs.Fields as listing;

use crate::colons::Colons;
use std::marker::Model;

/// How many fields are found when a line is split. A listing's records have no more that are read.
const MOST: usize = 13;

/// A line and where its first 13 fields stand. It takes no memory.
#[derive(Drop)]
pub struct Fields<'a> {
    line: &'a [u8],
    /// Where each field begins, and for the last one where the next would.
    starts: [usize; 14],
    count: usize,
}

impl<'a> Model for Fields<'a> {
    ghost use Rattle.std.specs.Prelude.{List, ℕ};
    ghost use Rattle.wot_fields.specs.FieldStarts.{AreFieldStarts};

    ghost Value = { List ℕ };

    ghost view = { λ f. f.line.now };

    ghost invariant = { λ f. AreFieldStarts f.line.now f.starts f.count };
}

impl<'a> Fields<'a> {
    /// Finds the fields in one pass over the line, which ends at the 13th colon.
    pub fn new(line: &'a [u8]) -> Fields<'a>
        ensures { result ≡ line.now }
    {
        let mut starts = [0; 14];
        let mut count = 0;
        let mut colons = Colons::of(line);
        while count < MOST {
            let (end, rest) = colons.next(line);
            colons = rest;
            count += 1;
            starts[count] = end + 1;
            if end == line.len() {
                return Fields {
                    line,
                    starts,
                    count,
                };
            }
        }
        Fields {
            line,
            starts,
            count,
        }
    }

    /// The n-th field, and None where there are fewer or n is 0.
    pub fn get(&self, n: u32) -> Option<&'a [u8]>
        ensures { option_copied result ≡ listing.field_at n self.now }
    {
        let at = n.checked_sub(1)? as usize;
        if at < self.count {
            Some(&self.line[self.starts[at]..self.starts[at + 1] - 1])
        } else if self.count < MOST {
            None
        } else {
            field(self.line, n)
        }
    }

    /// The n-th field; a missing field is empty.
    pub fn get_or_empty(&self, n: u32) -> &'a [u8]
        ensures { result.now ≡ listing.field n self.now }
    {
        self.get(n).unwrap_or(&[])
    }

    /// Whether there are fewer than n fields.
    pub fn has_fewer(&self, n: u32) -> bool
        ensures { result ≡ listing.has_fewer n self.now }
    {
        if self.count < MOST {
            self.count < n as usize
        } else {
            n as usize > MOST && has_fewer(self.line, n)
        }
    }
}

/// The n-th field of a line, and None where there are fewer or n is 0.
pub fn field(line: &[u8], n: u32) -> Option<&[u8]>
    ensures { option_copied result ≡ listing.field_at n line.now }
{
    let skipped = n.checked_sub(1)?;
    line.split(|b| *b == b':').nth(skipped as usize)
}

/// Whether a line has fewer than n fields.
fn has_fewer(line: &[u8], n: u32) -> bool
    ensures { result ≡ listing.has_fewer n line.now }
{
    line.split(|b| *b == b':').count() < n as usize
}
