//! The line of a refused command.

ghost use Rattle.std.specs.Prelude.{◌≡◌, ◌++◌, IfOk, OnOk};
ghost use Rattle.wot_types.specs.Refusals.{fault_name, limit_name, ownertrust_fault_name, refusal_text, reply_line};

use crate::fields::push_key_id;
use std::alloc::Global;
use wot_fields::{Printed, Sink, push_number};
use wot_types::{KeyId, Limit, ListingFault, ListingWhat, Mem, OwnertrustFault, Refusal};

/// The whole `err` line that says why a command is refused.
pub fn refused(alloc: Global, refusal: &Refusal) -> Result<Vec<u8>, Mem>
    ensures { IfOk result (λ text. text.items ≡ reply_line (refusal_text refusal.now)) }
{
    let mut text = Printed::new(alloc);
    push_refusal(&mut text, refusal)?;
    text.push(b'\n')?;
    text.into_vec()
}

fn push_refusal(text: &mut Printed, refusal: &Refusal) -> Result<(), Mem>
    ensures { OnOk result (text.new ≡ text.old ++ refusal_text refusal.now) }
{
    match refusal {
        Refusal::LineTooLong => text.push_bytes(b"err line-too-long"),
        Refusal::UnknownCommand => text.push_bytes(b"err unknown-command"),
        Refusal::BadArgument(number) => push_bad_argument(text, *number),
        Refusal::UnendedBlock => text.push_bytes(b"err unended-block"),
        Refusal::Listing(fault) => push_bad_listing(text, *fault),
        Refusal::Ownertrust(line, what) => push_bad_ownertrust(text, *line, *what),
        Refusal::NoSuchTime(edits) => push_no_such_time(text, *edits),
        Refusal::NoSuchKey => text.push_bytes(b"err no-such-key"),
        Refusal::NoSuchUser => text.push_bytes(b"err no-such-user"),
        Refusal::Full(limit) => push_full(text, *limit),
        Refusal::KeyIdTaken(id) => push_taken(text, *id),
        Refusal::JournalFull => text.push_bytes(b"err journal-full"),
    }
}

fn push_bad_argument(text: &mut Printed, number: u32) -> Result<(), Mem>
    ensures { OnOk result (text.new ≡ text.old ++ refusal_text (Refusal.BadArgument number)) }
{
    text.push_bytes(b"err bad-argument ")?;
    push_number(text, u64::from(number))?;
    Ok(())
}

fn push_bad_listing(text: &mut Printed, fault: ListingFault) -> Result<(), Mem>
    ensures { OnOk result (text.new ≡ text.old ++ refusal_text (Refusal.Listing fault)) }
{
    text.push_bytes(b"err listing ")?;
    push_number(text, fault.line)?;
    text.push(b' ')?;
    text.push_bytes(fault_name(fault.what).as_bytes())?;
    Ok(())
}

fn push_bad_ownertrust(text: &mut Printed, line: u64, what: OwnertrustFault) -> Result<(), Mem>
    ensures { OnOk result (text.new ≡ text.old ++ refusal_text (Refusal.Ownertrust line what)) }
{
    text.push_bytes(b"err ownertrust ")?;
    push_number(text, line)?;
    text.push(b' ')?;
    text.push_bytes(ownertrust_fault_name(what).as_bytes())?;
    Ok(())
}

fn push_no_such_time(text: &mut Printed, edits: u64) -> Result<(), Mem>
    ensures { OnOk result (text.new ≡ text.old ++ refusal_text (Refusal.NoSuchTime edits)) }
{
    text.push_bytes(b"err no-such-time ")?;
    push_number(text, edits)?;
    Ok(())
}

fn push_full(text: &mut Printed, limit: Limit) -> Result<(), Mem>
    ensures { OnOk result (text.new ≡ text.old ++ refusal_text (Refusal.Full limit)) }
{
    text.push_bytes(b"err full ")?;
    text.push_bytes(limit_name(limit).as_bytes())?;
    Ok(())
}

fn push_taken(text: &mut Printed, id: KeyId) -> Result<(), Mem>
    ensures { OnOk result (text.new ≡ text.old ++ refusal_text (Refusal.KeyIdTaken id)) }
{
    text.push_bytes(b"err key-id-taken ")?;
    push_key_id(text, id)?;
    Ok(())
}

fn fault_name(what: ListingWhat) -> &'static str
    ensures { result.now ≡ fault_name what }
{
    match what {
        ListingWhat::ShortRecord => "ShortRecord",
        ListingWhat::BadNumber => "BadNumber",
        ListingWhat::BadDate => "BadDate",
        ListingWhat::BadHex => "BadHex",
        ListingWhat::BadQuote => "BadQuote",
        ListingWhat::NoFingerprint => "NoFingerprint",
        ListingWhat::KeyIdDiffers => "KeyIdDiffers",
        ListingWhat::RepeatedKey => "RepeatedKey",
        ListingWhat::RepeatedUser => "RepeatedUser",
        ListingWhat::BadTrustField => "BadTrustField",
        ListingWhat::LimitReached(_) => "LimitReached",
    }
}

fn ownertrust_fault_name(what: OwnertrustFault) -> &'static str
    ensures { result.now ≡ ownertrust_fault_name what }
{
    match what {
        OwnertrustFault::BadFingerprint => "BadFingerprint",
        OwnertrustFault::BadValue => "BadValue",
        OwnertrustFault::BadShape => "BadShape",
    }
}

fn limit_name(limit: Limit) -> &'static str
    ensures { result.now ≡ limit_name limit }
{
    match limit {
        Limit::Keys => "keys",
        Limit::Users => "users",
        Limit::Certs => "certs",
        Limit::Text => "text",
        Limit::Trusts => "trusts",
        Limit::Record => "record",
        Limit::Scope => "scope",
    }
}
