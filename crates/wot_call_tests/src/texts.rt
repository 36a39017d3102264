//! Texts of quoted fields, and lines of ownertrust.

use std::alloc::Global;
use std::test::Fail;
use wot_fields::quote;
use wot_ownertrust::write_line;
use wot_types::{Entry, Fpr, Text, Trust};

// Whether a text is printed as this field.
fn is_quoted(alloc: Global, text: &[u8], field: &[u8]) -> Result<bool, Fail> {
    let text = Text::from_bytes(alloc, text)?;
    Ok(quote(alloc, &text)?.as_bytes() == field)
}

#[test]
fn control_bytes_colon_and_backslash_are_escaped(rt: HostRuntime) -> Result<(), Fail> {
    let alloc = rt.alloc();
    assert!(rt; is_quoted(alloc, b"", b"")?);
    assert!(rt; is_quoted(alloc, b"A <a@example.org>", b"A <a@example.org>")?);
    assert!(rt; is_quoted(alloc, b"a:b\\c\n\xc3\xa9", b"a\\x3ab\\x5cc\\x0a\xc3\xa9")?);
    assert!(rt; is_quoted(alloc, b"\0\x1f \x7e\x7f\x80", b"\\x00\\x1f \x7e\\x7f\x80")?);
    Ok(())
}

/// Two fingerprints of version 4, and one of a later version.
const A: &[u8] = b"00000000000000000000000000000000000000aa";

const B: &[u8] = b"00000000000000000000000000000000000000BB";

const LONG: &[u8] = b"1122334455667788000000000000000000000000000000000000000000000000";

/// The lines of the first that is trusted ultimately, of the second that is disabled too, and of the third that is disabled alone.
const LINE_A: &[u8] = b"00000000000000000000000000000000000000AA:6:";

const LINE_B: &[u8] = b"00000000000000000000000000000000000000BB:134:";

const LINE_LONG: &[u8] = b"1122334455667788000000000000000000000000000000000000000000000000:128:";

// Whether the entry of the fingerprint with these digits is written as this line.
fn is_written(
    alloc: Global,
    fpr: &[u8],
    trust: Trust,
    disabled: bool,
    line: &[u8],
) -> Result<bool, Fail> {
    let entry = Entry {
        fpr: Fpr::from_hex(fpr).ok_or("a fingerprint")?,
        trust,
        disabled,
    };
    Ok(write_line(alloc, &entry)?.as_bytes() == line)
}

#[test]
fn a_line_has_fingerprint_and_number(rt: HostRuntime) -> Result<(), Fail> {
    let alloc = rt.alloc();
    assert!(rt; is_written(alloc, A, Trust::Ultimate, false, LINE_A)?);
    assert!(rt; is_written(alloc, B, Trust::Ultimate, true, LINE_B)?);
    assert!(rt; is_written(alloc, LONG, Trust::Unknown, true, LINE_LONG)?);
    Ok(())
}
