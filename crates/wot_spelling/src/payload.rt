//! The payloads of the journal's records.

ghost use Rattle.std.specs.Prelude.{◌≡◌, ◌++◌, ◌≤◌, List, ℕ, length, OnOk, IfOk, IfSome, IfNone};
ghost use Rattle.wot_types.specs.declared.edit.Edit.{Edit};
ghost use Rattle.wot_spelling.specs.Reading.{Gives};
ghost use Rattle.wot_types.specs.Limits.{most_record};
ghost use Rattle.wot_spelling.specs.Stored.{rows_at};
ghost use Rattle.wot_types.specs.declared.cert.Form.TheVariants.{WithFpr};
ghost use Rattle.wot_types.specs.Payload.{EditFits, IsPayload, IsProper, IsWritten, payload};
ghost use Rattle.wot_types.specs.Spelling.{text_bytes};
ghost use Rattle.wot_spelling.specs.Edits.{GivesAll, edit_at, edit_of, entries_at, keys_at, range_at, sample_count_at};

use crate::checks::{are_importable, are_settable, are_stored, is_in_range, is_sample_count};
use crate::no_value::NoValue;
use crate::reader::Reader;
use crate::sizes::payload_length;
use crate::writer::Writer;
use std::alloc::Global;
use wot_types::{Edit, Entries, Entry, Form, Format, Key, Keys, List, Mem, Options, Row};

// The first byte of a payload says which edit it is.

/// An import whose certifications name no fingerprint. It is read and not written.
const IMPORT_WITHOUT_FPRS: u8 = 1;

const OWNERTRUST: u8 = 2;

const SET: u8 = 3;

const FLAG: u8 = 4;

const DELETE: u8 = 5;

const DATE: u8 = 6;

const OPTIONS: u8 = 7;

const SAMPLE: u8 = 8;

const IMPORT: u8 = 9;

impl<'a> Reader<'a> {
    /// Keys to import: well formed, in strictly rising order of their key IDs.
    #[tactic(auto, unfolding(crate::specs::Edits::keys_at))]
    pub fn keys(&mut self, alloc: Global, form: Form) -> Result<Keys, NoValue>
        ensures { Gives (keys_at form self.old) result self.new }
    {
        let keys = self.list::<Key>(alloc, form)?;
        if are_importable(alloc, keys.as_slice())? {
            Ok(keys)
        } else {
            Err(NoValue::NoSpelling)
        }
    }

    /// Options in their ranges.
    #[tactic(auto, unfolding(crate::specs::Edits::range_at))]
    pub fn range(&mut self) -> Result<Options, NoValue>
        ensures { Gives (range_at self.old) result self.new }
    {
        let options = self.options()?;
        if is_in_range(&options) {
            Ok(options)
        } else {
            Err(NoValue::NoSpelling)
        }
    }

    /// Entries to set, in strictly rising order of their fingerprints.
    #[tactic(auto, unfolding(crate::specs::Edits::entries_at))]
    pub fn entries(&mut self, alloc: Global) -> Result<Entries, NoValue>
        ensures { Gives (entries_at self.old) result self.new }
    {
        let entries = self.list::<Entry>(alloc, ())?;
        if are_settable(entries.as_slice()) {
            Ok(entries)
        } else {
            Err(NoValue::NoSpelling)
        }
    }

    /// Rows with regular expressions of 1 to 255 bytes, in strictly rising order of their key IDs.
    #[tactic(auto, unfolding(crate::specs::Stored::rows_at))]
    pub fn rows(&mut self, alloc: Global, format: Format) -> Result<List<Row>, NoValue>
        ensures { Gives (rows_at format self.old) result self.new }
    {
        let rows = self.list::<Row>(alloc, format)?;
        if are_stored(rows.as_slice()) {
            Ok(rows)
        } else {
            Err(NoValue::NoSpelling)
        }
    }

    /// How many keys a sample has, within its range.
    #[tactic(auto, unfolding(crate::specs::Edits::sample_count_at))]
    fn sample_count(&mut self) -> Result<u32, NoValue>
        ensures { Gives (sample_count_at self.old) result self.new }
    {
        let count = self.number_4()?;
        if is_sample_count(count) {
            Ok(count)
        } else {
            Err(NoValue::NoSpelling)
        }
    }

    #[tactic(auto, unfolding(crate::specs::Edits::edit_at))]
    fn edit(&mut self, alloc: Global) -> Result<Edit, NoValue>
        ensures { Gives (edit_at self.old) result self.new }
    {
        match self.number_1()? {
            IMPORT_WITHOUT_FPRS => Ok(Edit::Import(self.keys(alloc, Form::WithoutFpr)?)),
            OWNERTRUST => Ok(Edit::Ownertrust(self.entries(alloc)?)),
            SET => {
                let fpr = self.fpr()?;
                let trust = self.trust()?;
                Ok(Edit::Set(fpr, trust))
            }
            FLAG => {
                let fpr = self.fpr()?;
                let disabled = self.flag()?;
                Ok(Edit::Flag(fpr, disabled))
            }
            DELETE => Ok(Edit::Delete(self.key_id()?)),
            DATE => Ok(Edit::Date(self.number_4()?)),
            OPTIONS => Ok(Edit::Options(self.range()?)),
            SAMPLE => {
                let seed = self.number_8()?;
                let count = self.sample_count()?;
                Ok(Edit::Sample(seed, count))
            }
            IMPORT => Ok(Edit::Import(self.keys(alloc, Form::WithFpr)?)),
            _ => Err(NoValue::NoSpelling),
        }
    }
}

#[tactic(auto, unfolding(crate::specs::Edits::edit_of))]
fn read_edit(alloc: Global, bytes: &[u8]) -> Result<Edit, NoValue>
    ensures { GivesAll (edit_of bytes.now) result }
{
    let mut reader = Reader::new(bytes);
    let edit = reader.edit(alloc)?;
    if reader.is_empty() {
        Ok(edit)
    } else {
        Err(NoValue::NoSpelling)
    }
}

#[tactic(auto, unfolding(wot_types::specs::Payload::payload_in))]
fn write_edit(writer: &mut Writer, edit: &Edit) -> Result<(), Mem>
    requires { length (payload edit.now) ≤ most_record }
    ensures ok { OnOk result (writer.new ≡ writer.old ++ payload edit.now) }
    ensures fits { OnOk result (EditFits WithFpr edit.now) }
{
    match edit {
        Edit::Import(keys) => {
            writer.number_1(IMPORT)?;
            writer.list(keys)
        }
        Edit::Ownertrust(entries) => {
            writer.number_1(OWNERTRUST)?;
            writer.list(entries)
        }
        Edit::Set(fpr, trust) => {
            writer.number_1(SET)?;
            writer.fpr(fpr)?;
            writer.trust(*trust)
        }
        Edit::Flag(fpr, disabled) => {
            writer.number_1(FLAG)?;
            writer.fpr(fpr)?;
            writer.flag(*disabled)
        }
        Edit::Delete(id) => {
            writer.number_1(DELETE)?;
            writer.key_id(*id)
        }
        Edit::Date(date) => {
            writer.number_1(DATE)?;
            writer.number_4(*date)
        }
        Edit::Options(options) => {
            writer.number_1(OPTIONS)?;
            writer.options(options)
        }
        Edit::Sample(seed, count) => {
            writer.number_1(SAMPLE)?;
            writer.number_8(*seed)?;
            writer.number_4(*count)
        }
    }
}

/// The one payload of an edit that is written. The journal writes it into the edit's record.
pub fn encode(alloc: Global, edit: &Edit) -> Result<Vec<u8>, Mem>
    requires proper { IsProper edit.now }
    requires room { length (payload edit.now) ≤ most_record }
    ensures spelled { IfOk result (λ bytes. IsWritten bytes.items edit.now) }
{
    let room = payload_length(edit) as usize;
    let mut writer = Writer::with_room(alloc, room)?;
    write_edit(&mut writer, edit)?;
    Ok(writer.into_vec())
}

/// The payload of an edit with its length in four bytes before it, as the edit's record has them. There is room for one byte more: the gate behind them.
#[tactic(auto, unfolding(wot_types::specs::Spelling::text_bytes))]
pub fn encode_with_length(alloc: Global, edit: &Edit) -> Result<Vec<u8>, Mem>
    requires proper { IsProper edit.now }
    requires room { length (payload edit.now) ≤ most_record }
    ensures spelled { IfOk result (λ bytes. bytes.items ≡ text_bytes (payload edit.now)) }
    ensures payload { IfOk result (λ _. IsWritten (payload edit.now) edit.now) }
{
    let length = payload_length(edit) as u32;
    let mut writer = Writer::with_room(alloc, length as usize + 5)?;
    writer.number_4(length)?;
    write_edit(&mut writer, edit)?;
    Ok(writer.into_vec())
}

/// The edit that the bytes spell, all of them, and None where they spell none. What it takes of memory grows with the bytes, whatever counts they hold.
pub fn decode(alloc: Global, bytes: &[u8]) -> Result<Option<Edit>, Mem>
    ensures found { IfOk result (λ found. IfSome found (λ edit. IsPayload bytes.now edit)) }
    ensures none { IfOk result (λ found. IfNone found ((edit : Edit) → IsPayload bytes.now edit → ⊥)) }
{
    match read_edit(alloc, bytes) {
        Ok(edit) => Ok(Some(edit)),
        Err(NoValue::NoSpelling) => Ok(None),
        Err(NoValue::Memory) => Err(Mem::Memory),
    }
}

/// No payload begins another, and each spells one edit; an edit has one that is written.
pub fn one_payload()
    ensures written { (a b : List ℕ) (x : Edit) → IsWritten a x → IsWritten b x → a ≡ b }
    ensures alone { (a b r s : List ℕ) (x y : Edit) → IsPayload a x → IsPayload b y → a ++ r ≡ b ++ s → (a ≡ b) × (x ≡ y) }
{}
