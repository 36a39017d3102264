//! Reading the parts of a spelling, from the front.

ghost use Rattle.std.specs.Prelude.{◌≡◌, ◌==◌, ◌<◌, ◌^◌, ◌++◌, OnOk, length};
ghost use Rattle.wot_spelling.specs.Reading.{Gives, GivesSeen, bytes_at, number_1_at, number_4_at, number_8_at, flag_at, text_at, scope_at, via_at, fpr_at, issuer_fpr_at, trust_at, ownertrust_at, user_kind_at, options_at, list_at};

use crate::no_value::NoValue;
use crate::writer::Writer;
use std::alloc::Global;
use std::marker::Model;
use wot_types::{
    Caps, Form, Format, Fpr, KeyId, List, Mem, Options, Ownertrust, Scope, Text, Trust, UserHash,
    UserKind,
};

/// A row without a scope, the shortest part that stands in a list, takes so many bytes.
const SHORTEST: usize = 12;

/// The bytes that are left to read.
#[derive(Drop)]
pub struct Reader<'a> {
    rest: &'a [u8],
}

impl<'a> Model for Reader<'a> {
    ghost use Rattle.std.specs.Prelude.{List, ℕ};

    ghost Value = { List ℕ };

    ghost view = { λ r. r.rest.now };
}

/// What stands in a list: a value that is read from the front, and written at the end.
pub trait Part: Drop {
    ghost use Rattle.std.specs.Prelude.{List, ℕ, Option};

    /// What tells the spellings that are read from one another, where there are several.
    type Spelling: Copy;

    /// Its spelling that is written.
    ghost bytes: { Self → List ℕ };

    /// Its numbers and lengths are within their bytes.
    ghost Fits: { Self → Type 0 };

    /// The part at the front of the bytes.
    ghost at: { Self.Spelling → List ℕ → Option (Self × List ℕ) };

    fn read(
        alloc: Global,
        spelling: Self::Spelling,
        reader: &mut Reader<'_>,
    ) -> Result<Self, NoValue>
        ensures { Gives (at spelling reader.old) result reader.new };

    fn write(&self, writer: &mut Writer) -> Result<(), Mem>
        requires { length (bytes self.now) < 2 ^ 32 }
        ensures ok { OnOk result (writer.new ≡ writer.old ++ bytes self.now) }
        ensures fits { OnOk result (Fits self.now) };
}

impl<'a> Reader<'a> {
    pub fn new(bytes: &'a [u8]) -> Reader<'a>
        ensures { result ≡ bytes.now }
    {
        Reader { rest: bytes }
    }

    /// How many bytes are left.
    pub fn len(&self) -> usize
        ensures { result ≡ length self.now }
    {
        self.rest.len()
    }

    /// Whether nothing is left.
    pub fn is_empty(&self) -> bool
        ensures { result ≡ (length self.now == 0) }
    {
        self.rest.is_empty()
    }

    #[tactic(auto, unfolding(crate::specs::Reading::bytes_at))]
    fn bytes(&mut self, n: usize) -> Result<&'a [u8], NoValue>
        ensures { GivesSeen (λ b. b.now) (bytes_at n self.old) result self.new }
    {
        let (front, rest) = self.rest.split_at_checked(n).ok_or(NoValue::NoSpelling)?;
        self.rest = rest;
        Ok(front)
    }

    #[tactic(auto, unfolding(crate::specs::Reading::number_1_at))]
    pub fn number_1(&mut self) -> Result<u8, NoValue>
        ensures { Gives (number_1_at self.old) result self.new }
    {
        match self.rest {
            [] => Err(NoValue::NoSpelling),
            [byte, rest @ ..] => {
                self.rest = rest;
                Ok(*byte)
            }
        }
    }

    #[tactic(auto, unfolding(crate::specs::Reading::number_4_at, crate::specs::Reading::bytes_at))]
    pub fn number_4(&mut self) -> Result<u32, NoValue>
        ensures { Gives (number_4_at self.old) result self.new }
    {
        let (front, rest) = self
            .rest
            .split_first_chunk::<4>()
            .ok_or(NoValue::NoSpelling)?;
        self.rest = rest;
        Ok(u32::from_be_bytes(*front))
    }

    #[tactic(auto, unfolding(crate::specs::Reading::number_8_at, crate::specs::Reading::bytes_at))]
    pub fn number_8(&mut self) -> Result<u64, NoValue>
        ensures { Gives (number_8_at self.old) result self.new }
    {
        let (front, rest) = self
            .rest
            .split_first_chunk::<8>()
            .ok_or(NoValue::NoSpelling)?;
        self.rest = rest;
        Ok(u64::from_be_bytes(*front))
    }

    pub fn key_id(&mut self) -> Result<KeyId, NoValue>
        ensures { Gives (number_8_at self.old) result self.new }
    {
        Ok(KeyId(self.number_8()?))
    }

    #[tactic(auto, unfolding(crate::specs::Reading::flag_at))]
    pub fn flag(&mut self) -> Result<bool, NoValue>
        ensures { Gives (flag_at self.old) result self.new }
    {
        let (flag, rest) = match self.rest {
            [0, rest @ ..] => (false, rest),
            [1, rest @ ..] => (true, rest),
            _ => return Err(NoValue::NoSpelling),
        };
        self.rest = rest;
        Ok(flag)
    }

    /// The bytes of a text where they lie.
    #[tactic(auto, unfolding(crate::specs::Reading::text_at))]
    fn text_bytes(&mut self) -> Result<&'a [u8], NoValue>
        ensures { GivesSeen (λ b. b.now) (text_at self.old) result self.new }
    {
        let length = self.number_4()?;
        self.bytes(length as usize)
    }

    pub fn text(&mut self, alloc: Global) -> Result<Text, NoValue>
        ensures { Gives (text_at self.old) result self.new }
    {
        let bytes = self.text_bytes()?;
        Ok(Text::from_bytes(alloc, bytes)?)
    }

    /// The text of a key's capabilities.
    pub fn caps(&mut self, alloc: Global) -> Result<Caps, NoValue>
        ensures { Gives (text_at self.old) result self.new }
    {
        let bytes = self.text_bytes()?;
        Ok(Caps::from_bytes(alloc, bytes)?)
    }

    /// The text of a user ID's hash.
    pub fn hash(&mut self, alloc: Global) -> Result<UserHash, NoValue>
        ensures { Gives (text_at self.old) result self.new }
    {
        let bytes = self.text_bytes()?;
        Ok(UserHash::from_bytes(alloc, bytes)?)
    }

    #[tactic(auto, unfolding(crate::specs::Reading::scope_at))]
    pub fn scope(&mut self, alloc: Global) -> Result<Option<Scope>, NoValue>
        ensures { Gives (scope_at self.old) result self.new }
    {
        if !self.flag()? {
            return Ok(None);
        }
        let text = self.text(alloc)?;
        Ok(Some(Scope::new(alloc, text)?))
    }

    /// Who delegated to an introducer, which rows of the older formats don't tell.
    #[tactic(auto, unfolding(crate::specs::Reading::via_at))]
    pub fn via(&mut self, format: Format) -> Result<Option<KeyId>, NoValue>
        ensures { Gives (via_at format self.old) result self.new }
    {
        match format {
            Format::First | Format::Second => Ok(None),
            Format::Third(_) => {
                if self.flag()? {
                    Ok(Some(self.key_id()?))
                } else {
                    Ok(None)
                }
            }
        }
    }

    #[tactic(auto, unfolding(crate::specs::Reading::fpr_at))]
    pub fn fpr(&mut self) -> Result<Fpr, NoValue>
        ensures { Gives (fpr_at self.old) result self.new }
    {
        let length = self.number_1()?;
        let bytes = self.bytes(usize::from(length))?;
        Fpr::from_bytes(bytes).ok_or(NoValue::NoSpelling)
    }

    /// The fingerprint of a certification's issuer, which the first form doesn't have.
    #[tactic(auto, unfolding(crate::specs::Reading::issuer_fpr_at))]
    pub fn issuer_fpr(&mut self, form: Form) -> Result<Option<Fpr>, NoValue>
        ensures { Gives (issuer_fpr_at form self.old) result self.new }
    {
        match form {
            Form::WithoutFpr => Ok(None),
            Form::WithFpr => {
                if self.flag()? {
                    Ok(Some(self.fpr()?))
                } else {
                    Ok(None)
                }
            }
        }
    }

    #[tactic(auto, unfolding(crate::specs::Reading::trust_at))]
    pub fn trust(&mut self) -> Result<Trust, NoValue>
        ensures { Gives (trust_at self.old) result self.new }
    {
        let number = self.number_1()?;
        Trust::from_number(number).ok_or(NoValue::NoSpelling)
    }

    /// A trust number, plus 128 where the key is disabled.
    #[tactic(auto, unfolding(crate::specs::Reading::ownertrust_at))]
    pub fn ownertrust(&mut self) -> Result<Ownertrust, NoValue>
        ensures { Gives (ownertrust_at self.old) result self.new }
    {
        let number = self.number_1()?;
        Ownertrust::from_number(u32::from(number)).ok_or(NoValue::NoSpelling)
    }

    #[tactic(auto, unfolding(crate::specs::Reading::user_kind_at))]
    pub fn user_kind(&mut self) -> Result<UserKind, NoValue>
        ensures { Gives (user_kind_at self.old) result self.new }
    {
        if self.flag()? {
            Ok(UserKind::Uat)
        } else {
            Ok(UserKind::Uid)
        }
    }

    #[tactic(auto, unfolding(crate::specs::Reading::options_at))]
    pub fn options(&mut self) -> Result<Options, NoValue>
        ensures { Gives (options_at self.old) result self.new }
    {
        let pgp = self.flag()?;
        let completes = self.number_4()?;
        let marginals = self.number_4()?;
        let depth = self.number_1()?;
        let level = self.number_1()?;
        Ok(Options {
            pgp,
            completes,
            marginals,
            depth,
            level,
        })
    }

    #[tactic(auto, unfolding(crate::specs::Reading::list_at))]
    /// A count, and that many parts. Room for them is taken at once, and for no more than the bytes that are left can spell: what is kept grows
    /// with the bytes, whatever the count.
    pub fn list<T: Part>(
        &mut self,
        alloc: Global,
        spelling: T::Spelling,
    ) -> Result<List<T>, NoValue>
        ensures { Gives (list_at (T.at spelling) self.old) result self.new }
    {
        let count = self.number_4()?;
        let room = (count as usize).min(self.len() / SHORTEST);
        let mut parts = List::with_capacity(alloc, room)?;
        for _ in 0..count {
            let part = T::read(alloc, spelling, self)?;
            parts.push(part)?;
        }
        Ok(parts)
    }
}
