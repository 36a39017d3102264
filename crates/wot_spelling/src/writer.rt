//! Writing the parts of a spelling, one after the other.

ghost use Rattle.std.specs.Prelude.{◌≡◌, ◌<◌, ◌≤◌, ◌-◌, ◌^◌, ◌++◌, [], IfOk, OnOk, IfSome, drop, length};
ghost use Rattle.wot_types.specs.declared.cert.Form.TheVariants.{WithFpr};
ghost use Rattle.wot_types.specs.Fingerprint.{IsFprLength};
ghost use Rattle.wot_types.specs.Ownertrust.{ownertrust_number};
ghost use Rattle.wot_types.specs.Spelling.{FitsItsLength, ListFits, OptionsFit, number_1, number_4, number_8, flag_bytes, text_bytes, scope_bytes, via_bytes, fpr_bytes, issuer_fpr_bytes, trust_bytes, kind_bytes, options_bytes, list_bytes};

use crate::numbers::{number_4, number_8};
use crate::reader::Part;
use std::alloc::Global;
use std::marker::Model;
use wot_types::{Fpr, KeyId, List, Mem, Options, Ownertrust, Scope, Trust, UserKind};

/// The bytes that are written.
#[derive(Drop)]
pub struct Writer {
    out: Vec<u8>,
}

impl Model for Writer {
    ghost use Rattle.std.specs.Prelude.{List, ℕ};

    ghost Value = { List ℕ };

    ghost view = { λ w. w.out.items };
}

impl Writer {
    /// With room for that many bytes, so that writing these moves none.
    pub fn with_room(alloc: Global, room: usize) -> Result<Writer, Mem>
        ensures { IfOk result (λ writer. writer ≡ []) }
    {
        let out = Vec::with_capacity(alloc, room)?;
        Ok(Writer { out })
    }

    /// Writes over the first eight bytes how many bytes follow them.
    #[tactic(auto, unfolding(wot_types::specs::Spelling::number_8))]
    pub fn set_length(&mut self)
        requires { 8 ≤ length self.old }
        ensures set { self.new ≡ number_8 (length self.old - 8) ++ drop 8 self.old }
        ensures fits { length self.old < 2 ^ 64 }
    {
        let length = self.out.len() as u64 - 8;
        if let Some(front) = self.out.first_chunk_mut::<8>() {
            *front = length.to_be_bytes();
        }
    }

    pub fn into_vec(self) -> Vec<u8>
        ensures { result.items ≡ self }
    {
        let Writer { out } = self;
        out
    }

    pub(crate) fn bytes(&mut self, bytes: &[u8]) -> Result<(), Mem>
        ensures { OnOk result (self.new ≡ self.old ++ bytes.now) }
    {
        self.out.extend_from_slice(bytes)?;
        Ok(())
    }

    #[tactic(auto, unfolding(wot_types::specs::Spelling::number_1))]
    pub fn number_1(&mut self, n: u8) -> Result<(), Mem>
        ensures { OnOk result (self.new ≡ self.old ++ number_1 n) }
    {
        self.out.push(n)?;
        Ok(())
    }

    pub fn number_4(&mut self, n: u32) -> Result<(), Mem>
        ensures ok { OnOk result (self.new ≡ self.old ++ number_4 n) }
        ensures fits { n < 2 ^ 32 }
    {
        self.out.extend_from_slice(&number_4(n))?;
        Ok(())
    }

    pub fn number_8(&mut self, n: u64) -> Result<(), Mem>
        ensures ok { OnOk result (self.new ≡ self.old ++ number_8 n) }
        ensures fits { n < 2 ^ 64 }
    {
        self.out.extend_from_slice(&number_8(n))?;
        Ok(())
    }

    pub fn key_id(&mut self, id: KeyId) -> Result<(), Mem>
        ensures ok { OnOk result (self.new ≡ self.old ++ number_8 id) }
        ensures fits { id < 2 ^ 64 }
    {
        self.number_8(id.0)
    }

    #[tactic(auto, unfolding(wot_types::specs::Spelling::flag_bytes, wot_types::specs::Spelling::number_1))]
    pub fn flag(&mut self, flag: bool) -> Result<(), Mem>
        ensures { OnOk result (self.new ≡ self.old ++ flag_bytes flag) }
    {
        self.number_1(u8::from(flag))
    }

    #[tactic(auto, unfolding(wot_types::specs::Spelling::text_bytes))]
    pub fn text(&mut self, text: &[u8]) -> Result<(), Mem>
        requires { FitsItsLength text.now }
        ensures { OnOk result (self.new ≡ self.old ++ text_bytes text.now) }
    {
        self.number_4(text.len() as u32)?;
        self.out.extend_from_slice(text)?;
        Ok(())
    }

    /// Who delegated to an introducer.
    #[tactic(auto, unfolding(wot_types::specs::Spelling::via_bytes))]
    pub fn via(&mut self, via: Option<KeyId>) -> Result<(), Mem>
        ensures ok { OnOk result (self.new ≡ self.old ++ via_bytes via) }
        ensures fits { IfSome via (λ id. id < 2 ^ 64) }
    {
        match via {
            None => self.flag(false),
            Some(id) => {
                self.flag(true)?;
                self.key_id(id)
            }
        }
    }

    #[tactic(auto, unfolding(wot_types::specs::Spelling::scope_bytes))]
    pub fn scope(&mut self, scope: &Option<Scope>) -> Result<(), Mem>
        requires { IfSome scope.now FitsItsLength }
        ensures { OnOk result (self.new ≡ self.old ++ scope_bytes scope.now) }
    {
        match scope {
            None => self.flag(false),
            Some(scope) => {
                self.flag(true)?;
                self.text(scope.as_text().as_bytes())
            }
        }
    }

    #[tactic(auto, unfolding(wot_types::specs::Spelling::fpr_bytes, wot_types::specs::Spelling::number_1))]
    pub fn fpr(&mut self, fpr: &Fpr) -> Result<(), Mem>
        ensures ok { OnOk result (self.new ≡ self.old ++ fpr_bytes fpr.now) }
        ensures fits { IsFprLength fpr.now }
    {
        let bytes = fpr.as_bytes();
        self.number_1(bytes.len() as u8)?;
        self.out.extend_from_slice(bytes)?;
        Ok(())
    }

    /// The fingerprint of a certification's issuer, where it is named.
    #[tactic(auto, unfolding(wot_types::specs::Spelling::issuer_fpr_bytes))]
    pub fn issuer_fpr(&mut self, named: &Option<Fpr>) -> Result<(), Mem>
        ensures ok { OnOk result (self.new ≡ self.old ++ issuer_fpr_bytes WithFpr named.now) }
        ensures fits { OnOk result (IfSome named.now IsFprLength) }
    {
        match named {
            None => self.flag(false),
            Some(fpr) => {
                self.flag(true)?;
                self.fpr(fpr)
            }
        }
    }

    #[tactic(auto, unfolding(wot_types::specs::Spelling::trust_bytes, wot_types::specs::Spelling::number_1))]
    pub fn trust(&mut self, trust: Trust) -> Result<(), Mem>
        ensures { OnOk result (self.new ≡ self.old ++ trust_bytes trust) }
    {
        self.number_1(trust.number())
    }

    pub fn ownertrust(&mut self, kept: &Ownertrust) -> Result<(), Mem>
        ensures { OnOk result (self.new ≡ self.old ++ number_1 (ownertrust_number kept.now)) }
    {
        self.number_1(kept.number())
    }

    #[tactic(auto, unfolding(wot_types::specs::Spelling::kind_bytes, wot_types::specs::Spelling::number_1))]
    pub fn user_kind(&mut self, kind: UserKind) -> Result<(), Mem>
        ensures { OnOk result (self.new ≡ self.old ++ kind_bytes kind) }
    {
        match kind {
            UserKind::Uid => self.number_1(0),
            UserKind::Uat => self.number_1(1),
        }
    }

    #[tactic(auto, unfolding(wot_types::specs::Spelling::options_bytes))]
    pub fn options(&mut self, options: &Options) -> Result<(), Mem>
        ensures ok { OnOk result (self.new ≡ self.old ++ options_bytes options.now) }
        ensures fits { OnOk result (OptionsFit options.now) }
    {
        self.flag(options.pgp)?;
        self.number_4(options.completes)?;
        self.number_4(options.marginals)?;
        self.number_1(options.depth)?;
        self.number_1(options.level)?;
        Ok(())
    }

    /// How many there are, and then each.
    pub fn list<T: Part>(&mut self, parts: &List<T>) -> Result<(), Mem>
        requires few { length parts.now < 2 ^ 32 }
        requires room { length (list_bytes T.bytes parts.now) < 2 ^ 32 }
        ensures ok { OnOk result (self.new ≡ self.old ++ list_bytes T.bytes parts.now) }
        ensures fits { OnOk result (ListFits T.Fits parts.now) }
    {
        self.slice(parts.as_slice())
    }

    #[tactic(auto, unfolding(wot_types::specs::Spelling::list_bytes))]
    pub fn slice<T: Part>(&mut self, parts: &[T]) -> Result<(), Mem>
        requires few { length parts.now < 2 ^ 32 }
        requires room { length (list_bytes T.bytes parts.now) < 2 ^ 32 }
        ensures ok { OnOk result (self.new ≡ self.old ++ list_bytes T.bytes parts.now) }
        ensures fits { OnOk result (ListFits T.Fits parts.now) }
    {
        self.number_4(parts.len() as u32)?;
        for part in parts {
            part.write(self)?;
        }
        Ok(())
    }
}
