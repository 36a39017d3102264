//! Reading the values that stand in lists.

ghost use Rattle.std.specs.Prelude.{◌≡◌, ◌<◌, ◌^◌, ◌++◌, OnOk, is_some, length};
ghost use Rattle.wot_types.specs.Spelling.{number_1, number_4, number_8, flag_bytes, cert_bytes, user_bytes, key_bytes, entry_bytes, EntryFits, CertFits, UserFits, KeyFits, row_bytes, RowFits};
ghost use Rattle.wot_types.specs.declared.cert.Form.TheVariants.{WithFpr};
ghost use Rattle.wot_spelling.specs.Reading.{cert_at, user_at, key_at, entry_at, row_at};

use crate::fields::{KeyFields, UserFields};
use crate::no_value::NoValue;
use crate::numbers::{number_4, number_8};
use crate::reader::{Part, Reader};
use crate::writer::Writer;
use std::alloc::Global;
use wot_types::{
    Cert, Entry, Form, Format, Key, Mem, Ownertrust, PackedCert, PackedPlaced, Row, User,
};

impl Part for PackedCert {
    type Spelling = Form;

    ghost bytes = { cert_bytes WithFpr };

    ghost Fits = { CertFits WithFpr };

    ghost at = { cert_at };

    #[tactic(auto, unfolding(crate::specs::Reading::cert_at))]
    fn read(alloc: Global, form: Form, reader: &mut Reader<'_>) -> Result<PackedCert, NoValue> {
        let issuer = reader.key_id()?;
        let class = reader.number_1()?;
        let local = reader.flag()?;
        let made = reader.number_4()?;
        let expires = reader.number_4()?;
        let depth = reader.number_1()?;
        let amount = reader.number_1()?;
        let scope = reader.scope(alloc)?;
        let issuer_fpr = reader.issuer_fpr(form)?;
        let cert = Cert {
            issuer,
            class,
            local,
            made,
            expires,
            depth,
            amount,
            scope,
            issuer_fpr,
        };
        Ok(PackedCert::pack(alloc, cert)?)
    }

    fn write(&self, writer: &mut Writer) -> Result<(), Mem> {
        writer.cert(self.as_placed())
    }
}

impl Writer {
    /// A certification without its place.
    #[tactic(auto, unfolding(wot_types::specs::Spelling::cert_bytes, wot_types::specs::Spelling::scope_bytes))]
    pub fn cert(&mut self, placed: &PackedPlaced) -> Result<(), Mem>
        requires { length (cert_bytes WithFpr placed.now.cert) < 2 ^ 32 }
        ensures ok { OnOk result (self.new ≡ self.old ++ cert_bytes WithFpr placed.now.cert) }
        ensures fits { OnOk result (CertFits WithFpr placed.now.cert) }
    {
        self.bytes(&cert_numbers(placed))?;
        if let Some(scope) = placed.scope() {
            self.text(scope.as_text().as_bytes())?;
        }
        self.issuer_fpr(&placed.issuer_fpr())
    }
}

/// A certification up to the text of its scope. One piece is written faster than eight.
#[tactic(auto, unfolding(wot_types::specs::Spelling::number_1, wot_types::specs::Spelling::number_4, wot_types::specs::Spelling::number_8, wot_types::specs::Spelling::flag_bytes))]
fn cert_numbers(placed: &PackedPlaced) -> [u8; 21]
    ensures spelled { result ≡ number_8 placed.now.cert.issuer ++ (number_1 placed.now.cert.class ++ (flag_bytes placed.now.cert.local ++ (number_4 placed.now.cert.made ++ (number_4 placed.now.cert.expires ++ (number_1 placed.now.cert.depth ++ (number_1 placed.now.cert.amount ++ flag_bytes (is_some placed.now.cert.scope))))))) }
    ensures issuer { placed.now.cert.issuer < 2 ^ 64 }
    ensures made { placed.now.cert.made < 2 ^ 32 }
    ensures expires { placed.now.cert.expires < 2 ^ 32 }
{
    let [i0, i1, i2, i3, i4, i5, i6, i7] = number_8(placed.issuer().0);
    let [m0, m1, m2, m3] = number_4(placed.made());
    let [e0, e1, e2, e3] = number_4(placed.expires());
    let local = u8::from(placed.is_local());
    let scope = u8::from(placed.scope().is_some());
    let (class, depth, amount) = (placed.class(), placed.depth(), placed.amount());
    [
        i0, i1, i2, i3, i4, i5, i6, i7, class, local, m0, m1, m2, m3, e0, e1, e2, e3, depth,
        amount, scope,
    ]
}

impl Part for User {
    type Spelling = Form;

    ghost bytes = { user_bytes WithFpr };

    ghost Fits = { UserFits WithFpr };

    ghost at = { user_at };

    #[tactic(auto, unfolding(crate::specs::Reading::user_at))]
    fn read(alloc: Global, form: Form, reader: &mut Reader<'_>) -> Result<User, NoValue> {
        let kind = reader.user_kind()?;
        let text = reader.text(alloc)?;
        let hash = reader.hash(alloc)?;
        let made = reader.number_4()?;
        let expires = reader.number_4()?;
        let revoked = reader.flag()?;
        let certs = reader.list::<PackedCert>(alloc, form)?;
        Ok(User {
            kind,
            text,
            hash,
            made,
            expires,
            revoked,
            certs,
        })
    }

    fn write(&self, writer: &mut Writer) -> Result<(), Mem> {
        writer.user_fields(&UserFields {
            kind: self.kind,
            text: &self.text,
            hash: &self.hash,
            made: self.made,
            expires: self.expires,
            revoked: self.revoked,
        })?;
        writer.list(&self.certs)?;
        Ok(())
    }
}

impl Part for Key {
    type Spelling = Form;

    ghost bytes = { key_bytes WithFpr };

    ghost Fits = { KeyFits WithFpr };

    ghost at = { key_at };

    #[tactic(auto, unfolding(crate::specs::Reading::key_at))]
    fn read(alloc: Global, form: Form, reader: &mut Reader<'_>) -> Result<Key, NoValue> {
        let fpr = reader.fpr()?;
        let bits = reader.number_4()?;
        let algo = reader.number_4()?;
        let made = reader.number_4()?;
        let expires = reader.number_4()?;
        let revoked = reader.flag()?;
        let caps = reader.caps(alloc)?;
        let users = reader.list::<User>(alloc, form)?;
        Ok(Key {
            fpr,
            bits,
            algo,
            made,
            expires,
            revoked,
            caps,
            users,
        })
    }

    fn write(&self, writer: &mut Writer) -> Result<(), Mem> {
        writer.key_fields(&KeyFields {
            fpr: &self.fpr,
            bits: self.bits,
            algo: self.algo,
            made: self.made,
            expires: self.expires,
            revoked: self.revoked,
            caps: &self.caps,
        })?;
        writer.list(&self.users)?;
        Ok(())
    }
}

impl Part for Entry {
    type Spelling = ();

    ghost bytes = { entry_bytes };

    ghost Fits = { EntryFits };

    ghost at = { λ _. entry_at };

    #[tactic(auto, unfolding(crate::specs::Reading::entry_at))]
    fn read(_alloc: Global, _spelling: (), reader: &mut Reader<'_>) -> Result<Entry, NoValue> {
        let fpr = reader.fpr()?;
        let Ownertrust { trust, disabled } = reader.ownertrust()?;
        Ok(Entry {
            fpr,
            trust,
            disabled,
        })
    }

    #[tactic(auto, unfolding(wot_types::specs::Spelling::entry_bytes))]
    fn write(&self, writer: &mut Writer) -> Result<(), Mem> {
        writer.fpr(&self.fpr)?;
        writer.ownertrust(&Ownertrust {
            trust: self.trust,
            disabled: self.disabled,
        })?;
        Ok(())
    }
}

impl Part for Row {
    type Spelling = Format;

    ghost bytes = { row_bytes };

    ghost Fits = { RowFits };

    ghost at = { row_at };

    #[tactic(auto, unfolding(crate::specs::Reading::row_at))]
    fn read(alloc: Global, format: Format, reader: &mut Reader<'_>) -> Result<Row, NoValue> {
        let key = reader.key_id()?;
        let level = reader.number_1()?;
        let trust = reader.trust()?;
        let left = reader.number_1()?;
        let scope = reader.scope(alloc)?;
        let via = reader.via(format)?;
        Ok(Row {
            key,
            level,
            trust,
            left,
            scope,
            via,
        })
    }

    #[tactic(auto, unfolding(wot_types::specs::Spelling::row_bytes))]
    fn write(&self, writer: &mut Writer) -> Result<(), Mem> {
        writer.key_id(self.key)?;
        writer.number_1(self.level)?;
        writer.trust(self.trust)?;
        writer.number_1(self.left)?;
        writer.scope(&self.scope)?;
        writer.via(self.via)?;
        Ok(())
    }
}
