//! A key and a user ID up to the lists that they end with, wherever their fields are.

ghost use Rattle.std.specs.Prelude.{◌≡◌, ◌<◌, ◌^◌, ◌++◌, List, OnOk};
ghost use Rattle.wot_types.specs.declared.cert.Cert.{Cert as CertSeen};
ghost use Rattle.wot_types.specs.declared.cert.Form.TheVariants.{WithFpr};
ghost use Rattle.wot_types.specs.declared.user.User.{User as UserSeen};
ghost use Rattle.wot_types.specs.Spelling.{CertFits, FitsItsLength, KeyFits, ListFits, UserFits, cert_bytes, flag_bytes, key_bytes, list_bytes, number_4, user_bytes};
ghost use Rattle.wot_spelling.specs.Fields.{key_with, user_with};

use crate::numbers::number_4;
use crate::writer::Writer;
use wot_types::{Caps, Fpr, Mem, Text, UserHash, UserKind};

/// All of a key but its user IDs.
#[derive(Clone, Copy, Debug)]
pub struct KeyFields<'a> {
    pub fpr: &'a Fpr,
    pub bits: u32,
    pub algo: u32,
    pub made: u32,
    pub expires: u32,
    pub revoked: bool,
    pub caps: &'a Caps,
}

/// All of a user ID but its certifications.
#[derive(Clone, Copy, Debug)]
pub struct UserFields<'a> {
    pub kind: UserKind,
    pub text: &'a Text,
    pub hash: &'a UserHash,
    pub made: u32,
    pub expires: u32,
    pub revoked: bool,
}

impl Writer {
    /// A key up to its user IDs: with the list of these behind it, it is spelled.
    pub fn key_fields(&mut self, fields: &KeyFields<'_>) -> Result<(), Mem>
        requires { FitsItsLength fields.now.caps.now }
        ensures ok { (users : List UserSeen) → OnOk result (self.new ++ list_bytes (user_bytes WithFpr) users ≡ self.old ++ key_bytes WithFpr (key_with fields.now users)) }
        ensures fits { (users : List UserSeen) → ListFits (UserFits WithFpr) users → OnOk result (KeyFits WithFpr (key_with fields.now users)) }
    {
        self.fpr(fields.fpr)?;
        self.bytes(&key_numbers(fields))?;
        self.text(fields.caps.as_bytes())?;
        Ok(())
    }

    /// A user ID up to its certifications: with the list of these behind it, it is spelled.
    pub fn user_fields(&mut self, fields: &UserFields<'_>) -> Result<(), Mem>
        requires text { FitsItsLength fields.now.text.now }
        requires hash { FitsItsLength fields.now.hash.now }
        ensures ok { (certs : List CertSeen) → OnOk result (self.new ++ list_bytes (cert_bytes WithFpr) certs ≡ self.old ++ user_bytes WithFpr (user_with fields.now certs)) }
        ensures fits { (certs : List CertSeen) → ListFits (CertFits WithFpr) certs → OnOk result (UserFits WithFpr (user_with fields.now certs)) }
    {
        self.user_kind(fields.kind)?;
        self.text(fields.text.as_bytes())?;
        let mut room = [0u8; 40];
        self.text(fields.hash.as_bytes(&mut room))?;
        self.bytes(&user_numbers(fields))?;
        Ok(())
    }
}

/// The fields of a key between its fingerprint and its capabilities, in one piece.
#[tactic(auto, unfolding(wot_types::specs::Spelling::number_4, wot_types::specs::Spelling::flag_bytes))]
fn key_numbers(fields: &KeyFields<'_>) -> [u8; 17]
    ensures spelled { result ≡ number_4 fields.now.bits ++ (number_4 fields.now.algo ++ (number_4 fields.now.made ++ (number_4 fields.now.expires ++ flag_bytes fields.now.revoked))) }
    ensures bits { fields.now.bits < 2 ^ 32 }
    ensures algo { fields.now.algo < 2 ^ 32 }
    ensures made { fields.now.made < 2 ^ 32 }
    ensures expires { fields.now.expires < 2 ^ 32 }
{
    let [b0, b1, b2, b3] = number_4(fields.bits);
    let [a0, a1, a2, a3] = number_4(fields.algo);
    let [m0, m1, m2, m3] = number_4(fields.made);
    let [e0, e1, e2, e3] = number_4(fields.expires);
    let revoked = u8::from(fields.revoked);
    [
        b0, b1, b2, b3, a0, a1, a2, a3, m0, m1, m2, m3, e0, e1, e2, e3, revoked,
    ]
}

/// The fields of a user ID behind its texts, in one piece.
#[tactic(auto, unfolding(wot_types::specs::Spelling::number_4, wot_types::specs::Spelling::flag_bytes))]
fn user_numbers(fields: &UserFields<'_>) -> [u8; 9]
    ensures spelled { result ≡ number_4 fields.now.made ++ (number_4 fields.now.expires ++ flag_bytes fields.now.revoked) }
    ensures made { fields.now.made < 2 ^ 32 }
    ensures expires { fields.now.expires < 2 ^ 32 }
{
    let [m0, m1, m2, m3] = number_4(fields.made);
    let [e0, e1, e2, e3] = number_4(fields.expires);
    let revoked = u8::from(fields.revoked);
    [m0, m1, m2, m3, e0, e1, e2, e3, revoked]
}
