//! The block that is being read.

ghost use Rattle.std.specs.Prelude.{◌≡◌, ◌∷◌, [], ◌++◌, ◌<◌, ◌&&◌, is_none, is_some, true, length, nat_le, option_to_list, IfOk, OnOk, if◌then◌else◌};
ghost use Rattle.wot_types.specs.Listing.{certifies, first_failing, fpr_checks, sig_checks, user_at, user_checks};
ghost use Rattle.wot_types.specs.Limits.{most_users, most_certs};
ghost use Rattle.wot_types.specs.Records.{cert_of, fingerprint_at, is_good};
ghost use Rattle.wot_listing.specs.Answer.{Answers};
ghost use Rattle.wot_listing.specs.Machine.{at_primary, at_sub, key_at_end, repeats_user, users_of, with_cert, with_fpr, with_user};

use crate::cert::read_cert;
use crate::ended_users::EndedUsers;
use crate::error::LineError;
use crate::primary::Primary;
use crate::user::read_user;
use crate::values::{fingerprint_in, is_good};
use std::alloc::Global;
use wot_fields::Fields;
use wot_types::{
    Fpr, Key, KeyId, Limit, ListingWhat, MOST_USERS, Mem, PackedCert, User, UserKind, Users,
};

/// A block that no line has ended.
#[derive(Debug, Drop)]
pub struct KeyBlock {
    pub primary: Primary,
    pub fpr: Option<Fpr>,
    /// Whether the next `fpr` is the key's own.
    pub wants_fpr: bool,
    /// The user IDs that a line has ended.
    pub users: EndedUsers,
    /// The user ID that no line has ended.
    pub user: Option<User>,
    /// The certifications kept so far, at most 4,194,304.
    pub certs: u32,
}

impl KeyBlock {
    /// A block at its `pub`.
    pub fn new(alloc: Global, primary: Primary) -> Result<KeyBlock, Mem>
        ensures { IfOk result (λ block. block ≡ at_primary primary) }
    {
        Ok(KeyBlock {
            primary,
            fpr: None,
            wants_fpr: true,
            users: EndedUsers::new(alloc)?,
            user: None,
            certs: 0,
        })
    }

    /// Ends the block: its key ID and its key.
    pub fn into_key(self) -> Result<(KeyId, Key), LineError>
        ensures { Answers result (first_failing ((is_none self.fpr, ListingWhat.NoFingerprint) ∷ []))
            (λ p. (p.0 ≡ self.primary.id) × (p.1 ≡ key_at_end self)) }
    {
        let KeyBlock {
            primary,
            fpr,
            wants_fpr: _,
            mut users,
            user,
            certs: _,
        } = self;
        keep_user(&mut users, user)?;
        match fpr {
            Some(fpr) => Ok(key_of(primary, fpr, users.into_users())),
            None => Err(LineError::Failed(ListingWhat::NoFingerprint)),
        }
    }

    /// An `fpr` is the key's own where none has come.
    pub fn feed_fpr(&mut self, line: &[u8]) -> Result<(), LineError>
        ensures { Answers result (first_failing (if self.old.wants_fpr then fpr_checks self.old.primary.id line.now else []))
            (λ _. self.new ≡ with_fpr line.now self.old) }
    {
        if self.wants_fpr {
            let fpr = read_fpr(self.primary.id, &Fields::new(line))?;
            self.fpr = Some(fpr);
            self.wants_fpr = false;
        }
        Ok(())
    }

    /// A `uid` or `uat` ends the user ID before it, and begins one.
    pub fn feed_user(
        &mut self,
        alloc: Global,
        kind: UserKind,
        line: &Fields<'_>,
    ) -> Result<(), LineError>
        ensures { Answers result (first_failing (user_checks line.now ++ (repeats_user self.old (user_at kind self.old.primary.revoked line.now), ListingWhat.RepeatedUser)
            ∷ (nat_le most_users (length (users_of self.old)), ListingWhat.LimitReached Limit.Users) ∷ []))
            (λ _. self.new ≡ with_user kind line.now self.old) }
    {
        let user = read_user(alloc, kind, self.primary.revoked, line)?;
        self.check_user(&user)?;
        let ended = self.user.replace(user);
        keep_user(&mut self.users, ended)?;
        Ok(())
    }

    /// Refuses a user ID that is there already, or is one too many.
    fn check_user(&self, user: &User) -> Result<(), LineError>
        ensures { Answers result (first_failing ((repeats_user self.now user.now, ListingWhat.RepeatedUser)
            ∷ (nat_le most_users (length (users_of self.now)), ListingWhat.LimitReached Limit.Users) ∷ [])) (λ _. Unit {0}) }
    {
        if self.has_user(user)? {
            return Err(LineError::Failed(ListingWhat::RepeatedUser));
        }
        if self.is_full() {
            return Err(LineError::Failed(ListingWhat::LimitReached(Limit::Users)));
        }
        Ok(())
    }

    /// A `sub` or `ssb` ends the user ID, and an `fpr` after it is not the key's own.
    pub fn feed_sub(&mut self) -> Result<(), Mem>
        ensures { OnOk result (self.new ≡ at_sub self.old) }
    {
        let ended = self.user.take();
        keep_user(&mut self.users, ended)?;
        self.wants_fpr = false;
        Ok(())
    }

    /// A `sig` or `rev`. Answers whether it is kept. Where no user ID is open, none of its fields is looked for.
    pub fn feed_sig(&mut self, alloc: Global, line: &[u8]) -> Result<bool, LineError>
        ensures { Answers result (first_failing (if is_some self.old.user && is_good line.now then sig_checks self.old.primary.id self.old.certs line.now else []))
            (λ kept. (kept ≡ is_some self.old.user && certifies self.old.primary.id line.now)
            × (self.new ≡ (if kept then with_cert (cert_of line.now) self.old else self.old))) }
    {
        if self.user.is_none() {
            return Ok(false);
        }
        self.feed_cert(alloc, &Fields::new(line))
    }

    /// The same within a user ID.
    fn feed_cert(&mut self, alloc: Global, line: &Fields<'_>) -> Result<bool, LineError>
        requires { is_some self.old.user ≡ true }
        ensures { Answers result (first_failing (if is_good line.now then sig_checks self.old.primary.id self.old.certs line.now else []))
            (λ kept. (kept ≡ certifies self.old.primary.id line.now)
            × (self.new ≡ (if kept then with_cert (cert_of line.now) self.old else self.old))) }
    {
        if !is_good(line) {
            return Ok(false);
        }
        match read_cert(alloc, self.primary.id, self.certs, line)? {
            Some(cert) => {
                self.push_cert(cert)?;
                Ok(true)
            }
            None => Ok(false),
        }
    }

    fn push_cert(&mut self, cert: PackedCert) -> Result<(), Mem>
        requires { self.old.certs < most_certs }
        ensures { OnOk result (self.new ≡ with_cert cert self.old) }
    {
        if let Some(user) = &mut self.user {
            user.certs.push(cert)?;
        }
        self.certs += 1;
        Ok(())
    }

    fn has_user(&self, user: &User) -> Result<bool, Mem>
        ensures { IfOk result (λ there. there ≡ repeats_user self.now user.now) }
    {
        let ended = self.users.contains(user)?;
        match &self.user {
            Some(last) => Ok(ended || last.is_same(user)),
            None => Ok(ended),
        }
    }

    /// Whether there are as many user IDs as a key may have.
    fn is_full(&self) -> bool
        ensures { result ≡ nat_le most_users (length (users_of self.now)) }
    {
        let most_ended = match self.user {
            Some(_) => MOST_USERS - 1,
            None => MOST_USERS,
        };
        self.users.len() >= most_ended
    }
}

/// Keeps the user ID that was open, if one was.
fn keep_user(users: &mut EndedUsers, ended: Option<User>) -> Result<(), Mem>
    ensures { OnOk result (users.new ≡ users.old ++ option_to_list ended) }
{
    match ended {
        Some(user) => users.push(user),
        None => Ok(()),
    }
}

/// Reads the `fpr` of the key with this key ID.
fn read_fpr(id: KeyId, line: &Fields<'_>) -> Result<Fpr, LineError>
    ensures { Answers result (first_failing (fpr_checks id line.now)) (λ fpr. fpr ≡ fingerprint_at line.now) }
{
    if line.has_fewer(10) {
        return Err(LineError::Failed(ListingWhat::ShortRecord));
    }
    let fpr = fingerprint_in(line)?;
    if fpr.key_id() != id {
        return Err(LineError::Failed(ListingWhat::KeyIdDiffers));
    }
    Ok(fpr)
}

/// The key of a `pub`, its `fpr` and its user IDs.
fn key_of(primary: Primary, fpr: Fpr, users: Users) -> (KeyId, Key)
    ensures id { result.0 ≡ primary.id }
    ensures key { result.1 ≡ record {
      fpr = fpr;
      bits = primary.bits;
      algo = primary.algo;
      made = primary.made;
      expires = primary.expires;
      revoked = primary.revoked;
      caps = primary.caps;
      users = users;
    } }
{
    let Primary {
        id,
        bits,
        algo,
        made,
        expires,
        revoked,
        caps,
    } = primary;
    let key = Key {
        fpr,
        bits,
        algo,
        made,
        expires,
        revoked,
        caps,
        users,
    };
    (id, key)
}
