//! Certifications as they are kept, with their places and without.

ghost use Rattle.std.specs.Prelude.{◌≡◌, ℕ, IfOk, None, is_some};
ghost use Rattle.std.specs.Option.{option_copied};
ghost use Rattle.wot_types.specs.PackedCert.{HasItsHead, fpr_in, scope_in};

use crate::cert::Cert;
use crate::fpr::Fpr;
use crate::key_id::KeyId;
use crate::list::List;
use crate::mem::Mem;
use crate::scope::Scope;
use std::alloc::Global;
use std::marker::Model;

/// A certification and its place in 40 bytes, seen as a `Placed`. A keyring has as many of these as of all else together, hardly any has a
/// scope, and a fingerprint that one names mostly ends in its issuer's key ID, which stands there already.
#[derive(Clone, Debug, Drop)]
pub struct PackedPlaced {
    issuer: KeyId,
    names: Names,
    made: u32,
    expires: u32,
    place: u32,
    class: u8,
    local: bool,
    depth: u8,
    amount: u8,
}

/// A certification before it is placed, seen as a `Cert`. The room for its place is there, so that a place costs no memory, and what
/// stands in it isn't seen.
#[derive(Clone, Debug, Drop)]
pub struct PackedCert {
    placed: PackedPlaced,
}

/// The scope of a certification, and the fingerprint of its issuer.
#[derive(Clone, Debug, Drop)]
enum Names {
    Neither,
    Scope(Scope),
    /// Of a fingerprint of 20 bytes those before the key ID of its issuer.
    Head([u8; 12]),
    /// A fingerprint that doesn't end so, or one beside a scope.
    Named(Box<Named>),
}

#[derive(Clone, Debug, Drop)]
struct Named {
    scope: Option<Scope>,
    fpr: Fpr,
}

impl Model for PackedPlaced {
    ghost use Rattle.wot_types.specs.declared.placed.Placed.{Placed as PlacedSeen};
    ghost use Rattle.wot_types.specs.contracts.placed.Placed as placed_struct;
    ghost use Rattle.wot_types.specs.PackedCert.{HasItsHead, fpr_in, scope_in};

    ghost Value = { PlacedSeen };

    ghost coded = { placed_struct.the_row.coded };

    ghost view = { λ p. record {
      place = p.place;
      cert = record {
        issuer = p.issuer;
        scope = scope_in p.names;
        made = p.made;
        expires = p.expires;
        class = p.class;
        local = p.local;
        depth = p.depth;
        amount = p.amount;
        issuer_fpr = fpr_in p.issuer p.names;
      };
    } };

    ghost invariant = { λ p. HasItsHead p.names };
}

impl Model for PackedCert {
    ghost use Rattle.wot_types.specs.declared.cert.Cert.{Cert as CertSeen};
    ghost use Rattle.wot_types.specs.contracts.cert.Cert as cert_struct;

    ghost Value = { CertSeen };

    ghost coded = { cert_struct.the_row.coded };

    ghost view = { λ c. c.placed.cert };
}

impl Names {
    fn of(
        alloc: Global,
        issuer: KeyId,
        scope: Option<Scope>,
        fpr: Option<Fpr>,
    ) -> Result<Names, Mem>
        ensures scope { IfOk result (λ names. scope_in names ≡ scope) }
        ensures fpr { IfOk result (λ names. fpr_in issuer names ≡ fpr) }
        ensures head { IfOk result HasItsHead }
    {
        let Some(fpr) = fpr else {
            return Ok(Names::of_scope(scope));
        };
        if scope.is_none() {
            if let Some(head) = fpr.head_before(issuer) {
                return Ok(Names::Head(head));
            }
        }
        Ok(Names::Named(Box::new(alloc, Named { scope, fpr })?))
    }

    fn of_scope(scope: Option<Scope>) -> Names
        ensures scope { scope_in result ≡ scope }
        ensures fpr { (issuer : ℕ) → fpr_in issuer result ≡ None }
        ensures head { HasItsHead result }
    {
        match scope {
            Some(scope) => Names::Scope(scope),
            None => Names::Neither,
        }
    }
}

impl PackedCert {
    /// Takes memory only where it has a scope beside a fingerprint, or a fingerprint that doesn't end in its issuer's key ID.
    pub fn pack(alloc: Global, cert: Cert) -> Result<PackedCert, Mem>
        ensures { IfOk result (λ packed. packed ≡ cert) }
    {
        let Cert {
            issuer,
            scope,
            made,
            expires,
            class,
            local,
            depth,
            amount,
            issuer_fpr,
        } = cert;
        let placed = PackedPlaced {
            issuer,
            names: Names::of(alloc, issuer, scope, issuer_fpr)?,
            made,
            expires,
            place: 0,
            class,
            local,
            depth,
            amount,
        };
        Ok(PackedCert { placed })
    }

    /// The certification at this place.
    pub fn at(self, place: u32) -> PackedPlaced
        ensures { result ≡ record { place = place; cert = self } }
    {
        let PackedCert { mut placed } = self;
        placed.place = place;
        placed
    }

    /// The same certification at a place that says nothing.
    pub fn as_placed(&self) -> &PackedPlaced
        ensures { result.now.cert ≡ self.now }
    {
        &self.placed
    }

    pub fn issuer(&self) -> KeyId
        ensures { result ≡ self.now.issuer }
    {
        self.placed.issuer()
    }

    pub fn class(&self) -> u8
        ensures { result ≡ self.now.class }
    {
        self.placed.class()
    }

    pub fn scope(&self) -> Option<&Scope>
        ensures { option_copied result ≡ self.now.scope }
    {
        self.placed.scope()
    }

    /// The fingerprint of its issuer, where it names that. It takes no memory.
    pub fn issuer_fpr(&self) -> Option<Fpr>
        ensures { result ≡ self.now.issuer_fpr }
    {
        self.placed.issuer_fpr()
    }
}

impl PackedPlaced {
    /// A copy of the certification, without its place.
    pub fn copy_cert(&self) -> Result<PackedCert, Mem>
        ensures { IfOk result (λ copy. copy ≡ self.now.cert) }
    {
        Ok(PackedCert {
            placed: self.clone()?,
        })
    }

    /// How many certifications stand before it in its key's block.
    pub fn place(&self) -> u32
        ensures { result ≡ self.now.place }
    {
        self.place
    }

    pub fn issuer(&self) -> KeyId
        ensures { result ≡ self.now.cert.issuer }
    {
        self.issuer
    }

    pub fn made(&self) -> u32
        ensures { result ≡ self.now.cert.made }
    {
        self.made
    }

    pub fn expires(&self) -> u32
        ensures { result ≡ self.now.cert.expires }
    {
        self.expires
    }

    pub fn class(&self) -> u8
        ensures { result ≡ self.now.cert.class }
    {
        self.class
    }

    pub fn is_local(&self) -> bool
        ensures { result ≡ self.now.cert.local }
    {
        self.local
    }

    pub fn depth(&self) -> u8
        ensures { result ≡ self.now.cert.depth }
    {
        self.depth
    }

    pub fn amount(&self) -> u8
        ensures { result ≡ self.now.cert.amount }
    {
        self.amount
    }

    pub fn scope(&self) -> Option<&Scope>
        ensures { option_copied result ≡ self.now.cert.scope }
    {
        match &self.names {
            Names::Neither | Names::Head(_) => None,
            Names::Scope(scope) => Some(scope),
            Names::Named(named) => named.scope.as_ref(),
        }
    }

    /// Whether it names its issuer's fingerprint.
    pub fn names_issuer(&self) -> bool
        ensures { result ≡ is_some self.now.cert.issuer_fpr }
    {
        matches!(&self.names, Names::Head(_) | Names::Named(_))
    }

    /// The fingerprint of its issuer, where it names that. It takes no memory.
    pub fn issuer_fpr(&self) -> Option<Fpr>
        ensures { result ≡ self.now.cert.issuer_fpr }
    {
        match &self.names {
            Names::Neither | Names::Scope(_) => None,
            Names::Head(head) => Some(Fpr::ending_in(head, self.issuer)),
            Names::Named(named) => Some(named.fpr.copy()),
        }
    }
}

/// Certifications in the order of the key's block.
pub type Certs = List<PackedCert>;
