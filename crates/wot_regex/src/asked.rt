//! Scopes that are asked of many user IDs.

ghost use Rattle.std.specs.Prelude.{◌≡◌, ◌↔◌, ◌≤◌, true, IsTrue, IfOk, IfSome, Some, length};
ghost use Rattle.wot_types.specs.ExpressionMatch.{Admits};
ghost use Rattle.wot_types.specs.Scope.{admits};

use crate::answers::{Answers, WORTH_KEEPING};
use crate::expr::read;
use crate::matcher::Matcher;
use crate::scope::admits;
use std::alloc::Global;
use std::hash::{FoldHasher, Hasher};
use std::marker::Model;
use wot_types::{Mem, Text};

/// About so many bytes are kept. Where they are more, all is forgotten, and what is asked further is kept anew.
const MOST_BYTES: usize = 32 << 20;

/// Up to so many bytes tables are made, each of which takes as much as ten expressions without: else these would often be forgotten.
const MOST_WITH_TABLES: usize = MOST_BYTES / 2;

/// A scope, and the expression that it is, if it is one. Callers see the scope alone.
#[derive(Drop)]
pub struct Kept {
    scope: Vec<u8>,
    matcher: Option<Matcher>,
    /// What it answered of long texts, where these are slow to search.
    answers: Answers,
}

impl Model for Kept {
    ghost use Rattle.std.specs.Prelude.{◌≡◌, ℕ, List};
    ghost use Rattle.wot_types.specs.ExpressionReading.{tree_of};
    ghost use Rattle.wot_regex.specs.Answering.{AreAnswers};

    ghost Value = { List ℕ };

    ghost view = { λ k. k.scope.items };

    ghost invariant = { λ k. (tree_of k.scope.items ≡ k.matcher) × AreAnswers k.scope.items k.answers };
}

impl Kept {
    fn new(alloc: Global, scope: &[u8]) -> Result<Kept, Mem>
        ensures { IfOk result (λ kept. kept ≡ scope.now) }
    {
        let mut bytes = Vec::new(alloc);
        bytes.extend_from_slice(scope)?;
        let matcher = match read(scope) {
            Some(expr) => Some(Matcher::new(alloc, expr)?),
            None => None,
        };
        Ok(Kept {
            scope: bytes,
            matcher,
            answers: Answers::new(alloc),
        })
    }

    fn is_of(&self, scope: &[u8]) -> bool
        ensures { result ≡ true → self.now ≡ scope.now }
    {
        self.scope.as_slice() == scope
    }

    fn is_before(&self, scope: &[u8]) -> bool {
        self.scope.as_slice().cmp(scope).is_lt()
    }

    /// About how many bytes it takes.
    fn size(&self) -> usize {
        let size = self.scope.len().saturating_add(self.answers.size);
        match &self.matcher {
            Some(matcher) => size.saturating_add(matcher.size()),
            None => size,
        }
    }

    /// Whether it admits a text. Where it may grow, a table may be made.
    fn admits(&mut self, alloc: Global, text: &[u8], may_grow: bool) -> bool
        ensures same { self.new ≡ self.old }
        ensures value { result ≡ admits (Some self.old) text.now }
    {
        if text.len() < WORTH_KEEPING {
            return self.test(text, may_grow);
        }
        if let Some(found) = self.answers.find(text) {
            return found;
        }
        let found = self.test(text, may_grow);
        self.note(alloc, text, found);
        found
    }

    /// Keeps what it answered of a text, where it is slow: else a text is searched about as soon as it is found among others. For want of memory the
    /// text is searched again when it is asked again.
    fn note(&mut self, alloc: Global, text: &[u8], admitted: bool)
        requires { admitted ≡ admits (Some self.old) text.now }
        ensures { self.new ≡ self.old }
    {
        if self.is_slow() {
            self.answers.keep(alloc, text, admitted).ok();
        }
    }

    fn is_slow(&self) -> bool {
        self.matcher
            .as_ref()
            .is_some_and(|matcher| matcher.is_slow())
    }

    fn test(&mut self, text: &[u8], may_grow: bool) -> bool
        ensures same { self.new ≡ self.old }
        ensures value { result ≡ admits (Some self.old) text.now }
    {
        match &mut self.matcher {
            Some(matcher) => matcher.test(text, may_grow),
            None => false,
        }
    }
}

/// A kept scope and its hash. A search among many compares hashes, which lie side by side, and scopes where these are the same.
#[derive(Drop)]
struct Filed {
    hash: u64,
    kept: Box<Kept>,
}

impl Filed {
    fn is_before(&self, hash: u64, scope: &[u8]) -> bool {
        self.hash < hash || self.hash == hash && self.kept.is_before(scope)
    }
}

/// The scopes that were asked, each with what earlier texts came to under it. It is of one thread. What it keeps changes no answer, so callers see
/// nothing of it.
#[derive(Drop)]
pub struct Asked {
    alloc: Global,
    /// In the order of their hashes, and of their scopes where these are the same.
    filed: Vec<Filed>,
    /// About how many bytes they take.
    size: usize,
}

impl Model for Asked {
    ghost Value = { Unit {0} };

    ghost view = { λ a. tt };
}

impl Asked {
    pub fn new(alloc: Global) -> Asked {
        Asked {
            alloc,
            filed: Vec::new(alloc),
            size: 0,
        }
    }

    /// Whether a scope is an expression that matches somewhere in the text. One that is no expression admits none.
    // Not inlined: an expression that is read takes kilobytes of the stack, which each call of its caller would touch.
    #[inline(never)]
    pub fn admits(&mut self, scope: &Text, text: &Text) -> bool
        ensures value { result ≡ admits (Some scope.now) text.now }
        ensures means { IsTrue result ↔ Admits scope.now text.now }
    {
        self.test(scope, text)
    }

    fn test(&mut self, scope: &Text, text: &Text) -> bool
        ensures { result ≡ admits (Some scope.now) text.now }
    {
        if MOST_BYTES < self.size {
            self.forget();
        }
        if let Some(found) = self.ask(scope.as_bytes(), text.as_bytes()) {
            return found;
        }
        self.keep(scope.as_bytes()).ok();
        if let Some(found) = self.ask(scope.as_bytes(), text.as_bytes()) {
            return found;
        }
        // For want of memory it is read for this text alone.
        admits(scope, text)
    }

    /// Asks a scope that is kept.
    fn ask(&mut self, scope: &[u8], text: &[u8]) -> Option<bool>
        ensures { IfSome result (λ found. found ≡ admits (Some scope.now) text.now) }
    {
        let place = place_of(&self.filed, hash_of(scope), scope);
        let kept = &mut self.filed.get_mut(place)?.kept;
        if !kept.is_of(scope) {
            return None;
        }
        let before = kept.size();
        let found = kept.admits(self.alloc, text, self.size <= MOST_WITH_TABLES);
        self.size = self.size.saturating_add(kept.size().saturating_sub(before));
        Some(found)
    }

    // Not inlined, since it reads an expression, and most asks find theirs.
    #[inline(never)]
    fn keep(&mut self, scope: &[u8]) -> Result<(), Mem> {
        let kept = Box::new(self.alloc, Kept::new(self.alloc, scope)?)?;
        let size = kept.size();
        let hash = hash_of(scope);
        let place = place_of(&self.filed, hash, scope);
        self.filed.insert(place, Filed { hash, kept })?;
        self.size = self.size.saturating_add(size);
        Ok(())
    }

    fn forget(&mut self) {
        self.filed.clear();
        self.size = 0;
    }
}

/// Where a scope with this hash is kept, or would be.
fn place_of(filed: &[Filed], hash: u64, scope: &[u8]) -> usize
    ensures { result ≤ length filed.now }
{
    filed.partition_point(|filed: &Filed| filed.is_before(hash, scope))
}

fn hash_of(scope: &[u8]) -> u64 {
    let mut hasher = FoldHasher::default();
    hasher.write(scope);
    hasher.finish()
}
