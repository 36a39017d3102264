//! What a scope answered of long texts, so that one that is asked again is not searched again.

ghost use Rattle.std.specs.Prelude.{◌≡◌, ◌≤◌, IfSome, List, ℕ, Some, length, true};
ghost use Rattle.wot_types.specs.Scope.{admits};
ghost use Rattle.wot_regex.specs.Answering.{AreAnswers};

use std::alloc::Global;
use wot_types::Mem;

/// Answers of texts of so many bytes and more are kept. Shorter ones may be so many that one is searched about as soon as its answer is kept.
pub const WORTH_KEEPING: usize = 512;

/// A text, and whether the scope admits it.
#[derive(Drop)]
pub struct Answer {
    pub text: Vec<u8>,
    pub admitted: bool,
}

/// What a scope answered.
#[derive(Drop)]
pub struct Answers {
    /// In the order of their texts. A new one goes between others: the texts are so long that all is forgotten before there are 65,000, and the
    /// boxes of these are moved in some microseconds.
    pub items: Vec<Box<Answer>>,
    /// About how many bytes they take.
    pub size: usize,
}

impl Answer {
    fn is_of(&self, text: &[u8]) -> bool
        ensures { result ≡ true → self.now.text.items ≡ text.now }
    {
        self.text.as_slice() == text
    }

    fn is_before(&self, text: &[u8]) -> bool {
        self.text.as_slice().cmp(text).is_lt()
    }
}

impl Answers {
    pub fn new(alloc: Global) -> Answers
        ensures { (scope : List ℕ) → AreAnswers scope result }
    {
        Answers {
            items: Vec::new(alloc),
            size: 0,
        }
    }

    /// What was answered of a text, if that is kept.
    pub fn find(&self, text: &[u8]) -> Option<bool>
        ensures { (scope : List ℕ) → AreAnswers scope self.now → IfSome result (λ admitted. admitted ≡ admits (Some scope) text.now) }
    {
        let answer = self.items.get(self.place_of(text))?;
        if !answer.is_of(text) {
            return None;
        }
        Some(answer.admitted)
    }

    /// Keeps what was answered of a text.
    pub fn keep(&mut self, alloc: Global, text: &[u8], admitted: bool) -> Result<(), Mem>
        ensures { (scope : List ℕ) → AreAnswers scope self.old → admitted ≡ admits (Some scope) text.now → AreAnswers scope self.new }
    {
        let mut bytes = Vec::new(alloc);
        bytes.extend_from_slice(text)?;
        let answer = Answer {
            text: bytes,
            admitted,
        };
        let place = self.place_of(text);
        self.items.insert(place, Box::new(alloc, answer)?)?;
        let entry = size_of::<Answer>() + size_of::<Box<Answer>>();
        self.size = self.size.saturating_add(text.len().saturating_add(entry));
        Ok(())
    }

    /// Where the answer of a text is, or would be.
    fn place_of(&self, text: &[u8]) -> usize
        ensures { result ≤ length self.now.items.items }
    {
        self.items
            .partition_point(|answer: &Box<Answer>| answer.is_before(text))
    }
}
